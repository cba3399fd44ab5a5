// Tests of desks, and of the published view alone.

mod checkpoints;
mod ending;
mod founding;
mod journal;
mod published;
mod seats;
mod subscriptions;
mod threads;
mod views;
