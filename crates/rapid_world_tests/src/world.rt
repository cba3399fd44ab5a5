// Tests of whole worlds.

mod frames;
mod joins;
mod refusals;
mod worlds;
