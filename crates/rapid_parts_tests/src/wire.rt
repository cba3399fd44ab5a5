// Tests of messages and frames.

mod altered;
mod batches;
mod cuts;
mod frames;
mod longest;
mod refusals;
mod senders;
