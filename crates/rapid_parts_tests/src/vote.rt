// Tests of the vote: the fast round and classic recovery.

mod cuts;
mod fast_round;
mod recovery;
