// Tests of alerts and of the cut detector.

mod alerts;
mod cuts;
mod in_turn;
mod spelt;
mod tables;
