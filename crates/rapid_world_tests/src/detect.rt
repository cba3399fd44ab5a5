// Tests of `detect` over readers and writers.

pub mod devices;
mod faults;
mod lines;
mod worked;
