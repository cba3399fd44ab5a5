// Tests of `sim` over readers and writers.

mod faults;
mod worked;
