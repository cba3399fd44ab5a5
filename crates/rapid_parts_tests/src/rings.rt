// Tests of who observes whom, of probe windows and of joins.

mod boards;
mod joins;
mod monitors;
mod probers;
mod rings;
mod short_tables;
mod tables;
