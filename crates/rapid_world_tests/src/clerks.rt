// Tests of clerks.

mod books;
mod crews;
mod ends;
mod gates;
mod jobs;
mod relays;
