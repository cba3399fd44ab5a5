// Tests of the published view.

mod founding;
mod one_thread;
mod two_threads;
