// How each library is used alone: small functions as an application would have them.

mod desk;
mod detector;
mod fast_round;
mod frames;
mod tests;
mod world;
