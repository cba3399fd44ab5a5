// Tests of whole nodes, which hand their messages on to each other.

mod assertions;
mod conflict;
mod copies;
mod crash;
mod echo;
mod edges;
mod founding;
mod join;
mod kept;
mod leave;
mod network;
mod plays;
mod probes;
mod quiet;
mod recovery;
mod said;
mod shared;
mod steps;
mod tags;
