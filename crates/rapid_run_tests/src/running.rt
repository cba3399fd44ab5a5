// Tests of running nodes.

mod agents;
mod changes;
mod clusters;
mod consoles;
mod devices;
mod ends;
mod leaving;
mod notes;
mod probing;
mod repeats;
mod rows;
mod scarce;
mod seats;
mod strangers;
