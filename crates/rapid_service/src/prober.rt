// A thread that makes parts of rounds of probes.

use crate::post::Post;
use crate::shared::Shared;
use std::sync::Wait;
use std::time::{Clock, Duration};

/// How long to wait for a round before looking whether the node ends, in milliseconds.
const LONGEST_WAIT_FOR_ROUND: u64 = 100;

/// Makes parts of each round of probes beside who begins it, until the node ends.
pub fn run_prober<W: Wait + Clock, R: Wait + Copy + Drop, P: Post + Drop>(
    rt: &W,
    shared: &Shared<R, P>,
) {
    for _ in rt.forever() {
        if shared.ending().has_come(rt) {
            return;
        }
        shared
            .dealer()
            .wait(rt, Duration::from_millis(LONGEST_WAIT_FOR_ROUND));
        shared.probe_parts(rt);
    }
}
