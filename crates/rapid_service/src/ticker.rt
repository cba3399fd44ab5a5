// The clock of a node.

ghost use Rattle.std.specs.Prelude.{◌≡◌, ◌≤◌, None};
ghost use Rattle.std.specs.Duration.{as_nanos};

use crate::post::Post;
use crate::shared::Shared;
use std::sync::Wait;
use std::time::{Clock, Duration, Instant};

/// What is left of a period that began then.
fn left<C: Clock>(clock: &C, begun: Option<Instant>, period: Duration) -> Duration
    ensures whole { begun ≡ None → result ≡ period }
    ensures most { as_nanos result ≤ as_nanos period }
{
    let Some(begun) = begun else {
        return period;
    };
    match begun.elapsed(clock) {
        Ok(spent) => period.saturating_sub(spent),
        Err(_) => period,
    }
}

/// Ticks the node once a period until it ends. A tick that comes late is made once, and the next
/// period begins with it: none of those that were missed is made up for.
pub fn run_ticker<W: Wait + Clock, R: Wait + Copy + Drop, P: Post + Drop>(
    rt: &W,
    shared: &Shared<R, P>,
    period: Duration,
) {
    let mut wait = period;
    for _ in rt.forever() {
        if shared.ending().wait(rt, wait) {
            return;
        }
        let begun = Instant::now(rt).ok();
        let done = shared.tick(rt);
        if !shared.goes_on(rt, done) {
            return;
        }
        wait = left(rt, begun, period);
    }
}
