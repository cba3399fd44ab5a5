// Peers that were too slow, and are left alone for a while.

ghost use Rattle.std.specs.Prelude.{◌≤◌, ◌<◌, vec_len};
ghost use Rattle.rapid_model.specs.Limits.{most_slow_peers};

use rapid_endpoint::Endpoint;
use std::alloc::Global;
use std::time::{Clock, Duration, Instant};

/// How long a peer that was too slow is left alone at first, in milliseconds. It is half a round of
/// probes at ticks of 10 milliseconds, since four rounds without an answer expel a peer.
const FIRST_PAUSE: u64 = 50;

/// How long a peer is left alone at most, in milliseconds. The pause doubles each time that it is
/// too slow again.
const LONGEST_PAUSE: u64 = 1_000;

/// For how long after its pause a peer that is too slow is so again, in milliseconds.
const REMEMBERED: u64 = 1_000;

/// How many peers are left alone at most.
const MOST_SLOW: usize = 1_024;

/// A peer that was too slow, when, and how long it is left alone.
#[derive(Drop)]
struct Slow {
    peer: Endpoint,
    since: Instant,
    pause: Duration,
}

impl Slow {
    /// Whether the peer is left alone now.
    fn is_paused(&self, now: Instant) -> bool {
        now.saturating_duration_since(self.since) < self.pause
    }

    /// Whether its pause is long over.
    fn is_forgotten(&self, now: Instant) -> bool {
        now.saturating_duration_since(self.since)
            >= self.pause.saturating_add(Duration::from_millis(REMEMBERED))
    }
}

/// The peers that were too slow lately, at most 1,024, from the one that was so first on.
#[derive(Drop)]
pub(crate) struct SlowPeers {
    all: Vec<Slow>,
    ghost few: { vec_len all ≤ most_slow_peers },
}

impl SlowPeers {
    /// No peer was too slow.
    pub(crate) fn new(alloc: Global) -> SlowPeers {
        SlowPeers {
            all: Vec::new(alloc),
        }
    }

    /// Lets the first peer go if there is no room for another.
    fn make_room(&mut self)
        ensures { vec_len self.new.all < most_slow_peers }
    {
        if self.all.len() >= MOST_SLOW {
            self.all.remove(0);
        }
    }

    /// How long a peer that was too slow is to be left alone: twice as long as the last time, if
    /// that was lately.
    fn next_pause(&self, peer: Endpoint) -> Duration {
        match self.all.iter().find(|slow| slow.peer == peer) {
            Some(slow) => {
                let longest = Duration::from_millis(LONGEST_PAUSE);
                slow.pause.saturating_mul(2).min(longest)
            }
            None => Duration::from_millis(FIRST_PAUSE),
        }
    }

    /// A peer was too slow: it is left alone for a while from now on, unless there is no memory for
    /// that.
    pub(crate) fn add<R: Clock>(&mut self, rt: &R, peer: Endpoint) {
        let Ok(since) = Instant::now(rt) else {
            return;
        };
        let pause = self.next_pause(peer);
        self.forget(peer);
        self.make_room();
        let _ = self.all.push(Slow { peer, since, pause });
    }

    /// A peer was not too slow.
    pub(crate) fn forget(&mut self, peer: Endpoint) {
        if !self.all.is_empty() {
            self.all.retain(|slow| slow.peer != peer);
        }
    }

    /// Whether a peer is left alone.
    pub(crate) fn has<R: Clock>(&mut self, rt: &R, peer: Endpoint) -> bool {
        if self.all.is_empty() {
            return false;
        }
        let Ok(now) = Instant::now(rt) else {
            return false;
        };
        self.all.retain(|slow| !slow.is_forgotten(now));
        self.all
            .iter()
            .any(|slow| slow.peer == peer && slow.is_paused(now))
    }
}
