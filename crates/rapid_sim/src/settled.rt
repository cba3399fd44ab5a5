// Which packets are settled.

ghost use Rattle.std.specs.Prelude.{◌≡◌, ◌<◌, ◌≤◌, not, IfSome, OnOk, OnErr};
ghost use Rattle.std.specs.List.{find, range_with_len};
ghost use Rattle.std.specs.FinSet as set;
ghost use Rattle.rapid_sim.specs.Settling.{settled_by, HasGap};

use std::alloc::{AllocError, Global};
use std::collections::BTreeSet;
use std::marker::Model;

/// A set of numbers.
#[derive(Debug, Drop)]
struct NumberSet {
    numbers: BTreeSet<u64>,
}

impl Model for NumberSet {
    ghost use Rattle.std.specs.FinSet as set;
    ghost use Rattle.std.specs.Ordering.{nat_cmp};
    ghost use Rattle.rapid_model.specs.Codes.{positions_code};

    ghost Value = { set.FinSet nat_cmp };

    ghost coded = { positions_code };

    ghost view = { λ s. set.from_list s.numbers.keys };
}

impl NumberSet {
    /// The empty set.
    fn new(alloc: Global) -> NumberSet
        ensures { result ≡ set.empty }
    {
        NumberSet {
            numbers: BTreeSet::new(alloc),
        }
    }

    /// Whether the number is in the set.
    fn contains(&self, number: u64) -> bool
        ensures { result ≡ set.contains self.now number }
    {
        self.numbers.contains(&number)
    }

    /// Adds a number. If out of memory the set is as it was.
    fn insert(&mut self, number: u64) -> Result<(), AllocError>
        ensures ok { OnOk result (self.new ≡ set.insert self.old number) }
        ensures unchanged { OnErr result (self.new ≡ self.old) }
    {
        self.numbers.insert(number)?;
        Ok(())
    }

    /// Takes a number out, if it is there.
    fn remove(&mut self, number: u64)
        ensures { self.new ≡ set.remove self.old number }
    {
        self.numbers.remove(&number);
    }
}

/// The packets that are settled, by their numbers from 1. Those from the first on that are settled
/// without a gap are only counted. So a flow, which settles the least one each time, finds it at
/// once and takes no memory.
#[derive(Debug, Drop)]
pub(crate) struct Settled {
    // the packets up to this one are settled
    all_to: u64,
    // those settled above it
    above: NumberSet,
}

impl Model for Settled {
    ghost use Rattle.std.specs.FinSet as set;
    ghost use Rattle.std.specs.Ordering.{nat_cmp};
    ghost use Rattle.rapid_model.specs.Codes.{positions_code};
    ghost use Rattle.rapid_sim.specs.Settling.{settled_by, HasGap};

    ghost Value = { set.FinSet nat_cmp };

    ghost coded = { positions_code };

    ghost view = { λ s. settled_by s.all_to s.above };

    ghost invariant = { λ s. HasGap s.all_to s.above };
}

impl Settled {
    /// No packet is settled.
    pub(crate) fn new(alloc: Global) -> Settled
        ensures { result ≡ set.empty }
    {
        Settled {
            all_to: 0,
            above: NumberSet::new(alloc),
        }
    }

    /// The least packet that is not settled, of those that were sent.
    pub(crate) fn least(&self, sent: u64) -> Option<u64>
        ensures least { result ≡ find (λ k. not (set.contains self.now k)) (range_with_len 1 sent) }
        ensures from_1 { IfSome result (λ k. 1 ≤ k) }
    {
        if self.all_to < sent {
            Some(self.all_to + 1)
        } else {
            None
        }
    }

    /// Settles a packet. If out of memory all is as it was.
    pub(crate) fn settle(&mut self, packet: u64) -> Result<(), AllocError>
        requires { 1 ≤ packet }
        ensures ok { OnOk result (self.new ≡ set.insert self.old packet) }
        ensures unchanged { OnErr result (self.new ≡ self.old) }
    {
        if packet <= self.all_to {
            return Ok(());
        }
        if packet - 1 > self.all_to {
            return self.above.insert(packet);
        }
        self.all_to = all_from(packet, &mut self.above);
        Ok(())
    }
}

/// Up to which packet all are settled, if all up to the first are, and these above it. Those that
/// are passed are taken out of the set.
fn all_from(first: u64, above: &mut NumberSet) -> u64
    ensures same { settled_by result above.new ≡ settled_by first above.old }
    ensures gap { HasGap result above.new }
{
    let mut all_to = first;
    while let Some(next) = all_to.checked_add(1) {
        if !above.contains(next) {
            return all_to;
        }
        above.remove(next);
        all_to = next;
    }
    all_to
}
