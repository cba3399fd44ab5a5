// Alerts that a caller of a detector keeps in a form of its own.

ghost use Rattle.rapid_alerts.specs.Alerts.{alerts_in};

use crate::cut::tables::{Start, table};
use crate::numbered::{are_numbered, process, shared};
use rapid_alerts::{AlertList, Kind};
use rapid_config::ConfigId;
use rapid_cut::{Detector, InTurn, Turn};
use std::alloc::{AllocError, Global};
use std::test::Fail;

/// The alerts of a list, which keeps their subjects for itself.
#[derive(Debug, Drop)]
struct Lent<'a> {
    list: &'a AlertList,
}

impl InTurn for Lent<'_> {
    ghost alerts = { λ lent. alerts_in lent.list.now };

    fn count(&self) -> usize {
        self.list.len()
    }

    fn at(&self, place: usize) -> Turn<'_> {
        Turn {
            alert: self.list.alert_ref(place),
            kept: None,
        }
    }
}

/// The alerts of process 1 that remove processes 5 and 6 on two rings, one of them once more.
fn crashes(alloc: Global) -> Result<AlertList, AllocError> {
    let mut list = AlertList::new(alloc, shared(alloc, &process(1))?, ConfigId::zero());
    for (ring, subject) in [(0, 5), (1, 5), (0, 6), (1, 6), (1, 5), (2, 5)] {
        list.push(&process(subject), ring, Kind::Remove)?;
    }
    Ok(list)
}

/// Process 1 observes 5 and 6 on rings 0 and 1, and K = H = 2 and L = 1.
const TWO: Start = Start::Edges(2, 2, 1, &[(0, 1, 5), (1, 1, 5), (0, 1, 6), (1, 1, 6)]);

/// They are taken as the list itself is: the repeat counts as taken, and the alert on no ring is
/// skipped.
#[test]
fn alerts_are_taken_however_a_caller_keeps_them(rt: HostRuntime) -> Result<(), Fail> {
    let alloc = rt.alloc();
    let list = crashes(alloc)?;
    let mut detector = Detector::new(alloc, table(alloc, &TWO)?);
    let cut = detector.batch_in_turn(&Lent { list: &list })?;
    assert!(rt; matches!(&cut, Some(cut) if are_numbered(cut.processes(), &[5, 6])));
    assert!(rt; detector.skipped() == 1);
    Ok(())
}
