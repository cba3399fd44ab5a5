// What a seat of a board knows, the rule that the board keeps, and the kinds of step.

use atomic_table::{Join, Play, Split, Table, TableRule};
use std::alloc::Global;
use std::collections::LinkedList;

/// What a seat knows. It knows whether it makes the seats of edges, and of which edge next. It
/// knows whether it owns an edge, which one, and the results of that edge. And it knows of some
/// edges that they are down. It is a type for contracts: no value of it is ever made.
pub struct BoardKnowledge {
    pub makes: bool,
    pub next: u64,
    pub owns: bool,
    pub edge: u64,
    pub results: LinkedList<bool>,
    pub known: LinkedList<u64>,
}

/// The rule: the word of each edge is that of its results, which only the owner's seat makes more.
pub struct Ruled;

/// The words of a board, one an edge.
pub(crate) type Words = Table<(), BoardKnowledge, u64, Ruled, Global>;

impl TableRule<(), BoardKnowledge, u64> for Ruled {
    ghost use Rattle.rapid_monitor.specs.BoardRule.{Kept, maker_at};

    ghost holds = { Kept };

    ghost first = { λ edges. maker_at 0 };
}

/// The owner of an edge loads its word.
pub(crate) struct Finds;

impl Play<(), BoardKnowledge> for Finds {
    ghost use Rattle.rapid_monitor.specs.BoardRule.{Found};

    ghost then = { Found };
}

/// The owner of an edge stores the word of one more result.
pub(crate) struct Stores;

impl Play<(), BoardKnowledge> for Stores {
    ghost use Rattle.rapid_monitor.specs.BoardRule.{Stored};

    ghost then = { Stored };
}

/// Anyone loads the word of an edge.
pub(crate) struct Looks;

impl Play<(), BoardKnowledge> for Looks {
    ghost use Rattle.rapid_monitor.specs.BoardRule.{Looked};

    ghost then = { Looked };
}

/// The maker makes the owner of its next edge. It is no step on a word.
pub(crate) struct Owners;

impl Split<BoardKnowledge> for Owners {
    ghost use Rattle.std.specs.Prelude.{◌+◌, []};
    ghost use Rattle.rapid_monitor.specs.BoardRule.{maker_at, owner_of};

    ghost left = { λ v. maker_at (v.next + 1) };

    ghost right = { λ v. owner_of v.next [] [] };
}

/// A watcher that knows nothing is made.
pub(crate) struct Watchers;

impl Split<BoardKnowledge> for Watchers {
    ghost use Rattle.std.specs.Prelude.{[]};
    ghost use Rattle.rapid_monitor.specs.BoardRule.{watcher};

    ghost left = { λ v. v };

    ghost right = { λ v. watcher [] };
}

/// A note of the edges that a seat knows to be down, and what another makes of it.
pub(crate) struct DownNote;

impl Split<BoardKnowledge> for DownNote {
    ghost use Rattle.rapid_monitor.specs.BoardRule.{watcher};

    ghost left = { λ v. v };

    ghost right = { λ v. watcher v.known };
}

impl Join<BoardKnowledge> for DownNote {
    ghost use Rattle.std.specs.Prelude.{◌++◌, []};
    ghost use Rattle.rapid_monitor.specs.BoardRule.{watcher, with_known};

    ghost both = { λ v w. with_known v (w.known ++ v.known) };

    ghost spent = { watcher [] };
}

/// A note of what an owner knows of its edge.
pub(crate) struct OwnNote;

impl Split<BoardKnowledge> for OwnNote {
    ghost use Rattle.rapid_monitor.specs.BoardRule.{watcher, own_known};

    ghost left = { λ v. v };

    ghost right = { λ v. watcher (own_known v) };
}
