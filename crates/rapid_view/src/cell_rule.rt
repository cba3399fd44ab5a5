// What a seat of the cell knows, the rule that the cell keeps, and the kinds of step.

use atomic_table::{Join, Play, Split, TableRule};
use rapid_config::Stamp;
use std::collections::LinkedList;

/// What a seat knows. It knows whether it is the writer's, for how many stamps there is room, and
/// the list as far as it has seen it. It also knows what another seat passed to it, and the words
/// that it has stored of the next stamp. It is a type for contracts: no value of it is ever made.
pub struct CellKnowledge {
    pub writes: bool,
    pub room: u64,
    pub seen: LinkedList<Stamp>,
    pub told: LinkedList<Stamp>,
    pub pending: LinkedList<u64>,
}

/// The rule: the words of the cell are a list of stamps of which each seat has seen a beginning.
pub struct Published;

impl TableRule<(), CellKnowledge, u64> for Published {
    ghost use Rattle.rapid_view.specs.CellRule.{Kept, newcomer};

    ghost holds = { Kept };

    ghost first = { newcomer };
}

/// A seat loads the count.
pub(crate) struct Looks;

impl Play<(), CellKnowledge> for Looks {
    ghost use Rattle.rapid_view.specs.CellRule.{Looked};

    ghost then = { Looked };
}

/// The writer loads the count, and finds what it was told in its list.
pub(crate) struct Compares;

impl Play<(), CellKnowledge> for Compares {
    ghost use Rattle.rapid_view.specs.CellRule.{Compared};

    ghost then = { Compared };
}

/// A seat loads a word of a stamp that it has seen.
pub(crate) struct Reads;

impl Play<(), CellKnowledge> for Reads {
    ghost use Rattle.rapid_view.specs.CellRule.{Read};

    ghost then = { Read };
}

/// The writer stores a word into the next place.
pub(crate) struct Stores;

impl Play<(), CellKnowledge> for Stores {
    ghost use Rattle.rapid_view.specs.CellRule.{Stored};

    ghost then = { Stored };
}

/// The writer stores the count.
pub(crate) struct Lengthens;

impl Play<(), CellKnowledge> for Lengthens {
    ghost use Rattle.rapid_view.specs.CellRule.{Lengthened};

    ghost then = { Lengthened };
}

/// A seat is told what another has seen. It is no step on a word.
pub(crate) struct Tells;

impl Split<CellKnowledge> for Tells {
    ghost use Rattle.rapid_view.specs.CellRule.{onlooker};

    ghost left = { λ v. v };

    ghost right = { onlooker };
}

impl Join<CellKnowledge> for Tells {
    ghost use Rattle.rapid_view.specs.CellRule.{informed, nobody};

    ghost both = { informed };

    ghost spent = { nobody };
}
