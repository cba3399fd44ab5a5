//! A bounded queue with one end that puts and one that takes. What was taken is a beginning of what
//! was put, in order, each item once. Each item may follow those before it.
#![tactic(auto)]

mod ends;

use crossbeam_queue::protocol::{Join, Lesson, Outcome, Protocol, Split};
use crossbeam_queue::{Pass, RuledArrayQueue};
pub use ends::{Sink, Source, line};
use std::collections::LinkedList;
use std::marker::PhantomData;

/// Which item may follow which.
pub trait Order<T> {
    ghost use Rattle.std.specs.Prelude.{List};

    ghost next: { List T → T → Type 0 };
}

/// What a pass may do, and what it knows. No value of it is made.
pub struct Post<T> {
    pub puts: bool,
    pub takes: bool,
    pub put: LinkedList<T>,
    pub taken: LinkedList<T>,
}

/// The rule of a queue: what was put is what was taken and then what it holds, in order.
pub struct InOrder<P> {
    order: PhantomData<P>,
}

impl<T, P: Order<T>> Protocol<T, Post<T>> for InOrder<P> {
    ghost use Rattle.std.specs.Prelude.{true, []};
    ghost use Rattle.rapid_line.specs.Line.{post, Kept};

    ghost holds = { Kept P.next };

    ghost first = { post true true [] [] };
}

// The end that puts keeps that right, and the other gets the right to take.
pub(crate) struct Roles;

impl<T> Split<Post<T>> for Roles {
    ghost use Rattle.std.specs.Prelude.{true, false, []};
    ghost use Rattle.rapid_line.specs.Line.{post};

    ghost left = { λ v. post true false v.put [] };

    ghost right = { λ v. post false true [] v.taken };
}

// A note of what was taken.
pub(crate) struct TakenNote;

impl<T> Split<Post<T>> for TakenNote {
    ghost use Rattle.std.specs.Prelude.{false, []};
    ghost use Rattle.rapid_line.specs.Line.{post};

    ghost left = { λ v. v };

    ghost right = { λ v. post false false [] v.taken };
}

impl<T> Join<Post<T>> for TakenNote {
    ghost use Rattle.std.specs.Prelude.{false, []};
    ghost use Rattle.rapid_line.specs.Line.{post};

    ghost both = { λ v w. post v.puts v.takes v.put w.taken };

    ghost spent = { post false false [] [] };
}

// A note of what was put.
pub(crate) struct PutNote;

impl<T> Split<Post<T>> for PutNote {
    ghost use Rattle.std.specs.Prelude.{false, []};
    ghost use Rattle.rapid_line.specs.Line.{post};

    ghost left = { λ v. v };

    ghost right = { λ v. post false false v.put [] };
}

impl<T> Join<Post<T>> for PutNote {
    ghost use Rattle.std.specs.Prelude.{false, []};
    ghost use Rattle.rapid_line.specs.Line.{post};

    ghost both = { λ v w. post v.puts v.takes w.put v.taken };

    ghost spent = { post false false [] [] };
}

pub(crate) struct Puts;

impl<T> Outcome<T, Post<T>> for Puts {
    ghost use Rattle.std.specs.Prelude.{◌≡◌, [], ◌∷◌, ◌++◌};
    ghost use Rattle.rapid_line.specs.Line.{post};

    ghost then = { λ v x w. w ≡ post v.puts v.takes (v.put ++ x ∷ []) v.taken };
}

impl<T> Lesson<T, Post<T>> for Puts {
    ghost use Rattle.rapid_line.specs.Line.{Waiting};

    ghost fact = { λ v items. Waiting v.put v.taken items };
}

pub(crate) struct Takes<P> {
    order: PhantomData<P>,
}

impl<T, P: Order<T>> Outcome<T, Post<T>> for Takes<P> {
    ghost use Rattle.std.specs.Prelude.{◌≡◌, [], ◌∷◌, ◌++◌, List};
    ghost use Rattle.rapid_line.specs.Line.{post, Coming};

    ghost then = { λ v x w. (w ≡ post v.puts v.takes v.put (v.taken ++ x ∷ [])) × P.next v.taken x × ((items : List T) × Coming v.taken v.put (x ∷ items)) };
}

impl<T, P: Order<T>> Lesson<T, Post<T>> for Takes<P> {
    ghost use Rattle.rapid_line.specs.Line.{Coming};

    ghost fact = { λ v items. Coming v.taken v.put items };
}

pub(crate) struct Compares;

impl<T> Lesson<T, Post<T>> for Compares {
    ghost use Rattle.rapid_line.specs.Line.{StartsWith};

    ghost fact = { λ v items. StartsWith v.put v.taken };
}

/// The queue between the two ends.
pub type Queue<T, P> = RuledArrayQueue<T, Post<T>, InOrder<P>>;
