// The two ends of a queue.

ghost use Rattle.std.specs.Prelude.{◌≡◌, ℕ, ◌<◌, ◌≤◌, List, [], ◌∷◌, ◌++◌, true, false, IfOk, IfErr, IfSome, MatchOption, MatchResult};
ghost use Rattle.std.specs.Arc.{arc_value};
ghost use Rattle.crossbeam_queue.specs.Passes.{view, IsPassOf, ruled_capacity};
ghost use Rattle.rapid_line.specs.Line.{post, StartsWith, Untaken, Coming};

use crate::{Compares, Order, Post, PutNote, Puts, Queue, Roles, TakenNote, Takes};
use crossbeam_queue::{Pass, RuledArrayQueue};
use std::alloc::{AllocError, Global};
use std::marker::Model;
use std::sync::{Arc, Wait};

/// The end that puts. Contracts see the queue, what was put, what is known to be taken of it, and
/// for how many items there is room.
#[derive(Drop)]
pub struct Sink<T: Drop, P: Order<T>> {
    queue: Arc<Queue<T, P>>,
    pass: Pass<T, Post<T>>,
}

impl<T: Drop, P: Order<T>> Model for Sink<T, P> {
    ghost use Rattle.std.specs.Prelude.{◌≡◌, true, false};
    ghost use Rattle.std.specs.Arc.{arc_value};
    ghost use Rattle.crossbeam_queue.specs.Passes.{view as pass_view, IsPassOf, ruled_capacity};
    ghost use Rattle.rapid_line.specs.Ends.{SinkState};

    ghost Value = { SinkState T };

    ghost view = { λ s. record { queue = s.pass.table_id; put = (pass_view s.pass).put; known = (pass_view s.pass).taken; room = ruled_capacity (arc_value s.queue) } };

    ghost invariant = { λ s. IsPassOf (arc_value s.queue) s.pass × ((pass_view s.pass).puts ≡ true) × ((pass_view s.pass).takes ≡ false) };
}

/// The end that takes. Contracts see the queue, what was taken, what is known to be put in it, and
/// for how many items there is room.
#[derive(Drop)]
pub struct Source<T: Drop, P: Order<T>> {
    queue: Arc<Queue<T, P>>,
    pass: Pass<T, Post<T>>,
}

impl<T: Drop, P: Order<T>> Model for Source<T, P> {
    ghost use Rattle.std.specs.Prelude.{◌≡◌, true, false};
    ghost use Rattle.std.specs.Arc.{arc_value};
    ghost use Rattle.crossbeam_queue.specs.Passes.{view as pass_view, IsPassOf, ruled_capacity};
    ghost use Rattle.rapid_line.specs.Ends.{SourceState};

    ghost Value = { SourceState T };

    ghost view = { λ s. record { queue = s.pass.table_id; taken = (pass_view s.pass).taken; known = (pass_view s.pass).put; room = ruled_capacity (arc_value s.queue) } };

    ghost invariant = { λ s. IsPassOf (arc_value s.queue) s.pass × ((pass_view s.pass).puts ≡ false) × ((pass_view s.pass).takes ≡ true) };
}

/// An empty queue for this many items, at least one.
pub fn line<T: Drop, P: Order<T>>(
    alloc: Global,
    capacity: usize,
) -> Result<(Sink<T, P>, Source<T, P>), AllocError>
    requires { 0 < capacity }
    ensures empty { IfOk result (λ r. (r.0.queue ≡ r.1.queue) × (r.0.put ≡ []) × (r.1.taken ≡ [])) }
    ensures room { IfOk result (λ r. (r.0.known ≡ []) × (r.0.room ≡ capacity) × (r.1.room ≡ capacity)) }
    ensures known { IfOk result (λ r. r.1.known ≡ []) }
{
    let (queue, mut writer) = RuledArrayQueue::ruled(alloc, capacity)?;
    let reader = queue.another::<Roles>(&mut writer);
    let queue = Arc::new(alloc, queue)?;
    let other = Arc::try_clone(&queue)?;
    let sink = Sink {
        queue,
        pass: writer,
    };
    let source = Source {
        queue: other,
        pass: reader,
    };
    Ok((sink, source))
}

impl<T: Drop, P: Order<T>> Sink<T, P> {
    /// Puts an item if there is room. The item comes back only if the queue was full at one moment
    /// of the call. Then as many items as it has room for were still to be taken.
    pub fn put<R: Wait>(&mut self, rt: &R, item: T) -> Result<(), T>
        requires { P.next self.old.put item }
        ensures queue { (self.new.queue ≡ self.old.queue) × (self.new.known ≡ self.old.known) × (self.new.room ≡ self.old.room) }
        ensures put { MatchResult result (λ _. self.new.put ≡ self.old.put ++ item ∷ []) (λ x. (x ≡ item) × (self.new.put ≡ self.old.put)) }
        ensures full { IfErr result (λ _. Untaken self.old.put self.old.known self.old.room) }
    {
        push(rt, &self.queue, &mut self.pass, item)
    }

    /// Puts an item, and waits for room if there is none.
    pub fn put_when_free<R: Wait>(&mut self, rt: &R, item: T)
        requires { P.next self.old.put item }
        ensures queue { (self.new.queue ≡ self.old.queue) × (self.new.known ≡ self.old.known) × (self.new.room ≡ self.old.room) }
        ensures put { self.new.put ≡ self.old.put ++ item ∷ [] }
    {
        let mut item = item;
        for _ in rt.forever() {
            match self.put(rt, item) {
                Ok(()) => return,
                Err(back) => item = back,
            }
        }
        unreachable!()
    }

    /// How many items were in the queue, and still to be taken, at one moment of the call.
    pub fn len<R: Wait>(&mut self, rt: &R) -> usize
        ensures same { self.new ≡ self.old }
        ensures untaken { (result ≤ self.old.room) × Untaken self.old.put self.old.known result }
    {
        count(rt, &self.queue, &mut self.pass)
    }

    /// What was taken is a beginning of what was put, and is known to be taken from then on.
    pub fn compare(&mut self, source: &mut Source<T, P>)
        requires { self.old.queue ≡ source.old.queue }
        ensures same { (self.new.queue ≡ self.old.queue) × (self.new.put ≡ self.old.put) × (self.new.room ≡ self.old.room) × (source.new ≡ source.old) }
        ensures known { self.new.known ≡ source.old.taken }
        ensures order { StartsWith self.old.put source.old.taken }
    {
        compare(&self.queue, &mut self.pass, &mut source.pass);
    }
}

impl<T: Drop, P: Order<T>> Source<T, P> {
    /// Takes the oldest item: the next of those that are known to be put, if not all of them were
    /// taken. It takes none only if the queue was empty at one moment of the call. Then all that is
    /// known to be put was taken before.
    pub fn take<R: Wait>(&mut self, rt: &R) -> Option<T>
        ensures queue { (self.new.queue ≡ self.old.queue) × (self.new.room ≡ self.old.room) × (self.new.known ≡ self.old.known) }
        ensures taken { MatchOption result (self.new.taken ≡ self.old.taken) (λ x. (self.new.taken ≡ self.old.taken ++ x ∷ []) × P.next self.old.taken x) }
        ensures coming { IfSome result (λ x. (items : List T) × Coming self.old.taken self.old.known (x ∷ items)) }
        ensures none { MatchOption result (StartsWith self.old.taken self.old.known) (λ _. Unit {0}) }
    {
        pop(rt, &self.queue, &mut self.pass)
    }

    /// What the other end has put is known to be put from then on.
    pub fn compare(&mut self, sink: &mut Sink<T, P>)
        requires { self.old.queue ≡ sink.old.queue }
        ensures same { (self.new.queue ≡ self.old.queue) × (self.new.taken ≡ self.old.taken) × (self.new.room ≡ self.old.room) × (sink.new ≡ sink.old) }
        ensures known { self.new.known ≡ sink.old.put }
    {
        hear(&self.queue, &mut self.pass, &mut sink.pass);
    }
}

/// Puts an item by this pass.
fn push<T: Drop, P: Order<T>, R: Wait>(
    rt: &R,
    queue: &Queue<T, P>,
    pass: &mut Pass<T, Post<T>>,
    item: T,
) -> Result<(), T>
    requires queue { IsPassOf queue.now pass.old }
    requires puts { (view pass.old).puts ≡ true }
    requires next { P.next (view pass.old).put item }
    ensures queue { IsPassOf queue.now pass.new }
    ensures same { ((view pass.new).puts ≡ (view pass.old).puts) × ((view pass.new).takes ≡ (view pass.old).takes) }
    ensures put { MatchResult result (λ _. view pass.new ≡ post (view pass.old).puts (view pass.old).takes ((view pass.old).put ++ item ∷ []) (view pass.old).taken) (λ x. (x ≡ item) × (view pass.new ≡ view pass.old)) }
    ensures full { IfErr result (λ _. Untaken (view pass.old).put (view pass.old).taken (ruled_capacity queue.now)) }
{
    queue.push_as::<Puts, R>(rt, pass, item)
}

/// Takes an item by this pass.
fn pop<T: Drop, P: Order<T>, R: Wait>(
    rt: &R,
    queue: &Queue<T, P>,
    pass: &mut Pass<T, Post<T>>,
) -> Option<T>
    requires queue { IsPassOf queue.now pass.old }
    requires takes { (view pass.old).takes ≡ true }
    ensures queue { IsPassOf queue.now pass.new }
    ensures same { ((view pass.new).puts ≡ (view pass.old).puts) × ((view pass.new).takes ≡ (view pass.old).takes) }
    ensures taken { MatchOption result (view pass.new ≡ view pass.old) (λ x. (view pass.new ≡ post (view pass.old).puts (view pass.old).takes (view pass.old).put ((view pass.old).taken ++ x ∷ [])) × P.next (view pass.old).taken x) }
    ensures coming { IfSome result (λ x. (items : List T) × Coming (view pass.old).taken (view pass.old).put (x ∷ items)) }
    ensures none { MatchOption result (StartsWith (view pass.old).taken (view pass.old).put) (λ _. Unit {0}) }
{
    queue.pop_as::<Takes<P>, R>(rt, pass)
}

/// What the other pass has taken is a beginning of what this one has put.
fn compare<T: Drop, P: Order<T>>(
    queue: &Queue<T, P>,
    pass: &mut Pass<T, Post<T>>,
    theirs: &mut Pass<T, Post<T>>,
)
    requires queue { IsPassOf queue.now pass.old }
    requires theirs { IsPassOf queue.now theirs.old }
    requires puts { ((view pass.old).puts ≡ true) × ((view pass.old).takes ≡ false) }
    ensures queue { IsPassOf queue.now pass.new × IsPassOf queue.now theirs.new }
    ensures view { view pass.new ≡ post (view pass.old).puts (view pass.old).takes (view pass.old).put (view theirs.old).taken }
    ensures theirs { view theirs.new ≡ view theirs.old }
    ensures order { StartsWith (view pass.old).put (view theirs.old).taken }
{
    let note = queue.another::<TakenNote>(theirs);
    queue.absorb::<TakenNote>(pass, note);
    queue.learn_as::<Compares>(pass);
}

/// What the other pass has put is known to be put.
fn hear<T: Drop, P: Order<T>>(
    queue: &Queue<T, P>,
    pass: &mut Pass<T, Post<T>>,
    theirs: &mut Pass<T, Post<T>>,
)
    requires queue { IsPassOf queue.now pass.old }
    requires theirs { IsPassOf queue.now theirs.old }
    requires takes { ((view pass.old).puts ≡ false) × ((view pass.old).takes ≡ true) }
    ensures queue { IsPassOf queue.now pass.new × IsPassOf queue.now theirs.new }
    ensures view { view pass.new ≡ post (view pass.old).puts (view pass.old).takes (view theirs.old).put (view pass.old).taken }
    ensures theirs { view theirs.new ≡ view theirs.old }
{
    let note = queue.another::<PutNote>(theirs);
    queue.absorb::<PutNote>(pass, note);
}

/// How many items are in the queue.
fn count<T: Drop, P: Order<T>, R: Wait>(
    rt: &R,
    queue: &Queue<T, P>,
    pass: &mut Pass<T, Post<T>>,
) -> usize
    requires queue { IsPassOf queue.now pass.old }
    requires puts { (view pass.old).puts ≡ true }
    ensures queue { IsPassOf queue.now pass.new }
    ensures same { view pass.new ≡ view pass.old }
    ensures untaken { (result ≤ ruled_capacity queue.now) × Untaken (view pass.old).put (view pass.old).taken result }
{
    queue.len_as::<Puts, R>(rt, pass)
}
