// The probes of a member in a configuration.

ghost use Rattle.std.specs.Prelude.{◌≡◌, ◌<◌, ℕ, Bool, true, false, List, [], ◌∷◌, length, map, IfOk, OnOk, OnErr};
ghost use Rattle.rapid_model.specs.Process.{Process as ModelProcess};
ghost use Rattle.rapid_model.specs.Ring.{subjects_of};
ghost use Rattle.rapid_monitor.specs.Probes.{watched_when, book_when, round_when, part_of, heard, unheard, asked};

use rapid_endpoint::Process;
use rapid_rings::Rings;
use std::alloc::{AllocError, Global};
use std::marker::Model;

/// An observed edge, and whether its subject has acknowledged since the last round.
#[derive(Clone, Copy, Debug)]
pub struct Watched {
    ring: u8,
    subject: Process,
    answered: bool,
}

/// What a round says of an observed edge: a probe is to go out to the subject.
#[derive(Clone, Copy, Debug)]
pub struct Probing {
    /// The ring, from 0.
    pub ring: u8,
    /// The member that is observed on the ring.
    pub subject: Process,
    /// Whether the member has acknowledged since the last round; none in the first.
    pub answered: Option<bool>,
}

/// The probes of a member in one configuration: whom it observes on each ring, and who of them has
/// acknowledged since the last round. A new one is made at each view.
#[derive(Debug, Drop)]
pub struct ProbeBook {
    /// By ring.
    edges: Vec<Watched>,
    /// Whether a round was made.
    begun: bool,
}

impl Model for ProbeBook {
    ghost use Rattle.rapid_monitor.specs.Probes.{BookValue};

    ghost Value = { BookValue };

    ghost view = { λ b. record { edges = b.edges.items; begun = b.begun } };
}

impl Watched {
    /// The edge after a process has acknowledged.
    fn heard(self, process: &Process) -> Watched
        ensures { result ≡ heard process.now self }
    {
        Watched {
            answered: self.subject == *process || self.answered,
            ..self
        }
    }

    /// The edge at the beginning of a round.
    fn unheard(self) -> Watched
        ensures { result ≡ unheard self }
    {
        let answered = false;
        Watched { answered, ..self }
    }

    /// What a round says of the edge; whether it is the first matters.
    fn asked(self, begun: bool) -> Probing
        ensures { result ≡ asked begun self }
    {
        Probing {
            ring: self.ring,
            subject: self.subject,
            answered: if begun { Some(self.answered) } else { None },
        }
    }
}

/// The edges of these pairs of a ring and a subject, of which nothing was heard.
fn watch(alloc: Global, subjects: &[(u8, Process)]) -> Result<Vec<Watched>, AllocError>
    ensures { IfOk result (λ edges. edges.items ≡ map (watched_when []) subjects.now) }
{
    subjects
        .iter()
        .map(|subject| Watched {
            ring: subject.0,
            subject: subject.1,
            answered: false,
        })
        .collect(alloc)
}

/// Those of these pairs whose ring, divided by the number of parts, leaves this one.
fn subjects_in(
    alloc: Global,
    subjects: &[(u8, Process)],
    part: u8,
    parts: u8,
) -> Result<Vec<(u8, Process)>, AllocError>
    requires { 0 < parts }
    ensures { IfOk result (λ own. own.items ≡ part_of part parts subjects.now) }
{
    let mut own = Vec::new(alloc);
    for subject in subjects {
        if subject.0 % parts == part {
            own.push(*subject)?;
        }
    }
    Ok(own)
}

/// What a round says of these edges.
fn ask(alloc: Global, edges: &[Watched], begun: bool) -> Result<Vec<Probing>, AllocError>
    ensures { IfOk result (λ asked_edges. asked_edges.items ≡ map (asked begun) edges.now) }
{
    edges.iter().map(|edge| edge.asked(begun)).collect(alloc)
}

/// A process has acknowledged.
fn hear(edges: &mut [Watched], process: &Process)
    ensures { edges.new ≡ map (heard process.now) edges.old }
{
    for i in 0..edges.len() {
        let edge = edges[i];
        edges[i] = edge.heard(process);
    }
}

/// A round begins.
fn forget(edges: &mut [Watched])
    ensures { edges.new ≡ map unheard edges.old }
{
    for i in 0..edges.len() {
        let edge = edges[i];
        edges[i] = edge.unheard();
    }
}

impl ProbeBook {
    /// The book of a process in the configuration of these rings: nobody has acknowledged, and no
    /// round was made. A process that is no member observes nobody.
    pub fn new(alloc: Global, rings: &Rings, process: &Process) -> Result<ProbeBook, AllocError>
        ensures { IfOk result (λ book. book ≡ book_when (subjects_of rings.now process.now) false []) }
    {
        let subjects = rings.subjects_of(alloc, process)?;
        ProbeBook::of(alloc, subjects.as_slice())
    }

    /// A part of the book of a process in the configuration of these rings. It has the rings whose
    /// number, divided by the number of parts, leaves this one.
    pub fn part(
        alloc: Global,
        rings: &Rings,
        process: &Process,
        part: u8,
        parts: u8,
    ) -> Result<ProbeBook, AllocError>
        requires { 0 < parts }
        ensures { IfOk result (λ book. book ≡ book_when (part_of part parts (subjects_of rings.now process.now)) false []) }
    {
        let subjects = rings.subjects_of(alloc, process)?;
        let own = subjects_in(alloc, subjects.as_slice(), part, parts)?;
        ProbeBook::of(alloc, own.as_slice())
    }

    /// The book of these pairs of a ring and a subject.
    fn of(alloc: Global, subjects: &[(u8, Process)]) -> Result<ProbeBook, AllocError>
        ensures { IfOk result (λ book. book ≡ book_when subjects.now false []) }
    {
        Ok(ProbeBook {
            edges: watch(alloc, subjects)?,
            begun: false,
        })
    }

    /// How many edges the book has.
    pub fn len(&self) -> usize
        ensures { result ≡ length self.now.edges }
    {
        self.edges.len()
    }

    /// Marks every edge to this process, which has acknowledged. It takes no memory.
    pub fn ack(&mut self, process: &Process)
        ensures acks { (subjects : List (ℕ × ModelProcess)) (begun : Bool) (acks : List ModelProcess) → self.old ≡ book_when subjects begun acks →
            self.new ≡ book_when subjects begun (process.now ∷ acks) }
        ensures count { length self.new.edges ≡ length self.old.edges }
    {
        hear(self.edges.as_mut_slice(), process);
    }

    /// Begins a round. The answer is each observed edge, by ring, with whether its subject has
    /// acknowledged since the last round; none in the first round. From now on no subject has
    /// acknowledged. If out of memory the book is as it was.
    pub fn round(&mut self, alloc: Global) -> Result<Vec<Probing>, AllocError>
        ensures edges { IfOk result (λ edges. edges.items ≡ map (asked self.old.begun) self.old.edges) }
        ensures answers { (subjects : List (ℕ × ModelProcess)) (begun : Bool) (acks : List ModelProcess) → self.old ≡ book_when subjects begun acks →
            IfOk result (λ edges. edges.items ≡ round_when subjects begun acks) }
        ensures cleared { (subjects : List (ℕ × ModelProcess)) (begun : Bool) (acks : List ModelProcess) → self.old ≡ book_when subjects begun acks →
            OnOk result (self.new ≡ book_when subjects true []) }
        ensures count { length self.new.edges ≡ length self.old.edges }
        ensures unchanged { OnErr result (self.new ≡ self.old) }
    {
        let answers = ask(alloc, self.edges.as_slice(), self.begun)?;
        forget(self.edges.as_mut_slice());
        self.begun = true;
        Ok(answers)
    }
}
