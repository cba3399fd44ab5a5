// The members that a node observes in its current view.

ghost use Rattle.std.specs.Prelude.{◌≡◌, ◌≢◌, ◌⊎◌, ◌<◌, ◌%◌, ◌==◌, ◌++◌, ℕ, List, map, vec_len, Some, None, true, false, if◌then◌else◌, option_to_list, IfSome, IfNone, IfOk, OnOk, OnErr};
ghost use Rattle.rapid_model.specs.Ring.{subjects_of};
ghost use Rattle.rapid_monitor.specs.Boards.{Owned};
ghost use Rattle.rapid_rounds.specs.Edges.{IsBoard, SameBoard, Answered, AllAnswered, down_of, all_blank, blank_part, told_of, seats_of, dealt_seats, all_dealt, place_of};

use crate::edge_state::EdgeState;
use crate::part::Part;
use rapid_config::Configuration;
use rapid_endpoint::Process;
use rapid_monitor::{BoardError, EdgeBoard, EdgeSeat, ProbeBook};
use rapid_rings::{ObserverTable, Rings};
use std::alloc::{AllocError, Global};

/// The members that a node observes in one view, and the board of these edges. The seats of the
/// edges are here until they are given to parts.
#[derive(Drop)]
pub struct ObservedEdges {
    alloc: Global,
    rings: Rings,
    me: Process,
    /// The edges by ring: the ring and who is observed on it. The number of an edge is its place.
    edges: Vec<(u8, Process)>,
    /// None if no member is observed.
    board: Option<EdgeBoard>,
    /// By edge: the seats that were not given to a part.
    seats: Vec<Option<EdgeSeat>>,
    /// Whether the parts were taken.
    parted: bool,
    ghost observed: { edges.items ≡ subjects_of rings me },
}

/// The seats, each to be taken by itself.
fn loose(alloc: Global, seats: Vec<EdgeSeat>) -> Result<Vec<Option<EdgeSeat>>, AllocError>
    ensures { IfOk result (λ loose. loose.items ≡ map Some seats.items) }
{
    seats.into_iter().map(|seat| Some(seat)).collect(alloc)
}

/// A board of this many edges, and a seat for each; no board if there are no edges.
fn board_of(alloc: Global, edges: usize) -> Result<(Option<EdgeBoard>, Vec<EdgeSeat>), AllocError>
    ensures { IfOk result (λ made. IsBoard edges made.0 made.1.items) }
{
    match EdgeBoard::new(alloc, edges, 1) {
        Ok((mut boards, seats)) => Ok((boards.pop(), seats)),
        // There are at most 16 edges, so only a board without edges is refused.
        Err(BoardError::BadSize) => Ok((None, Vec::new(alloc))),
        Err(BoardError::OutOfMemory) => Err(AllocError),
    }
}

impl ObservedEdges {
    /// Of a process in a configuration. It computes the rings of the configuration.
    pub fn new(
        alloc: Global,
        configuration: &Configuration,
        me: &Process,
    ) -> Result<ObservedEdges, AllocError>
        ensures edges { IfOk result (λ w. w.edges.items ≡ subjects_of configuration.now me.now) }
        ensures made { IfOk result (λ w. (w.rings ≡ configuration.now) × (w.me ≡ me.now) × (w.parted ≡ false)) }
        ensures seats { IfOk result (λ w. (seats : List Owned) × IsBoard (vec_len w.edges) w.board seats × (w.seats.items ≡ map Some seats)) }
    {
        let rings = Rings::new(alloc, configuration)?;
        ObservedEdges::over(alloc, rings, me)
    }

    /// Of the process in a configuration that follows. The rings are made of the current ones, so
    /// keys are hashed for newcomers only.
    pub fn next(&self, configuration: &Configuration) -> Result<ObservedEdges, AllocError>
        ensures edges { IfOk result (λ w. w.edges.items ≡ subjects_of configuration.now self.now.me) }
        ensures made { IfOk result (λ w. (w.rings ≡ configuration.now) × (w.me ≡ self.now.me) × (w.parted ≡ false)) }
        ensures seats { IfOk result (λ w. (seats : List Owned) × IsBoard (vec_len w.edges) w.board seats × (w.seats.items ≡ map Some seats)) }
    {
        let rings = self.rings.next(self.alloc, configuration)?;
        ObservedEdges::over(self.alloc, rings, &self.me)
    }

    /// Of a process in the configuration of these rings.
    fn over(alloc: Global, rings: Rings, me: &Process) -> Result<ObservedEdges, AllocError>
        ensures edges { IfOk result (λ w. w.edges.items ≡ subjects_of rings me.now) }
        ensures made { IfOk result (λ w. (w.rings ≡ rings) × (w.me ≡ me.now) × (w.parted ≡ false)) }
        ensures seats { IfOk result (λ w. (seats : List Owned) × IsBoard (vec_len w.edges) w.board seats × (w.seats.items ≡ map Some seats)) }
    {
        let edges = rings.subjects_of(alloc, me)?;
        let (board, seats) = board_of(alloc, edges.len())?;
        Ok(ObservedEdges {
            alloc,
            rings,
            me: *me,
            edges,
            board,
            seats: loose(alloc, seats)?,
            parted: false,
        })
    }

    /// The parts of the probes, as many as are asked for, each with the seats of its rings: once, at
    /// least one. A call that gives none changes nothing. If out of memory the parts are lost.
    pub fn take_parts(&mut self, parts: u8) -> Result<Option<Vec<Part>>, AllocError>
        ensures none { IfOk result (λ r. IfNone r ((self.old.parted ≡ true) ⊎ (parts ≡ 0))) }
        ensures kept { IfOk result (λ r. IfNone r (self.new.parted ≡ self.old.parted)) }
        ensures spent { OnErr result (self.new.parted ≡ true) }
        ensures once { IfOk result (λ r. IfSome r (λ all. (self.old.parted ≡ false) × (0 < parts) × (self.new.parted ≡ true))) }
        ensures parts { IfOk result (λ r. IfSome r (λ all. map told_of all.items ≡ all_blank self.old.rings self.old.edges.items parts parts)) }
        ensures seats { IfOk result (λ r. IfSome r (λ all. map seats_of all.items ≡ all_dealt self.old.edges.items self.old.seats.items parts parts)) }
        ensures left { IfOk result (λ r. IfNone r (self.new.seats.items ≡ self.old.seats.items)) }
        ensures same { (self.new.rings ≡ self.old.rings) × (self.new.me ≡ self.old.me) × (self.new.edges.items ≡ self.old.edges.items) }
        ensures board { self.new.board ≡ self.old.board }
    {
        if self.parted || parts == 0 {
            return Ok(None);
        }
        self.parted = true;
        Ok(Some(self.all_parts(parts)?))
    }

    /// All parts, by number.
    fn all_parts(&mut self, parts: u8) -> Result<Vec<Part>, AllocError>
        requires { 0 < parts }
        ensures parts { IfOk result (λ all. map told_of all.items ≡ all_blank self.old.rings self.old.edges.items parts parts) }
        ensures seats { IfOk result (λ all. map seats_of all.items ≡ all_dealt self.old.edges.items self.old.seats.items parts parts) }
        ensures same { (self.new.rings ≡ self.old.rings) × (self.new.me ≡ self.old.me) × (self.new.edges.items ≡ self.old.edges.items) × (self.new.parted ≡ self.old.parted) }
        ensures board { self.new.board ≡ self.old.board }
    {
        let mut all = Vec::with_capacity(self.alloc, usize::from(parts))?;
        for part in 0..parts {
            all.push(self.part(part, parts)?)?;
        }
        Ok(all)
    }

    /// A part of the probes: its book, and the seats of its edges in the book's order.
    fn part(&mut self, part: u8, parts: u8) -> Result<Part, AllocError>
        requires { 0 < parts }
        ensures part { IfOk result (λ p. told_of p ≡ blank_part self.old.rings self.old.edges.items parts part) }
        ensures seats { IfOk result (λ p. seats_of p ≡ dealt_seats self.old.edges.items self.old.seats.items parts part) }
        ensures others { (q : ℕ) → q ≢ part → dealt_seats self.old.edges.items self.new.seats.items parts q ≡ dealt_seats self.old.edges.items self.old.seats.items parts q }
        ensures same { (self.new.rings ≡ self.old.rings) × (self.new.me ≡ self.old.me) × (self.new.edges.items ≡ self.old.edges.items) × (self.new.parted ≡ self.old.parted) }
        ensures board { self.new.board ≡ self.old.board }
    {
        let book = ProbeBook::part(self.alloc, &self.rings, &self.me, part, parts)?;
        let seats = seats_in(
            self.alloc,
            self.edges.as_slice(),
            self.seats.as_mut_slice(),
            part,
            parts,
        )?;
        match Part::new(self.rings.id(), book, seats) {
            Some(part) => Ok(part),
            // A board has a seat for each edge, and both are dealt by ring: this does not happen.
            None => Err(AllocError),
        }
    }

    /// Each edge by ring, and whether it is down now: once it was, it always is.
    pub fn states(&mut self) -> Result<Vec<EdgeState>, AllocError>
        ensures edges { IfOk result (λ states. map place_of states.items ≡ self.old.edges.items) }
        ensures same { (self.new.rings ≡ self.old.rings) × (self.new.me ≡ self.old.me) × (self.new.edges.items ≡ self.old.edges.items) × (self.new.parted ≡ self.old.parted) }
        ensures seats { self.new.seats.items ≡ self.old.seats.items }
        ensures board { SameBoard self.old.board self.new.board }
        ensures down { IfOk result (λ states. AllAnswered self.old.board self.new.board (map down_of states.items)) }
    {
        states_of(self.alloc, self.edges.as_slice(), &mut self.board)
    }
}

/// Takes the seat that stands beside an edge, if the edge belongs to this part.
fn seat_in(
    edge: &(u8, Process),
    seat: &mut Option<EdgeSeat>,
    part: u8,
    parts: u8,
) -> Option<EdgeSeat>
    requires { 0 < parts }
    ensures taken { result ≡ (if edge.now.0 % parts == part then seat.old else None) }
    ensures left { seat.new ≡ (if edge.now.0 % parts == part then None else seat.old) }
{
    if edge.0 % parts == part {
        seat.take()
    } else {
        None
    }
}

/// Adds a seat, if there is one.
fn push_any(seats: &mut Vec<EdgeSeat>, seat: Option<EdgeSeat>) -> Result<(), AllocError>
    ensures { OnOk result (seats.new.items ≡ seats.old.items ++ option_to_list seat) }
{
    if let Some(seat) = seat {
        seats.push(seat)?;
    }
    Ok(())
}

/// Takes the seats of the rings whose number, divided by the number of parts, leaves this one.
fn seats_in(
    alloc: Global,
    edges: &[(u8, Process)],
    seats: &mut [Option<EdgeSeat>],
    part: u8,
    parts: u8,
) -> Result<Vec<EdgeSeat>, AllocError>
    requires { 0 < parts }
    ensures own { IfOk result (λ own. own.items ≡ dealt_seats edges.now seats.old parts part) }
    ensures others { (q : ℕ) → q ≢ part → dealt_seats edges.now seats.new parts q ≡ dealt_seats edges.now seats.old parts q }
{
    let mut own = Vec::new(alloc);
    for i in 0..edges.len().min(seats.len()) {
        push_any(&mut own, seat_in(&edges[i], &mut seats[i], part, parts))?;
    }
    Ok(own)
}

/// Each of these edges, and whether a watcher, if there is one, answers that it is down.
#[tactic(auto, using(crate::proofs::Observing::same_itself, crate::proofs::Observing::nothing_asked))]
fn states_of(
    alloc: Global,
    edges: &[(u8, Process)],
    board: &mut Option<EdgeBoard>,
) -> Result<Vec<EdgeState>, AllocError>
    ensures edges { IfOk result (λ states. map place_of states.items ≡ edges.now) }
    ensures board { SameBoard board.old board.new }
    ensures down { IfOk result (λ states. AllAnswered board.old board.new (map down_of states.items)) }
{
    let mut states = Vec::with_capacity(alloc, edges.len())?;
    for i in 0..edges.len() {
        states.push(state_of(&edges[i], is_down(board, i)))?;
    }
    Ok(states)
}

/// An edge that is up or down.
fn state_of(edge: &(u8, Process), is_down: bool) -> EdgeState
    ensures edge { place_of result ≡ edge.now }
    ensures down { result.is_down ≡ is_down }
{
    EdgeState {
        ring: edge.0,
        member: edge.1,
        is_down,
    }
}

/// Whether a watcher, if there is one, answers that an edge is down.
#[tactic(auto, using(crate::proofs::Observing::same_itself, crate::proofs::Observing::unwatched, crate::proofs::Observing::not_on_board, crate::proofs::Observing::known_by))]
fn is_down(board: &mut Option<EdgeBoard>, edge: usize) -> bool
    ensures board { SameBoard board.old board.new }
    ensures answer { Answered board.old board.new edge result }
{
    match board {
        Some(board) if edge < board.edges() => board.is_down(edge),
        _ => false,
    }
}
