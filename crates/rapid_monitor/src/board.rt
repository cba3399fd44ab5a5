// Those who look at the edges of a board.

ghost use Rattle.std.specs.Prelude.{◌≡◌, ℕ, ◌+◌, ◌<◌, ◌≤◌, [], ◌∷◌, ◌++◌, map, All, IfOk, IfErr, vec_len, if◌then◌else◌, IsTrue, true, ◌↔◌};
ghost use Rattle.std.specs.List.{range_with_len};
ghost use Rattle.std.specs.Arc.{arc_value};
ghost use Rattle.atomic_table.specs.Seated.{TableId};
ghost use Rattle.rapid_model.specs.Edge.{HasDownStretch};
ghost use Rattle.rapid_monitor.specs.BoardRule.{maker_at, watcher, owner_of, own_known, is_down_after, IsIn, IsDown};
ghost use Rattle.rapid_monitor.specs.Boards.{fresh_watcher, fresh_seat, IsSize, IsRefusal};

use crate::board_rule::{BoardKnowledge, DownNote, Looks, OwnNote, Owners, Watchers, Words};
use crate::edge_seat::{EdgeSeat, find};
use crate::probe_word::is_down;
use crate::{BoardError, Verdict};
use atomic_table::{Seat, Table};
use rapid_config::Configuration;
use std::alloc::{AllocError, Global};
use std::marker::Model;
use std::sync::Arc;

/// How many edges a board has at most.
const MOST_EDGES: usize = Configuration::MOST;

/// How many watchers look at a board at most.
const MOST_WATCHERS: usize = 64;

/// One watcher of a board: it looks at the words of the edges, and changes none. Contracts see
/// which edges it knows to be down.
#[derive(Drop)]
pub struct EdgeBoard {
    words: Arc<Words>,
    seat: Seat<(), BoardKnowledge>,
    edges: usize,
}

impl Model for EdgeBoard {
    ghost use Rattle.std.specs.Prelude.{◌≡◌, ◌<◌, []};
    ghost use Rattle.std.specs.Arc.{arc_value};
    ghost use Rattle.rapid_monitor.specs.BoardRule.{watcher};
    ghost use Rattle.rapid_monitor.specs.Boards.{Watching};

    ghost Value = { Watching };

    ghost view = { λ s. record { board = s.seat.table_id; edges = s.edges; known = s.seat.me.0.known } };

    ghost invariant = { λ s. (s.seat.table_id ≡ (arc_value s.words).shared.table_id) × (s.seat.me ≡ (watcher s.seat.me.0.known, [])) × ((arc_value s.words).shared.table_id.words ≡ (arc_value s.words).shared.key) × (s.edges ≡ (arc_value s.words).shared.key) };
}

/// The words of edges that were not probed, and the seat that makes the others.
fn empty(alloc: Global, edges: usize) -> Result<(Words, Seat<(), BoardKnowledge>), AllocError>
    ensures { IfOk result (λ r. (r.0.shared.table_id.words ≡ edges) × (r.0.shared.key ≡ edges) × (r.1.table_id ≡ r.0.shared.table_id) × (r.1.me ≡ (maker_at 0, []))) }
{
    let words = vec![in alloc; 0u64; edges]?;
    Table::of_words(alloc, words.as_slice(), &(edges as u64))
}

/// The seat of the next edge.
fn owner(
    words: &Arc<Words>,
    maker: &mut Seat<(), BoardKnowledge>,
    edge: usize,
) -> Result<EdgeSeat, AllocError>
    requires own { maker.old.table_id ≡ (arc_value words.now).shared.table_id }
    requires words { (arc_value words.now).shared.table_id.words ≡ (arc_value words.now).shared.key }
    requires maker { (maker.old.me ≡ (maker_at edge, [])) × (edge < (arc_value words.now).shared.key) }
    ensures same { (maker.new.table_id ≡ maker.old.table_id) × (maker.new.me ≡ (maker_at (edge + 1), [])) }
    ensures seat { IfOk result (λ s. s ≡ fresh_seat maker.old.table_id edge) }
{
    let seat = words.shared.split_seat::<Owners>(maker);
    Ok(EdgeSeat {
        words: Arc::try_clone(words)?,
        seat,
        edge,
        verdict: Verdict::Up,
    })
}

/// One more watcher.
fn onlooker(
    words: &Arc<Words>,
    maker: &mut Seat<(), BoardKnowledge>,
    edges: usize,
) -> Result<EdgeBoard, AllocError>
    requires own { maker.old.table_id ≡ (arc_value words.now).shared.table_id }
    requires words { ((arc_value words.now).shared.table_id.words ≡ (arc_value words.now).shared.key) × (edges ≡ (arc_value words.now).shared.key) × (0 < edges) }
    ensures same { (maker.new.table_id ≡ maker.old.table_id) × (maker.new.me ≡ maker.old.me) }
    ensures watcher { IfOk result (λ b. b ≡ fresh_watcher maker.old.table_id edges) }
{
    let seat = words.shared.split_seat::<Watchers>(maker);
    Ok(EdgeBoard {
        words: Arc::try_clone(words)?,
        seat,
        edges,
    })
}

/// The seats of all edges, by edge.
fn owners(
    alloc: Global,
    words: &Arc<Words>,
    mut maker: Seat<(), BoardKnowledge>,
    edges: usize,
) -> Result<Vec<EdgeSeat>, AllocError>
    requires own { maker.table_id ≡ (arc_value words.now).shared.table_id }
    requires words { ((arc_value words.now).shared.table_id.words ≡ (arc_value words.now).shared.key) × (edges ≡ (arc_value words.now).shared.key) }
    requires maker { maker.me ≡ (maker_at 0, []) }
    ensures seats { IfOk result (λ seats. seats.items ≡ map (fresh_seat maker.table_id) (range_with_len 0 edges)) }
    ensures board { IfOk result (λ seats. All (λ s. s.board ≡ maker.table_id) seats.items) }
{
    let mut seats = Vec::with_capacity(alloc, edges)?;
    for edge in 0..edges {
        seats.push(owner(words, &mut maker, edge)?)?;
    }
    Ok(seats)
}

/// As many watchers.
fn onlookers(
    alloc: Global,
    words: &Arc<Words>,
    maker: &mut Seat<(), BoardKnowledge>,
    edges: usize,
    watchers: usize,
) -> Result<Vec<EdgeBoard>, AllocError>
    requires own { maker.old.table_id ≡ (arc_value words.now).shared.table_id }
    requires words { ((arc_value words.now).shared.table_id.words ≡ (arc_value words.now).shared.key) × (edges ≡ (arc_value words.now).shared.key) × (0 < edges) }
    ensures same { (maker.new.table_id ≡ maker.old.table_id) × (maker.new.me ≡ maker.old.me) }
    ensures watchers { IfOk result (λ boards. (vec_len boards ≡ watchers) × All (λ b. b ≡ fresh_watcher maker.old.table_id edges) boards.items) }
{
    let mut boards = Vec::with_capacity(alloc, watchers)?;
    for _ in 0..watchers {
        boards.push(onlooker(words, &mut *maker, edges)?)?;
    }
    Ok(boards)
}

/// Whether there are boards with as many edges and watchers.
fn is_size(edges: usize, watchers: usize) -> bool
    ensures { result ≡ true ↔ IsSize edges watchers }
{
    (1..=MOST_EDGES).contains(&edges) && (1..=MOST_WATCHERS).contains(&watchers)
}

/// A board, if there is one.
fn open(
    alloc: Global,
    edges: usize,
    watchers: usize,
) -> Result<(Vec<EdgeBoard>, Vec<EdgeSeat>), AllocError>
    requires { 0 < edges }
    ensures { IfOk result (λ r. (vec_len r.0 ≡ watchers) × ((board : TableId) × All (λ b. b ≡ fresh_watcher board edges) r.0.items × All (λ s. s.board ≡ board) r.1.items × (r.1.items ≡ map (fresh_seat board) (range_with_len 0 edges)))) }
{
    let (words, mut maker) = empty(alloc, edges)?;
    let words = Arc::new(alloc, words)?;
    let boards = onlookers(alloc, &words, &mut maker, edges, watchers)?;
    let seats = owners(alloc, &words, maker, edges)?;
    Ok((boards, seats))
}

impl EdgeBoard {
    /// A board of edges that were not probed: as many watchers as are asked for, and the seat of
    /// each edge, by edge from 0.
    ///
    /// # Errors
    ///
    /// `BadSize` exactly if the edges are not 1 to 1,024 or the watchers not 1 to 64, and else
    /// `OutOfMemory`.
    pub fn new(
        alloc: Global,
        edges: usize,
        watchers: usize,
    ) -> Result<(Vec<EdgeBoard>, Vec<EdgeSeat>), BoardError>
        ensures size { IfOk result (λ r. IsSize edges watchers × (vec_len r.0 ≡ watchers)) }
        ensures board { IfOk result
            (λ r. (board : TableId) × All (λ b. b ≡ fresh_watcher board edges) r.0.items × All (λ s. s.board ≡ board) r.1.items × (r.1.items ≡ map (fresh_seat board) (range_with_len 0 edges))) }
        ensures refused { IfErr result (IsRefusal edges watchers) }
    {
        if !is_size(edges, watchers) {
            return Err(BoardError::BadSize);
        }
        Ok(open(alloc, edges, watchers)?)
    }

    /// How many edges the board has.
    pub fn edges(&self) -> usize
        ensures { result ≡ self.now.edges }
    {
        self.edges
    }

    /// Whether an edge is down, by one load of its word. Once this watcher has answered that it is,
    /// it always does. It takes no memory and never waits.
    pub fn is_down(&mut self, edge: usize) -> bool
        requires { edge < self.old.edges }
        ensures same { (self.new.board ≡ self.old.board) × (self.new.edges ≡ self.old.edges) }
        ensures known { self.new.known ≡ (if result then edge ∷ self.old.known else self.old.known) }
        ensures again { IsIn edge self.old.known → IsTrue result }
    {
        look(&self.words, &mut self.seat, edge)
    }

    /// Ties what this watcher answers to the results of a seat of the same board. If it had
    /// answered that the seat's edge is down, these hold ten successive results, or fewer, with
    /// four failures. If they do, it answers so from now on. It takes no memory, never waits and
    /// changes no word.
    pub fn told_by(&mut self, seat: &mut EdgeSeat)
        requires { self.old.board ≡ seat.old.board }
        ensures same { (self.new.board ≡ self.old.board) × (self.new.edges ≡ self.old.edges) }
        ensures seat { seat.new ≡ seat.old }
        ensures found { IsIn seat.old.edge self.old.known → HasDownStretch seat.old.results }
        ensures told { HasDownStretch seat.old.results → IsIn seat.old.edge self.new.known }
        ensures known { self.new.known ≡ (if is_down_after seat.old.results then seat.old.edge ∷ self.old.known else self.old.known) }
    {
        tie(&self.words, &mut self.seat, &mut seat.seat, seat.edge);
    }
}

/// Looks at the word of an edge.
fn look(words: &Words, seat: &mut Seat<(), BoardKnowledge>, edge: usize) -> bool
    requires own { seat.old.table_id ≡ words.now.shared.table_id }
    requires watcher { seat.old.me ≡ (watcher seat.old.me.0.known, []) }
    requires within { (words.now.shared.table_id.words ≡ words.now.shared.key) × (edge < words.now.shared.key) }
    ensures same { (seat.new.table_id ≡ seat.old.table_id) × (seat.new.id ≡ seat.old.id) }
    ensures seen { seat.new.me ≡ (watcher (if result then edge ∷ seat.old.me.0.known else seat.old.me.0.known), []) }
    ensures again { IsIn edge seat.old.me.0.known → IsTrue result }
{
    is_down(words.shared.load::<Looks>(seat, edge))
}

/// Each of a watcher and an owner hears what the other knows.
fn tie(
    words: &Words,
    seat: &mut Seat<(), BoardKnowledge>,
    theirs: &mut Seat<(), BoardKnowledge>,
    edge: usize,
)
    requires own { seat.old.table_id ≡ words.now.shared.table_id }
    requires theirs { theirs.old.table_id ≡ words.now.shared.table_id }
    requires watcher { seat.old.me ≡ (watcher seat.old.me.0.known, []) }
    requires owner { theirs.old.me ≡ (owner_of edge theirs.old.me.0.results theirs.old.me.0.known, []) }
    requires within { (words.now.shared.table_id.words ≡ words.now.shared.key) × (edge < words.now.shared.key) }
    ensures same { (seat.new.table_id ≡ seat.old.table_id) × (seat.new.id ≡ seat.old.id) × (theirs.new.table_id ≡ theirs.old.table_id) × (theirs.new.id ≡ theirs.old.id) }
    ensures owner { theirs.new.me ≡ (owner_of edge theirs.old.me.0.results (seat.old.me.0.known ++ theirs.old.me.0.known), []) }
    ensures found { IsIn edge (seat.old.me.0.known ++ theirs.old.me.0.known) → IsDown theirs.old.me.0.results }
    ensures told { seat.new.me ≡ (watcher (own_known theirs.old.me.0 ++ seat.old.me.0.known), []) }
{
    let note = words.shared.split_seat::<OwnNote>(theirs);
    let mine = words.shared.split_seat::<DownNote>(seat);
    words.shared.join_seat::<DownNote>(theirs, mine);
    words.shared.join_seat::<DownNote>(seat, note);
    find(words, theirs, edge);
}
