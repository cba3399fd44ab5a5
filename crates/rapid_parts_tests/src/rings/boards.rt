// Probe windows as words that threads share: verdicts, words and sizes, by one thread.

ghost use Rattle.std.specs.Prelude.{◌≡◌, IfOk, IfSome};

use rapid_monitor::{BoardError, EdgeBoard, EdgeSeat, Verdict, next_word};
use std::alloc::Global;
use std::test::*;

/// A result, how often it comes, and the verdict each time.
type Run = (bool, u8, Verdict);

const UP: Verdict = Verdict::Up;

const DOWN: Verdict = Verdict::Down;

const WINDOWS: [&[Run]; 4] = [
    &[(false, 3, UP), (true, 7, UP), (false, 1, UP)],
    &[(false, 3, UP), (true, 6, UP), (false, 1, DOWN)],
    &[(false, 3, UP), (false, 1, DOWN), (true, 20, DOWN)],
    &[(true, 10, UP), (false, 3, UP)],
];

/// Whether a watcher of an edge answers this verdict.
fn shows(board: &mut EdgeBoard, edge: usize, verdict: Verdict) -> bool {
    edge < board.edges() && board.is_down(edge) == (verdict == DOWN)
}

/// Whether the seat of an edge and its watcher answer the verdict each time.
fn runs(seat: &mut EdgeSeat, board: &mut EdgeBoard, (ok, count, verdict): &Run) -> bool {
    for _ in 0..*count {
        if seat.probe(*ok) != *verdict || seat.verdict() != *verdict || !shows(board, 0, *verdict) {
            return false;
        }
    }
    true
}

/// The last watcher and the last seat of a new board.
fn last_of(
    alloc: Global,
    edges: usize,
    watchers: usize,
) -> Result<Option<(EdgeBoard, EdgeSeat)>, BoardError>
    ensures { IfOk result (λ found. IfSome found (λ p. p.0.board ≡ p.1.board)) }
{
    let (mut boards, mut seats) = EdgeBoard::new(alloc, edges, watchers)?;
    let Some(board) = boards.pop() else {
        return Ok(None);
    };
    let Some(seat) = seats.pop() else {
        return Ok(None);
    };
    Ok(Some((board, seat)))
}

/// Whether a new edge has its verdicts in these runs.
fn all_run(alloc: Global, rows: &[Run]) -> Result<bool, BoardError> {
    let Some((mut board, mut seat)) = last_of(alloc, 1, 1)? else {
        return Ok(false);
    };
    for row in rows {
        if !runs(&mut seat, &mut board, row) {
            return Ok(false);
        }
    }
    Ok(true)
}

#[test]
fn four_failures_of_ten_bring_a_shared_edge_down(rt: HostRuntime) {
    for rows in &WINDOWS {
        assert!(rt;
            matches!(all_run(rt.alloc(), rows), Ok(true)),
            "in the runs {rows:?}"
        );
    }
}

/// Results, each with how often it comes, and the word of an edge that had them.
type Word = (&'static [(bool, u8)], u64);

const WORDS: [Word; 4] = [
    (&[], 0),
    (&[(false, 3), (true, 7)], 0x2b80),
    (&[(false, 3), (true, 7), (false, 1)], 0x2b01),
    (&[(false, 4)], 0x500f),
];

/// The word of an edge that had these results.
fn word_after(results: &[(bool, u8)]) -> u64 {
    let mut word = 0;
    for (ok, count) in results {
        for _ in 0..*count {
            word = next_word(word, *ok);
        }
    }
    word
}

#[test]
fn words_of_edges(rt: HostRuntime) {
    for (results, word) in &WORDS {
        assert_eq!(rt; word_after(results), *word, "at {results:?}");
    }
}

/// Edges and watchers, and whether there is such a board.
const SIZES: [(usize, usize, bool); 7] = [
    (0, 1, false),
    (1, 0, false),
    (1, 1, true),
    (1, 65, false),
    (1_025, 1, false),
    (1_024, 64, true),
    (1_025, 65, false),
];

/// Whether a board of this size is made, with as many watchers and seats, or is refused.
fn is_size(alloc: Global, (edges, watchers, is_made): &(usize, usize, bool)) -> bool {
    match EdgeBoard::new(alloc, *edges, *watchers) {
        Ok((boards, seats)) => *is_made && boards.len() == *watchers && seats.len() == *edges,
        Err(error) => !*is_made && error == BoardError::BadSize && error.code() == 1,
    }
}

#[test]
fn sizes_of_boards(rt: HostRuntime) {
    for size in &SIZES {
        assert!(rt; is_size(rt.alloc(), size), "of the size {size:?}");
    }
}

/// Whether a watcher that was tied to the seat of an edge, which is down, answers so.
fn is_told(board: &mut EdgeBoard, seat: &mut EdgeSeat) -> bool
    requires { board.old.board ≡ seat.old.board }
{
    seat.probe(false);
    seat.probe(false);
    seat.probe(false);
    seat.probe(false);
    board.told_by(seat);
    shows(board, 0, UP) && shows(board, 1, DOWN)
}

#[test]
fn a_watcher_is_told_by_a_seat(rt: HostRuntime) {
    let told = match last_of(rt.alloc(), 2, 3) {
        Ok(Some((mut board, mut seat))) => is_told(&mut board, &mut seat),
        _ => false,
    };
    assert!(rt; told);
}
