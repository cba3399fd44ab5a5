// The word of an edge: its probe window as one number.

ghost use Rattle.std.specs.Prelude.{◌≡◌, ◌++◌, [], ◌∷◌, ◌||◌, List, Bool, nat_le, count_ones, if◌then◌else◌};
ghost use Rattle.rapid_model.specs.Limits.{down_failures};
ghost use Rattle.rapid_monitor.specs.ProbeWord.{word_after, is_down_word};

use crate::edge::{FAILURES, WINDOW};

/// The bits of a window: one a result.
const WINDOW_BITS: u64 = 0x400;

/// The bits that count the results of a window.
const COUNT_BITS: u64 = 0x10;

/// The bit of an edge that is down.
const DOWN_BIT: u64 = 0x4000;

/// Whether the word is that of an edge that is down.
pub(crate) fn is_down(word: u64) -> bool
    ensures { result ≡ is_down_word word }
{
    word >= DOWN_BIT
}

/// Whether an edge is down that had this word, and has this window now.
fn goes_down(word: u64, window: u64) -> bool
    ensures { result ≡ (is_down_word word || nat_le down_failures (count_ones window)) }
{
    // down is final: it stays when the failures have left the window
    is_down(word) || window.count_ones() >= u32::from(FAILURES)
}

/// The bit that says whether an edge is down.
fn down_bit(down: bool) -> u64
    ensures { result ≡ (if down then 16384 else 0) }
{
    if down { DOWN_BIT } else { 0 }
}

/// The word of an edge after one more result, by the word before. Bits 0 to 9 are its last ten
/// results, the newest in bit 0 and a failure 1. Bits 10 to 13 are how many of these there are, and
/// bit 14 is whether the edge is down. The word of an edge that was not probed is 0.
pub fn next_word(word: u64, ok: bool) -> u64
    ensures { (oks : List Bool) → word ≡ word_after oks → result ≡ word_after (oks ++ ok ∷ []) }
{
    // a shift to the left: the remainder drops the oldest of eleven results
    let window = (2 * (word % WINDOW_BITS) + u64::from(!ok)) % WINDOW_BITS;
    let count = (word / WINDOW_BITS % COUNT_BITS + 1).min(WINDOW as u64);
    window + WINDOW_BITS * count + down_bit(goes_down(word, window))
}
