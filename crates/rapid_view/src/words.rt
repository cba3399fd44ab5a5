// Stamps as six words.

ghost use Rattle.std.specs.Prelude.{◌≡◌, ◌+◌, ◌≤◌, [], ◌∷◌, length, slice_range, slice_index};
ghost use Rattle.std.specs.Int.{w64, from_be_bytes, to_be_bytes};
ghost use Rattle.rapid_model.specs.PublishedList.{stamp_words};
ghost use Rattle.rapid_view.specs.Words.{stamp_of, IsWhole, id_of};

use rapid_config::{ConfigId, Stamp};

/// The number that stands in eight of the bytes.
fn number(id: &[u8; 32], at: usize) -> u64
    requires { at + 8 ≤ 32 }
    ensures { result ≡ from_be_bytes w64 (slice_range id.now at (at + 8)) }
{
    let mut bytes = [0u8; 8];
    bytes.copy_from_slice(&id[at..at + 8]);
    u64::from_be_bytes(bytes)
}

/// The number that stands in eight of the bytes; it gives them back.
fn whole_number(id: &[u8; 32], at: usize) -> u64
    requires { at + 8 ≤ 32 }
    ensures number { result ≡ from_be_bytes w64 (slice_range id.now at (at + 8)) }
    ensures length { length id.now ≡ 32 }
    ensures bytes { to_be_bytes w64 (from_be_bytes w64 (slice_range id.now at (at + 8))) ≡ slice_range id.now at (at + 8) }
{
    let bytes = &id[at..at + 8];
    let _ = bytes[0];
    number(id, at)
}

/// The words of a stamp, which give it back.
pub(crate) fn words(stamp: &Stamp) -> [u64; 6]
    ensures words { result ≡ stamp_words stamp.now }
    ensures whole { IsWhole stamp.now }
{
    let id = stamp.id().bytes();
    [
        stamp.height(),
        whole_number(&id, 0),
        whole_number(&id, 8),
        whole_number(&id, 16),
        whole_number(&id, 24),
        stamp.members() as u64,
    ]
}

/// The stamp with these words.
pub(crate) fn from_words(words: [u64; 6]) -> Stamp
    ensures { result ≡ stamp_of words }
{
    let mut id = [0u8; 32];
    id[0..8].copy_from_slice(&words[1].to_be_bytes());
    id[8..16].copy_from_slice(&words[2].to_be_bytes());
    id[16..24].copy_from_slice(&words[3].to_be_bytes());
    id[24..32].copy_from_slice(&words[4].to_be_bytes());
    Stamp::new(words[0], ConfigId::new(id), words[5] as usize)
}
