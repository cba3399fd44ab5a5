// Lists that are to be the tags of a process.

ghost use Rattle.std.specs.Prelude.{◌≡◌, ◌+◌, ◌≤◌, ◌++◌, true, length, map, nat_lt, nat_le};
ghost use Rattle.std.specs.List.{list_all};
ghost use Rattle.rapid_model.specs.Tags as model;

use crate::Tags;
use crate::spelling::Spelling;

/// Whether a tag may have this byte: one that prints and is no space, no comma and no square
/// bracket.
pub(crate) fn is_tag_byte(byte: u8) -> bool
    ensures { result ≡ model.is_tag_byte byte }
{
    matches!(byte, 0x21..=0x7e) && !matches!(byte, b',' | b'[' | b']')
}

/// Whether a tag may have all these bytes.
pub(crate) fn are_tag_bytes(bytes: &[u8]) -> bool
    ensures { result ≡ list_all model.is_tag_byte bytes.now }
{
    bytes.iter().all(|byte| is_tag_byte(*byte))
}

/// Whether a tag may have this length.
pub(crate) fn is_tag_length(length: usize) -> bool
    ensures { result ≡ model.is_tag_length length }
{
    1 <= length && length <= Tags::LONGEST
}

/// Whether a string is a tag.
fn is_tag(tag: &[u8]) -> bool
    ensures { result ≡ model.is_tag tag.now }
{
    is_tag_length(tag.len()) && are_tag_bytes(tag)
}

/// Whether all are tags.
pub(crate) fn are_tags(tags: &[&[u8]]) -> bool
    ensures { result ≡ list_all model.is_tag (map (λ tag. tag.now) tags.now) }
{
    for tag in tags {
        if !is_tag(tag) {
            return false;
        }
    }
    true
}

/// Whether a tag is below another.
pub(crate) fn is_below(tag: &[u8], other: &[u8]) -> bool
    ensures { result ≡ model.is_below tag.now other.now }
{
    tag.cmp(other).is_lt()
}

/// Whether each tag is above the one before it, and the first above the empty string.
pub(crate) fn ascend(tags: &[&[u8]]) -> bool
    ensures { result ≡ model.tags_ascend (map (λ tag. tag.now) tags.now) }
{
    let mut before: &[u8] = &[];
    for tag in tags {
        if !is_below(before, tag) {
            return false;
        }
        before = tag;
    }
    true
}

/// Puts a tag behind what was spelt before.
fn spell_tag(spelling: &mut Spelling, tag: &[u8])
    requires tag { model.is_tag tag.now ≡ true }
    requires room { length spelling.old ≤ 456 }
    ensures { spelling.new ≡ spelling.old ++ model.tag_bytes tag.now }
{
    spelling.push(&[tag.len() as u8]);
    spelling.push(tag);
}

/// The bytes of tags.
pub(crate) fn spelled(tags: &[&[u8]]) -> Spelling
    requires few { length tags.now ≤ model.most_tags }
    requires tags { list_all model.is_tag (map (λ tag. tag.now) tags.now) ≡ true }
    ensures { result ≡ model.tags_bytes (map (λ tag. tag.now) tags.now) }
{
    let mut spelling = Spelling::new();
    spelling.push(&[tags.len() as u8]);
    for tag in tags {
        spell_tag(&mut spelling, tag);
    }
    spelling
}
