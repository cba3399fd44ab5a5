// How tags are read off bytes.

ghost use Rattle.std.specs.Prelude.{◌≡◌, [], take};
ghost use Rattle.rapid_model.specs.Tags as model;
ghost use Rattle.rapid_endpoint.specs.ReadErrors.{Gives};

use crate::tag_list::{are_tag_bytes, is_below, is_tag_length};
use crate::{ReadError, Tags};

/// The first bytes, or all if there are fewer.
pub(crate) fn first(bytes: &[u8], count: usize) -> &[u8]
    ensures { result.now ≡ take count bytes.now }
{
    &bytes[..count.min(bytes.len())]
}

/// The tag in front of the bytes, which is to be above the one before it, and what follows.
fn read_tag<'a>(before: &[u8], bytes: &'a [u8]) -> Result<(&'a [u8], &'a [u8]), ReadError>
    ensures { Gives (λ x. (x.0.now, x.1.now)) result (model.tag_at before.now bytes.now) }
{
    let Some((&length, rest)) = bytes.split_first() else {
        return Err(ReadError::Truncated);
    };
    let length = usize::from(length);
    if !is_tag_length(length) || !are_tag_bytes(first(rest, length)) {
        return Err(ReadError::BadTags);
    }
    if rest.len() < length {
        return Err(ReadError::Truncated);
    }
    let (tag, rest) = rest.split_at(length);
    if !is_below(before, tag) {
        return Err(ReadError::BadTags);
    }
    Ok((tag, rest))
}

/// What follows this many tags.
#[inline(never)]
fn read_some(count: u8, bytes: &[u8]) -> Result<&[u8], ReadError>
    ensures { Gives (λ rest. rest.now) result (model.after_some count [] bytes.now) }
{
    let mut before: &[u8] = &[];
    let mut rest = bytes;
    for _ in 0..count {
        let (tag, after) = read_tag(before, rest)?;
        before = tag;
        rest = after;
    }
    Ok(rest)
}

/// What follows the tags in front of the bytes.
#[tactic(auto, unfolding(rapid_model::specs::Tags::after_tags, rapid_model::specs::Tags::after_some))]
#[inline(always)]
pub(crate) fn read_tags(bytes: &[u8]) -> Result<&[u8], ReadError>
    ensures { Gives (λ rest. rest.now) result (model.after_tags bytes.now) }
{
    let Some((&count, rest)) = bytes.split_first() else {
        return Err(ReadError::Truncated);
    };
    // as is most common
    if count == 0 {
        return Ok(rest);
    }
    if usize::from(count) > Tags::MOST {
        return Err(ReadError::BadTags);
    }
    read_some(count, rest)
}
