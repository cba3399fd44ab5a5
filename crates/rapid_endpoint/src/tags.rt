// The tags of processes.

ghost use Rattle.std.specs.Prelude.{◌≡◌, ◌<◌, ◌==◌, ◌++◌, All, [], map, length, drop, slice_get, option_map, Some, Ok, IfOk, IfErr};
ghost use Rattle.std.specs.Ordering.{as_partial_cmp};
ghost use Rattle.std.specs.Cmp.{partial_equiv_from_equiv, partial_order_from_total};
ghost use Rattle.std.proofs.lemmas.Cmp.{nat_list_cmp_total, eq_by_cmp_equiv};
ghost use Rattle.std.proofs.Common.{refl};
ghost use Rattle.rapid_model.specs.Process.{bytes_cmp, same_bytes};
ghost use Rattle.rapid_model.specs.Tags.{AreTags, tags_in, tags_of, tags_refusal, after_tags, SpeltTagsAreRead, ReadTagsAreSpelt, TagsTell};
ghost use Rattle.rapid_endpoint.specs.ParseErrors.{Reports};
ghost use Rattle.rapid_endpoint.specs.ReadErrors.{Gives, ReadsSpelt};
ghost use Rattle.rapid_endpoint.specs.TagsLeft.{tags_left};

use crate::spelling::Spelling;
use crate::tag_list::{are_tags, ascend, spelled};
use crate::tag_reading::{first, read_tags};
use crate::{ParseError, ReadError, bytes};
use std::cmp::Ordering;
use std::fmt;
use std::marker::Model;

/// The tags of a process: up to 8 words of 1 to 64 bytes each, which strictly ascend. Their bytes
/// are the number of tags, and then the length and the bytes of each. Tags are compared by these.
#[derive(Clone, Copy)]
pub struct Tags {
    spelling: Spelling,
}

impl Model for Tags {
    ghost use Rattle.std.specs.Prelude.{ℕ, List};
    ghost use Rattle.rapid_model.specs.Tags.{AreTags, tags_of};

    ghost Value = { List ℕ };

    ghost view = { λ t. t.spelling };

    ghost invariant = { λ t. AreTags (tags_of t.spelling) t.spelling };

    ghost inverse = { λ bytes. record { spelling = bytes } };
}

impl Tags {
    /// The most tags.
    pub const MOST: usize = 8;

    /// The most bytes of a tag.
    pub const LONGEST: usize = 64;

    /// No tags.
    pub fn none() -> Tags
        ensures { AreTags [] result }
    {
        let mut spelling = Spelling::new();
        spelling.push(&[0]);
        Tags { spelling }
    }

    /// These tags. The first that holds: `TooManyTags` if there are more than 8, `BadTag` if one has
    /// no byte or more than 64, or a byte that does not print, a space, a comma or a square bracket,
    /// `TagsNotSorted` if they do not strictly ascend.
    pub fn new(tags: &[&[u8]]) -> Result<Tags, ParseError>
        ensures made { IfOk result (AreTags (map (λ tag. tag.now) tags.now)) }
        ensures refused { IfErr result (Reports (tags_refusal (map (λ tag. tag.now) tags.now))) }
    {
        if tags.len() > Tags::MOST {
            return Err(ParseError::TooManyTags);
        }
        if !are_tags(tags) {
            return Err(ParseError::BadTag);
        }
        if !ascend(tags) {
            return Err(ParseError::TagsNotSorted);
        }
        Ok(Tags {
            spelling: spelled(tags),
        })
    }

    /// The tags in front of the bytes, and how many bytes they take. The error is the first that is
    /// met from the left: `Truncated` if the bytes end before the tags do, `BadTags` at a number of
    /// tags above 8, a length of 0 or above 64, a byte that no tag may have, or the end of a tag that
    /// is not above the one before it.
    pub fn read(bytes: &[u8]) -> Result<(Tags, usize), ReadError>
        ensures read { Gives (λ r. drop r.1 bytes.now) result (after_tags bytes.now) }
        ensures spelt { ReadsSpelt bytes.now result }
        ensures tags { IfOk result (λ r. AreTags (tags_of r.0) r.0) }
        ensures taken { IfOk result (λ r. bytes.now ≡ r.0 ++ drop r.1 bytes.now) }
        ensures length { IfOk result (λ r. length r.0 ≡ r.1) }
    {
        let rest = read_tags(bytes)?;
        let length = bytes.len() - rest.len();
        Ok((Tags::spelt(&bytes[..length]), length))
    }

    /// The tags of these bytes.
    #[inline(always)]
    pub(crate) fn spelt(bytes: &[u8]) -> Tags
        requires { AreTags (tags_of bytes.now) bytes.now }
        ensures { result ≡ bytes.now }
    {
        Tags {
            spelling: Spelling::of(bytes),
        }
    }

    /// Puts the tags of these bytes in place of those that are there.
    pub(crate) fn replace(&mut self, bytes: &[u8])
        requires { AreTags (tags_of bytes.now) bytes.now }
        ensures { self.new ≡ bytes.now }
    {
        self.spelling.replace(bytes);
    }

    /// The bytes: the number of tags, and then the length and the bytes of each.
    pub fn as_bytes(&self) -> &[u8]
        ensures { result.now ≡ self.now }
    {
        self.spelling.as_bytes()
    }

    /// The value has tags. It does nothing: what it ensures is for proofs.
    #[inline(always)]
    pub fn tell(&self)
        ensures { AreTags (tags_of self.now) self.now }
    {
        let _ = &self.spelling;
    }

    /// Each byte is below 256. It does nothing: what it ensures is for proofs.
    #[inline(always)]
    pub(crate) fn tell_bytes(&self)
        ensures { All (λ b. b < 256) self.now }
    {
        bytes::tell(self.as_bytes());
    }

    /// How many tags there are.
    pub fn len(&self) -> usize
        ensures { result ≡ length (tags_of self.now) }
    {
        self.tell();
        usize::from(self.as_bytes()[0])
    }

    /// Whether there are none.
    pub fn is_empty(&self) -> bool
        ensures { result ≡ (length (tags_of self.now) == 0) }
    {
        self.len() == 0
    }

    /// The tag at this place, from 0. None if there are not so many.
    pub fn get(&self, place: usize) -> Option<&[u8]>
        ensures { option_map (λ tag. tag.now) result ≡ slice_get (tags_of self.now) place }
    {
        let mut tags = self.iter();
        for _ in 0..place {
            tags.next()?;
        }
        tags.next()
    }

    /// The tags, ascending.
    pub fn iter(&self) -> TagsIter<'_>
        ensures { tags_left result ≡ tags_of self.now }
    {
        match self.as_bytes() {
            [count, bytes @ ..] => TagsIter {
                left: *count,
                bytes,
            },
            [] => TagsIter {
                left: 0,
                bytes: &[],
            },
        }
    }
}

/// The tags of a process that are left, ascending.
#[derive(Clone, Copy, Debug)]
pub struct TagsIter<'a> {
    left: u8,
    bytes: &'a [u8],
}

impl<'a> Iterator for TagsIter<'a> {
    ghost use Rattle.std.specs.Iterator.{YieldsFirstRef, item_count};
    ghost use Rattle.rapid_endpoint.specs.TagsLeft.{tags_left};

    type Item = &'a [u8];

    ghost next_gives = { YieldsFirstRef tags_left };

    ghost remaining = { item_count tags_left };

    fn next(&mut self) -> Option<&'a [u8]> {
        if self.left == 0 {
            return None;
        }
        let (&length, rest) = self.bytes.split_first()?;
        let tag = first(rest, usize::from(length));
        self.left -= 1;
        self.bytes = &rest[tag.len()..];
        Some(tag)
    }

    fn size_hint(&self) -> (usize, Option<usize>) {
        (0, Some(usize::from(self.left)))
    }
}

impl PartialEq for Tags {
    ghost eq = { same_bytes };

    ghost laws = { partial_equiv_from_equiv (eq_by_cmp_equiv nat_list_cmp_total) };

    #[inline(always)]
    fn eq(&self, other: &Tags) -> bool {
        match (self.as_bytes(), other.as_bytes()) {
            // no tags on either side, as is most common: this calls nothing to compare bytes
            ([mine], [others]) => mine == others,
            (mine, others) => mine == others,
        }
    }
}

impl Eq for Tags {
    ghost laws = { eq_by_cmp_equiv nat_list_cmp_total };
}

impl PartialOrd for Tags {
    ghost partial_cmp = { as_partial_cmp bytes_cmp };

    ghost laws = { partial_order_from_total nat_list_cmp_total };

    fn partial_cmp(&self, other: &Tags) -> Option<Ordering> {
        Some(self.cmp(other))
    }
}

impl Ord for Tags {
    ghost cmp = { bytes_cmp };

    ghost total = { nat_list_cmp_total };

    ghost matches_partial_cmp = { λ x y. refl };

    ghost matches_eq = { λ x y. refl };

    fn cmp(&self, other: &Tags) -> Ordering {
        self.as_bytes().cmp(other.as_bytes())
    }
}

impl fmt::Debug for Tags {
    fn fmt<W: fmt::Write>(&self, f: &mut fmt::Formatter<W>) -> fmt::Result {
        write!(f, "{:?}", self.as_bytes())
    }
}

/// What is spelt of tags is read, what is read was spelt, and no tags begin others. It does nothing:
/// what it ensures is for proofs.
pub fn tags_have_one_spelling()
    ensures spelt { SpeltTagsAreRead }
    ensures read { ReadTagsAreSpelt }
    ensures tell { TagsTell }
{}
