// Tags: the worked values, the limits, and each change of a byte against a second reader.

use crate::numbered::MOST;
use crate::second::end_of_tags;
use rapid_endpoint::{ParseError, ReadError, Tags, tags_have_one_spelling};
use std::cmp::Ordering;
use std::test::Fail;

/// Tags, and their bytes.
const VALUES: [(&[&[u8]], &[u8]); 6] = [
    (&[], &[0]),
    (&[b"db"], &[1, 2, 0x64, 0x62]),
    (&[b"db", b"web"], b"\x02\x02db\x03web"),
    // ordered as words are, whatever their lengths
    (&[b"a", b"aa", b"b"], b"\x03\x01a\x02aa\x01b"),
    (&[b"!", b"~"], &[2, 1, 0x21, 1, 0x7e]),
    (
        &[b"1", b"2", b"3", b"4", b"5", b"6", b"7", b"8"],
        b"\x08\x011\x012\x013\x014\x015\x016\x017\x018",
    ),
];

/// Whether these tags have these bytes, and are read from them.
fn are_spelt(list: &[&[u8]], bytes: &[u8]) -> Result<bool, Fail> {
    let tags = Tags::new(list)?;
    let (read, length) = Tags::read(bytes)?;
    tags.tell();
    Ok(tags.as_bytes() == bytes && read == tags && length == bytes.len())
}

/// Whether these are the tags, by place and in order.
fn are_the_tags(tags: &Tags, list: &[&[u8]]) -> bool {
    let mut left = tags.iter();
    for (place, tag) in list.iter().enumerate() {
        if tags.get(place) != Some(*tag) || left.next() != Some(*tag) {
            return false;
        }
    }
    left.next().is_none() && tags.get(list.len()).is_none()
}

#[test]
fn tags_have_their_bytes(rt: HostRuntime) -> Result<(), Fail> {
    for (list, bytes) in &VALUES {
        assert!(rt; are_spelt(list, bytes)?, "at {bytes:?}");
    }
    tags_have_one_spelling();
    Ok(())
}

#[test]
fn tags_are_gone_over(rt: HostRuntime) -> Result<(), Fail> {
    for (list, bytes) in &VALUES {
        let tags = Tags::new(list)?;
        assert!(rt; are_the_tags(&tags, list), "at {bytes:?}");
        assert!(rt; tags.len() == list.len() && tags.is_empty() == list.is_empty());
    }
    assert!(rt; Tags::none() == Tags::new(&[])?);
    Ok(())
}

/// Texts of tags, with commas between them; none are no text.
const TEXTS: [(&str, &[&[u8]]); 4] = [
    ("db", &[b"db"]),
    ("db,web", &[b"db", b"web"]),
    ("a,aa,b", &[b"a", b"aa", b"b"]),
    (
        "1,2,3,4,5,6,7,8",
        &[b"1", b"2", b"3", b"4", b"5", b"6", b"7", b"8"],
    ),
];

/// Other texts, and why: too many are told first, then a wrong one, then the order.
const OTHER_TEXTS: [(&str, ParseError); 10] = [
    ("", ParseError::BadTag),
    (",", ParseError::BadTag),
    ("db,", ParseError::BadTag),
    (",db", ParseError::BadTag),
    ("web,,db", ParseError::BadTag),
    ("web,d b", ParseError::BadTag),
    ("web,db", ParseError::TagsNotSorted),
    ("db,db", ParseError::TagsNotSorted),
    ("1,2,3,4,5,6,7,8,9", ParseError::TooManyTags),
    (",,,,,,,,", ParseError::TooManyTags),
];

#[test]
fn tags_are_read_of_texts(rt: HostRuntime) -> Result<(), Fail> {
    for (text, list) in &TEXTS {
        assert!(rt; Tags::parse(text)? == Tags::new(list)?, "at {text}");
    }
    for (text, error) in &OTHER_TEXTS {
        assert!(rt; Tags::parse(text) == Err(*error), "at {text}");
    }
    Ok(())
}

/// A tag of 64 bytes, and one of 65.
const LONGEST: [u8; 64] = [b'x'; 64];

const TOO_LONG: [u8; 65] = [b'x'; 65];

/// Lists that are refused, and why.
const REFUSALS: [(&[&[u8]], ParseError); 14] = [
    (&[b"web", b"db"], ParseError::TagsNotSorted),
    (&[b"db", b"db"], ParseError::TagsNotSorted),
    (&[b"aa", b"a"], ParseError::TagsNotSorted),
    (&[b"a", b"c", b"b"], ParseError::TagsNotSorted),
    (&[b""], ParseError::BadTag),
    (&[b"b", b"a", b""], ParseError::BadTag),
    (&[&TOO_LONG], ParseError::BadTag),
    (&[b"a b"], ParseError::BadTag),
    (&[b"a,b"], ParseError::BadTag),
    (&[b"[a"], ParseError::BadTag),
    (&[b"a]"], ParseError::BadTag),
    (&[&[0x7f]], ParseError::BadTag),
    (
        &[b"1", b"2", b"3", b"4", b"5", b"6", b"7", b"8", b"9"],
        ParseError::TooManyTags,
    ),
    (
        &[b"", b"", b"", b"", b"", b"", b"", b"", b""],
        ParseError::TooManyTags,
    ),
];

#[test]
fn other_lists_are_no_tags(rt: HostRuntime) {
    for (list, error) in &REFUSALS {
        assert!(rt; Tags::new(list) == Err(*error), "at {list:?}");
    }
}

#[test]
fn a_tag_may_have_64_bytes(rt: HostRuntime) -> Result<(), Fail> {
    let tags = Tags::new(&[&LONGEST])?;
    assert!(rt; tags.as_bytes().len() == 66 && tags.get(0) == Some(&LONGEST[..]));
    let mut bytes = [b'x'; 67];
    bytes[0] = 1;
    bytes[1] = 64;
    assert!(rt; Tags::read(&bytes) == Ok((tags, 66)));
    bytes[1] = 65;
    assert!(rt; Tags::read(&bytes) == Err(ReadError::BadTags));
    Ok(())
}

#[test]
fn eight_tags_may_have_64_bytes_each(rt: HostRuntime) -> Result<(), Fail> {
    let [a, b, c, d, e, f, g, h] = &MOST;
    let tags = Tags::new(&[a, b, c, d, e, f, g, h])?;
    assert!(rt; tags.as_bytes().len() == 521 && tags.len() == 8);
    assert!(rt; Tags::read(tags.as_bytes()) == Ok((tags, 521)));
    Ok(())
}

/// Whether bytes are read as the second reader reads them.
fn agrees(bytes: &[u8]) -> bool {
    match (Tags::read(bytes), end_of_tags(bytes, 0)) {
        (Ok((tags, length)), Ok(end)) => length == end && bytes.get(..end) == Some(tags.as_bytes()),
        (Err(error), Err(other)) => error == other,
        _ => false,
    }
}

/// Four tags, of which two begin alike, and three bytes that follow.
const GOOD: [u8; 18] = *b"\x04\x02db\x03dba\x01e\x04webs\x01!\xff";

#[test]
fn each_change_of_a_byte_is_read_alike(rt: HostRuntime) {
    assert!(rt; end_of_tags(&GOOD, 0) == Ok(15) && agrees(&GOOD));
    for place in 0..GOOD.len() {
        for byte in 0..=255 {
            let mut bytes = GOOD;
            bytes[place] = byte;
            assert!(rt; agrees(&bytes), "with {byte} at {place}");
        }
    }
}

#[test]
fn each_beginning_is_read_alike(rt: HostRuntime) {
    for length in 0..GOOD.len() {
        assert!(rt; agrees(&GOOD[..length]), "of {length} bytes");
        let expected = length < 15;
        assert!(rt; (Tags::read(&GOOD[..length]) == Err(ReadError::Truncated)) == expected);
    }
}

/// Bytes that do not begin with tags, and why: what is met first from the left.
const FAULTS: [(&[u8], ReadError); 14] = [
    (&[], ReadError::Truncated),
    (&[9], ReadError::BadTags),
    (&[1], ReadError::Truncated),
    (&[1, 0], ReadError::BadTags),
    (&[1, 65], ReadError::BadTags),
    (&[1, 64], ReadError::Truncated),
    (b"\x01\x03a,", ReadError::BadTags),
    (b"\x01\x03ab", ReadError::Truncated),
    (b"\x02\x02db\x02db", ReadError::BadTags),
    (b"\x02\x03web\x02db", ReadError::BadTags),
    // the order is judged at a tag's end
    (b"\x02\x03web\x02d", ReadError::Truncated),
    (b"\x02\x03web\x02d ", ReadError::BadTags),
    (b"\x02\x02db", ReadError::Truncated),
    (b"\x02\x01a\x02a[", ReadError::BadTags),
];

#[test]
fn other_bytes_are_refused_by_what_is_met_first(rt: HostRuntime) {
    for (bytes, error) in &FAULTS {
        assert!(rt; Tags::read(bytes) == Err(*error), "at {bytes:?}");
        assert!(rt; end_of_tags(bytes, 0) == Err(*error), "at {bytes:?}");
    }
}

/// Tags, from low to high: by their number, then the length of the first that differs.
const ORDER: [&[&[u8]]; 5] = [&[], &[b"b"], &[b"aa"], &[b"a", b"aa"], &[b"a", b"b", b"c"]];

#[test]
fn tags_are_ordered_by_their_bytes(rt: HostRuntime) -> Result<(), Fail> {
    for pair in ORDER.windows(2) {
        let (low, high) = (Tags::new(pair[0])?, Tags::new(pair[1])?);
        assert!(rt; low.cmp(&high) == Ordering::Less && low < high && low != high);
        assert!(rt; high.cmp(&low) == Ordering::Greater && low.cmp(&low) == Ordering::Equal);
    }
    Ok(())
}

const CODES: [(ParseError, u8); 3] = [
    (ParseError::BadTag, 5),
    (ParseError::TooManyTags, 6),
    (ParseError::TagsNotSorted, 7),
];

#[test]
fn refusals_have_their_numbers(rt: HostRuntime) {
    for (error, code) in &CODES {
        assert!(rt; error.code() == *code);
    }
    assert!(rt; ReadError::Truncated.code() == 1 && ReadError::BadTags.code() == 2);
}
