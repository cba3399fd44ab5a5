// Texts of which a byte is another one, against the second reader.

use crate::config::readings::changed;
use crate::second::{count_of, endpoint, piece, tags_fault};
use rapid_endpoint::{Endpoint, Tags};
use std::alloc::Global;
use std::str::from_utf8;
use std::test::Fail;

/// What a text spells.
#[derive(Clone, Copy)]
enum Form {
    Endpoint,
    Tags,
}

/// Whether these tags are the pieces between the commas of a text.
fn are_pieces(tags: &Tags, text: &[u8]) -> bool {
    for (number, tag) in tags.iter().enumerate() {
        if tag != piece(text, b',', number) {
            return false;
        }
    }
    tags.len() == count_of(text, b',').saturating_add(1)
}

/// Whether a text is read as tags, or refused, as the second reader does.
fn are_tags_alike(text: &[u8]) -> Result<bool, Fail> {
    match (Tags::parse(from_utf8(text)?), tags_fault(text)) {
        (Ok(tags), None) => Ok(are_pieces(&tags, text)),
        (Err(error), Some(fault)) => Ok(error == fault),
        _ => Ok(false),
    }
}

/// Whether a text is read, or refused, as the second reader does.
fn is_alike(form: Form, text: &[u8]) -> Result<bool, Fail> {
    match form {
        Form::Endpoint => Ok(Endpoint::parse(from_utf8(text)?) == endpoint(text)),
        Form::Tags => are_tags_alike(text),
    }
}

/// Whether the second reader refuses a text.
fn is_other(form: Form, text: &[u8]) -> bool {
    match form {
        Form::Endpoint => endpoint(text).is_err(),
        Form::Tags => tags_fault(text).is_some(),
    }
}

/// Sees that a text with this byte at a place is read as the second reader reads it; whether it is
/// refused.
fn is_refused(
    alloc: Global,
    form: Form,
    text: &[u8],
    (place, byte): (usize, u8),
) -> Result<bool, Fail> {
    let text = changed(alloc, text, &[(place, byte)], text.len())?;
    if !is_alike(form, text.as_slice())? {
        return Err(Fail::new(format_args!("at {text:?}")));
    }
    Ok(is_other(form, text.as_slice()))
}

/// How many texts are refused, and how many not, with each ASCII byte at each place; all are read
/// alike.
fn counts(alloc: Global, form: Form, text: &[u8]) -> Result<(usize, usize), Fail> {
    let (mut refused, mut others) = (0usize, 0usize);
    for place in 0..text.len() {
        for byte in 0..128 {
            if is_refused(alloc, form, text, (place, byte))? {
                refused = refused.saturating_add(1);
            } else {
                others = others.saturating_add(1);
            }
        }
    }
    Ok((refused, others))
}

/// Good texts, and how many of those with another byte are refused and how many not, the text itself
/// counted once for each of its bytes. The numbers were computed by Python, by regular expressions.
const TEXTS: [(Form, &[u8], (usize, usize)); 4] = [
    (Form::Endpoint, b"127.0.0.1:7000", (1697, 95)),
    (Form::Endpoint, b"0.10.100.255:65535", (2207, 97)),
    (Form::Endpoint, b"9.8.7.6:0", (1098, 54)),
    (Form::Tags, b"!,db,dba,e,webs", (920, 1000)),
];

#[test]
fn each_change_of_a_byte_of_a_text_is_read_alike(rt: HostRuntime) -> Result<(), Fail> {
    for (form, text, expected) in &TEXTS {
        assert!(rt;
            counts(rt.alloc(), *form, text)? == *expected,
            "at {text:?}"
        );
    }
    Ok(())
}
