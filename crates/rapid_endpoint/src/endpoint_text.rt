// The texts of endpoints.

ghost use Rattle.std.specs.Prelude.{◌≡◌, ◌<◌, ◌==◌, ◌&&◌, true, false, [], ◌∷◌, length, if◌then◌else◌, MatchOption, Some, None, Ok, Err};
ghost use Rattle.std.specs.List.{list_any, before_first, after_first};
ghost use Rattle.rapid_model.specs.EndpointText.{is_number, value_of, parts};
ghost use Rattle.rapid_endpoint.specs.Spellings.{PrintedIsRead, ReadIsPrinted};
ghost use Rattle.rapid_endpoint.specs.Texts.{is_byte, address_from, endpoint_from};

use crate::number::number;
use crate::{Endpoint, ParseError};
use std::fmt;

impl Endpoint {
    /// The endpoint that a text such as `127.0.0.1:7000` spells. What stands before the first
    /// colon, or all, is the host.
    ///
    /// The error is the first that holds. `NotFourParts` if the host has not exactly four parts
    /// between dots. `PartRange` if a part is no number from 0 to 255. `BadPort` if there is no
    /// colon, or what follows it is no number from 0 to 65,535. Numbers have no leading zeros.
    pub fn parse(text: &str) -> Result<Endpoint, ParseError>
        ensures { result ≡ endpoint_from text.now }
    {
        match cut(text, ':') {
            Some((host, port)) => {
                let address = parse_address(host)?;
                let port = parse_port(port)?;
                Ok(Endpoint::new(address, port))
            }
            None => {
                parse_address(text)?;
                Err(ParseError::BadPort)
            }
        }
    }
}

// What stands before the first such character, and what after it.
fn cut(text: &str, separator: char) -> Option<(&str, &str)>
    requires { separator < 128 }
    ensures { MatchOption result (list_any (λ b. b == separator) text.now ≡ false)
        (λ x. (list_any (λ b. b == separator) text.now ≡ true) × (x.0.now ≡ before_first (λ b. b == separator) text.now)
        × (x.1.now ≡ after_first (λ b. b == separator) text.now)) }
{
    text.split_once(separator)
}

// The first part of a host and what follows its dot, if the host has two parts or more.
fn first_part(host: &str) -> Option<(&str, &str)>
    ensures { MatchOption result (parts host.now ≡ host.now ∷ [])
        (λ x. (parts host.now ≡ x.0.now ∷ parts x.1.now) × (0 < length (parts x.1.now))) }
{
    cut(host, '.')
}

// The four parts of a host, if it has just four.
fn four_parts(host: &str) -> Option<(&str, &str, &str, &str)>
    ensures { MatchOption result ((length (parts host.now) == 4) ≡ false)
        (λ x. parts host.now ≡ x.0.now ∷ x.1.now ∷ x.2.now ∷ x.3.now ∷ []) }
{
    let (first, rest) = first_part(host)?;
    let (second, rest) = first_part(rest)?;
    let (third, fourth) = first_part(rest)?;
    match first_part(fourth) {
        Some(_) => None,
        None => Some((first, second, third, fourth)),
    }
}

fn parse_address(host: &str) -> Result<[u8; 4], ParseError>
    ensures { result ≡ address_from host.now }
{
    match four_parts(host) {
        Some((first, second, third, fourth)) => {
            address_of(first, second, third, fourth).ok_or(ParseError::PartRange)
        }
        None => Err(ParseError::NotFourParts),
    }
}

// The bytes that four parts spell, if each is a number up to 255.
fn address_of(first: &str, second: &str, third: &str, fourth: &str) -> Option<[u8; 4]>
    ensures { result ≡ (if is_byte first.now && is_byte second.now && is_byte third.now && is_byte fourth.now
        then Some (value_of first.now ∷ value_of second.now ∷ value_of third.now ∷ value_of fourth.now ∷ []) else None) }
{
    Some([
        parse_part(first)?,
        parse_part(second)?,
        parse_part(third)?,
        parse_part(fourth)?,
    ])
}

fn parse_part(text: &str) -> Option<u8>
    ensures { result ≡ (if is_byte text.now then Some (value_of text.now) else None) }
{
    let value = number(text.as_bytes(), 3, 255)?;
    Some(value as u8)
}

fn parse_port(text: &str) -> Result<u16, ParseError>
    ensures { result ≡ (if is_number 5 65535 text.now then Ok (value_of text.now) else Err ParseError.BadPort) }
{
    let value = number(text.as_bytes(), 5, 65_535).ok_or(ParseError::BadPort)?;
    Ok(value as u16)
}

impl fmt::Display for Endpoint {
    ghost use Rattle.rapid_model.specs.EndpointText.{endpoint_text};

    ghost output = { λ e. Some (endpoint_text e) };

    fn fmt<W: fmt::Write>(&self, f: &mut fmt::Formatter<W>) -> fmt::Result {
        let [a, b, c, d] = self.address();
        let port = self.port();
        write!(f, "{a}.{b}.{c}.{d}:{port}")
    }
}

impl fmt::Debug for Endpoint {
    fn fmt<W: fmt::Write>(&self, f: &mut fmt::Formatter<W>) -> fmt::Result {
        write!(f, "{self}")
    }
}

/// Each endpoint has one spelling: its printed text is read as that endpoint, and no other text is.
/// It does nothing: what it ensures is for proofs.
pub fn endpoints_have_one_spelling()
    ensures printed { PrintedIsRead }
    ensures read { ReadIsPrinted }
{}
