// The commands of `detect`, and the lines that spell them.

ghost use Rattle.std.specs.Prelude.{◌≡◌};
ghost use Rattle.std.specs.Option.{option_map, option_and_then};
ghost use Rattle.rapid_model.specs.Lines.{words};
ghost use Rattle.rapid_model.specs.DetectLine as model;
ghost use Rattle.rapid_model.specs.DetectLine.{place_in, command_named, marks_in, process_in, edge_at, batch_in};
ghost use Rattle.rapid_model.specs.DetectText.{asked};
ghost use Rattle.rapid_alerts.specs.Alerts.{kind_of};
ghost use Rattle.rapid_detect.specs.Commands.{place_of, command_of, asked_of};

use rapid_alerts::Kind;
use rapid_text::{byte, is_plain, one_word, process_number, split_word, three_words};

/// A ring, an observer and a subject, these two by their numbers.
#[derive(Clone, Copy, Debug)]
pub struct Place {
    pub ring: u8,
    pub observer: u16,
    pub subject: u16,
}

/// What a command asks for.
#[derive(Clone, Copy, Debug)]
pub enum DetectCommand {
    /// The numbers K, H and L, which may be out of order.
    Watermarks(u8, u8, u8),
    /// That the process of a number is no member.
    Joiner(u16),
    /// An edge of the table, whose observer is not its subject.
    Edge(Place),
    /// An alert for the next batch.
    Report(Kind, Place),
    /// The batch is given to the detector.
    Batch,
}

/// What a line asks for.
#[derive(Clone, Copy, Debug)]
pub enum DetectAsked {
    /// Nothing: the line is skipped.
    Nothing,
    /// Nothing that is known.
    Unknown,
    /// A command.
    Taken(DetectCommand),
}

/// The ring, the observer and the subject that the words of a line name.
fn place_named(line: &[u8]) -> Option<Place>
    ensures { option_map place_of result ≡ place_in (words line.now) }
{
    let (ring, observer, subject) = three_words(line)?;
    Some(Place {
        ring: byte(ring)?,
        observer: process_number(observer)?,
        subject: process_number(subject)?,
    })
}

/// The numbers K, H and L that the words of a line spell.
fn watermarks(line: &[u8]) -> Option<DetectCommand>
    ensures { option_map command_of result ≡ option_map model.Watermarks (marks_in (words line.now)) }
{
    let (k, h, l) = three_words(line)?;
    Some(DetectCommand::Watermarks(byte(k)?, byte(h)?, byte(l)?))
}

/// The joiner that the word of a line names.
fn joiner(line: &[u8]) -> Option<DetectCommand>
    ensures { option_map command_of result ≡ option_map model.Joiner (process_in (words line.now)) }
{
    Some(DetectCommand::Joiner(process_number(one_word(line)?)?))
}

/// The edge that the words of a line name.
fn edge(line: &[u8]) -> Option<DetectCommand>
    ensures { option_map command_of result ≡ option_and_then edge_at (place_in (words line.now)) }
{
    let place = place_named(line)?;
    if place.observer == place.subject {
        return None;
    }
    Some(DetectCommand::Edge(place))
}

/// The alert of a kind that the words of a line name.
fn report(kind: Kind, line: &[u8]) -> Option<DetectCommand>
    ensures { option_map command_of result ≡ option_map (model.Report (kind_of kind)) (place_in (words line.now)) }
{
    Some(DetectCommand::Report(kind, place_named(line)?))
}

/// A batch, if no words follow its name.
fn batch(line: &[u8]) -> Option<DetectCommand>
    ensures { option_map command_of result ≡ batch_in (words line.now) }
{
    match split_word(line) {
        Some(_) => None,
        None => Some(DetectCommand::Batch),
    }
}

/// The command of a name and the words after it.
fn command_by(name: &[u8], rest: &[u8]) -> Option<DetectCommand>
    ensures { option_map command_of result ≡ command_named name.now (words rest.now) }
{
    if name == b"watermarks".as_slice() {
        watermarks(rest)
    } else if name == b"joiner".as_slice() {
        joiner(rest)
    } else if name == b"edge".as_slice() {
        edge(rest)
    } else if name == b"remove".as_slice() {
        report(Kind::Remove, rest)
    } else if name == b"join".as_slice() {
        report(Kind::Join, rest)
    } else if name == b"batch".as_slice() {
        batch(rest)
    } else {
        None
    }
}

/// What a line asks for.
#[tactic(auto, unfolding(rapid_model::specs::DetectText::asked))]
pub fn read_line(line: &[u8]) -> DetectAsked
    ensures { asked_of result ≡ asked line.now }
{
    if !is_plain(line) {
        return DetectAsked::Unknown;
    }
    if let [b'#', ..] = line {
        return DetectAsked::Nothing;
    }
    let Some((name, rest)) = split_word(line) else {
        return DetectAsked::Nothing;
    };
    match command_by(name, rest) {
        Some(command) => DetectAsked::Taken(command),
        None => DetectAsked::Unknown,
    }
}
