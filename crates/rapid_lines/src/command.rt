// The commands of `node`, and the lines that spell them.

ghost use Rattle.std.specs.Prelude.{◌≡◌};
ghost use Rattle.std.specs.Option.{option_map};
ghost use Rattle.rapid_model.specs.Lines.{words};
ghost use Rattle.rapid_model.specs.SimLine.{number_from_1, count_in};
ghost use Rattle.rapid_lines.specs.NodeLine.{alone, command_named, asked};

use rapid_text::{is_plain, number, one_word, split_word};

/// How many ticks one line asks for at most.
const MOST_TICKS: u64 = 1_000;

/// What a command asks for.
#[derive(Clone, Copy, Debug)]
pub enum Command {
    /// A number of ticks, from 1 to 1,000.
    Ticks(u64),
    /// The current view.
    View,
    /// The observed edges.
    Edges,
    /// The node is to leave its cluster.
    Leave,
    /// The node is to end.
    Quit,
}

/// What a line asks for.
#[derive(Clone, Copy, Debug)]
pub enum Asked {
    /// Nothing: the line is skipped.
    Nothing,
    /// An unknown command.
    Unknown,
    /// A command.
    Taken(Command),
}

/// The number from 1 to a limit that a word spells.
fn number_from_1(word: &[u8], limit: u64) -> Option<u64>
    ensures { result ≡ number_from_1 limit word.now }
{
    match number(word, limit)? {
        0 => None,
        found => Some(found),
    }
}

/// How many ticks the words of a line ask for: one if there are no words.
fn count(line: &[u8]) -> Option<u64>
    ensures { result ≡ count_in (words line.now) }
{
    match split_word(line) {
        None => Some(1),
        Some(_) => number_from_1(one_word(line)?, MOST_TICKS),
    }
}

/// The ticks that the words of a line ask for.
fn ticks(line: &[u8]) -> Option<Command>
    ensures { result ≡ option_map Command.Ticks (count_in (words line.now)) }
{
    Some(Command::Ticks(count(line)?))
}

/// A command, if no words follow its name.
fn alone(command: Command, line: &[u8]) -> Option<Command>
    ensures { result ≡ alone command (words line.now) }
{
    match split_word(line) {
        Some(_) => None,
        None => Some(command),
    }
}

/// The command of a name and the words after it.
fn command_by(name: &[u8], rest: &[u8]) -> Option<Command>
    ensures { result ≡ command_named name.now (words rest.now) }
{
    if name == b"tick".as_slice() {
        ticks(rest)
    } else if name == b"view".as_slice() {
        alone(Command::View, rest)
    } else if name == b"edges".as_slice() {
        alone(Command::Edges, rest)
    } else if name == b"leave".as_slice() {
        alone(Command::Leave, rest)
    } else if name == b"quit".as_slice() {
        alone(Command::Quit, rest)
    } else {
        None
    }
}

/// What a line asks for.
#[tactic(auto, unfolding(crate::specs::NodeLine::asked))]
pub fn read_line(line: &[u8]) -> Asked
    ensures { result ≡ asked line.now }
{
    if !is_plain(line) {
        return Asked::Unknown;
    }
    if let [b'#', ..] = line {
        return Asked::Nothing;
    }
    let Some((name, rest)) = split_word(line) else {
        return Asked::Nothing;
    };
    match command_by(name, rest) {
        Some(command) => Asked::Taken(command),
        None => Asked::Unknown,
    }
}
