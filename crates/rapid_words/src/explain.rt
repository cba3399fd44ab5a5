// The texts of faults of the command line. Each names the option, the value that was given and what
// is wanted.

use crate::node::NODE;
use clap::ArgMatches;
use clap::parser::ValueSource;
use rapid_endpoint::{Endpoint, ParseError, ProcessId, Tags};
use rapid_options::{NodeOptions, NodeWords};
use rapid_transport::is_local;
use std::convert::AsStr;
use std::io::Write;
use std::net::{Ipv4Addr, Net, SocketAddr, SocketAddrV4, TcpListener, TcpStream};

/// What an endpoint has to be.
const ENDPOINT: &str =
    "127.x.x.x:PORT with a port from 1 to 65535 is wanted, such as 127.0.0.1:7401";

/// What an identifier has to be.
const IDENTIFIER: &str =
    "a UUID is wanted that was never used before, such as 6ba7b810-9dad-41d1-80b4-00c04fd430c8";

/// What tags have to be.
const TAGS: &str =
    "up to 8 ascending words of 1 to 64 bytes are wanted, with commas between them, such as db,zone-a";

/// What K, H and L have to be.
const PARAMS: &str = "1 <= L <= H <= K <= 16 is wanted";

/// What the value of an option has to be.
#[derive(Clone, Copy, Debug)]
struct Wanted {
    /// What stands for the value in the help.
    kind: &'static str,
    /// The range and an example.
    text: &'static str,
    /// The range of a number.
    range: Option<(i64, i64)>,
}

/// A number that is wanted.
fn number(least: i64, most: i64, text: &'static str) -> Option<Wanted> {
    Some(Wanted {
        kind: "NUMBER",
        text,
        range: Some((least, most)),
    })
}

/// A text that is wanted.
fn text(kind: &'static str, text: &'static str) -> Option<Wanted> {
    Some(Wanted {
        kind,
        text,
        range: None,
    })
}

/// What the value of an option of a command has to be. The order of K, H and L is judged later, so
/// their range here is that of a byte.
fn wanted_of(command: &str, option: &str) -> Option<Wanted> {
    match (command, option) {
        ("cluster", "nodes") => number(1, 64, "a number from 1 to 64 is wanted, such as 3"),
        ("cluster", "workers") => number(1, 32, "a number from 1 to 32 is wanted, such as 4"),
        ("cluster", "turns") => number(1, 10_000, "a number from 1 to 10000 is wanted, such as 10"),
        ("cluster" | "node", "k" | "h" | "l") => number(0, 255, PARAMS),
        ("node", "tick-ms") => number(
            0,
            60_000,
            "a number of milliseconds from 0 to 60000 is wanted, such as 100",
        ),
        ("node", "probers") => number(1, 16, "a number from 1 to 16 is wanted, such as 4"),
        ("node", "listen" | "join") => text("ENDPOINT", ENDPOINT),
        ("node", "id") => text("UUID", IDENTIFIER),
        ("node", "tags") => text("TAGS", TAGS),
        _ => None,
    }
}

/// An option among the words.
#[derive(Clone, Copy, Debug)]
struct GivenOption<'a> {
    name: &'a str,
    value: Option<&'a str>,
    /// Whether the value stands behind `=`. Then it may begin with `-`.
    is_joined: bool,
    wanted: Wanted,
}

impl GivenOption<'_> {
    /// Whether the grammar refuses the value.
    fn is_refused(&self) -> bool {
        let Some(value) = self.value else {
            return true;
        };
        match self.wanted.range {
            Some((least, most)) => match value.parse::<i64>() {
                Ok(number) => number < least || most < number,
                Err(_) => true,
            },
            None => !self.is_joined && value != "-" && value.starts_with('-'),
        }
    }

    /// Says why it is refused.
    fn tell<E: Write>(&self, err: &mut E) {
        let GivenOption { name, wanted, .. } = self;
        let Wanted { kind, text, .. } = wanted;
        let _ = match self.value {
            Some(value) => writeln!(
                err,
                "error: invalid value '{value}' for '--{name} <{kind}>': {text}"
            ),
            None => writeln!(err, "error: no value for '--{name} <{kind}>': {text}"),
        };
    }
}

/// The option that stands at this place among the words of a command. Its value stands behind `=`,
/// or is the word after it, unless that is an option too.
fn option_at<'a, S: AsStr>(command: &str, words: &'a [S], at: usize) -> Option<GivenOption<'a>> {
    let option = words.get(at)?.as_str().strip_prefix("--")?;
    let (name, value, is_joined) = match option.split_once('=') {
        Some((name, value)) => (name, Some(value), true),
        None => (option, value_behind(words, at), false),
    };
    Some(GivenOption {
        name,
        value,
        is_joined,
        wanted: wanted_of(command, name)?,
    })
}

/// The word after this place, unless it is an option.
fn value_behind<'a, S: AsStr>(words: &'a [S], at: usize) -> Option<&'a str> {
    let word = words.get(at.saturating_add(1))?.as_str();
    if word.starts_with("--") {
        None
    } else {
        Some(word)
    }
}

/// Explains the first option among the words whose value the grammar refuses. The answer is whether
/// there is one.
pub(crate) fn tell_refused<S: AsStr, E: Write>(words: &[S], err: &mut E) -> bool {
    let Some(command) = words.get(1) else {
        return false;
    };
    for at in 2..words.len() {
        if let Some(given) = option_at(command.as_str(), words, at)
            && given.is_refused()
        {
            given.tell(err);
            tell_help(command.as_str(), err);
            return true;
        }
    }
    false
}

/// Says how to get the help of a command.
fn tell_help<E: Write>(command: &str, err: &mut E) {
    let _ = writeln!(
        err,
        "\nFor more information, try 'rapidd {command} --help'."
    );
}

/// Says that `--listen` is missing.
pub(crate) fn tell_missing<E: Write>(err: &mut E) {
    let _ = writeln!(err, "error: '--listen <ENDPOINT>' is missing: {ENDPOINT}");
    tell_help(NODE, err);
}

/// What follows a number in a fault, if the words do not give it.
fn source_of(words: &ArgMatches, option: &str) -> &'static str {
    if is_given(words, option) {
        ""
    } else {
        " (default)"
    }
}

/// Which of the conditions on K, H and L fails first.
fn disorder(k: u8, h: u8, l: u8) -> &'static str {
    if k > 16 {
        "K is above 16"
    } else if h > k {
        "H is above K"
    } else if l > h {
        "L is above H"
    } else {
        "L is 0"
    }
}

/// Says that K, H and L of a command are not in order.
pub(crate) fn tell_params<E: Write>(command: &str, words: &ArgMatches, err: &mut E) {
    let (Some(k), Some(h), Some(l)) = (
        words.get_one::<u8>("k"),
        words.get_one::<u8>("h"),
        words.get_one::<u8>("l"),
    ) else {
        return;
    };
    let of_k = source_of(words, "k");
    let of_h = source_of(words, "h");
    let of_l = source_of(words, "l");
    let disorder = disorder(k, h, l);
    let _ = write!(
        err,
        "error: invalid values '--k {k}'{of_k}, '--h {h}'{of_h}, '--l {l}'{of_l}: {disorder}; {PARAMS}"
    );
    if is_given(words, "join") {
        let _ = write!(
            err,
            ". A node that joins takes K, H and L of its cluster: leave them out"
        );
    }
    let _ = writeln!(err);
    tell_help(command, err);
}

/// What is wrong with the text of an endpoint.
fn endpoint_fault(text: &str) -> Option<&'static str> {
    match Endpoint::parse(text) {
        Ok(endpoint) if is_local(endpoint) => None,
        Ok(endpoint) if endpoint.address()[0] == 127 => Some("its port is 0"),
        Ok(_) => Some("its host is not 127.x.x.x"),
        Err(ParseError::NotFourParts) => Some("its host is not four numbers between dots"),
        Err(ParseError::PartRange) => {
            Some("a part of its host is no number from 0 to 255, or has a needless 0 in front")
        }
        Err(ParseError::BadPort) if text.contains(':') => {
            Some("its port is no number from 1 to 65535, or has a needless 0 in front")
        }
        Err(_) => Some("it has no port"),
    }
}

/// Explains why an endpoint is refused. The answer is whether it is.
fn tell_endpoint<E: Write>(option: &str, text: &str, err: &mut E) -> bool {
    match endpoint_fault(text) {
        Some(fault) => {
            let _ = writeln!(
                err,
                "error: invalid value '{text}' for '--{option} <ENDPOINT>': {fault}; {ENDPOINT}"
            );
            true
        }
        None => false,
    }
}

/// Explains that an identifier cannot be read. The answer is whether it cannot.
fn tell_identifier<E: Write>(text: &str, err: &mut E) -> bool {
    if ProcessId::parse(text).is_ok() {
        return false;
    }
    let _ = writeln!(
        err,
        "error: invalid value '{text}' for '--id <UUID>': {IDENTIFIER}"
    );
    true
}

/// What is wrong with the text of tags.
fn tags_fault(text: &str) -> Option<&'static str> {
    match Tags::parse(text) {
        Ok(_) => None,
        Err(ParseError::TooManyTags) => Some("there are more than 8"),
        Err(ParseError::TagsNotSorted) => Some("they do not ascend"),
        Err(_) => Some("one is empty, too long, or has a byte that is not allowed"),
    }
}

/// Explains that tags cannot be read.
fn tell_tags<E: Write>(text: &str, err: &mut E) {
    if let Some(fault) = tags_fault(text) {
        let _ = writeln!(
            err,
            "error: invalid value '{text}' for '--tags <TAGS>': {fault}; {TAGS}"
        );
    }
}

/// Explains the first of the values of `--listen`, `--join`, `--id` and `--tags` that is refused.
pub(crate) fn tell_texts<E: Write>(words: &NodeWords, err: &mut E) {
    let mut told = tell_endpoint("listen", words.listen, err);
    if let Some(seed) = words.join
        && !told
    {
        told = tell_endpoint("join", seed, err);
    }
    if let Some(id) = words.id
        && !told
    {
        told = tell_identifier(id, err);
    }
    if let Some(tags) = words.tags
        && !told
    {
        tell_tags(tags, err);
    }
    tell_help(NODE, err);
}

/// Whether the words give this option.
fn is_given(words: &ArgMatches, option: &str) -> bool {
    matches!(words.value_source(option), Some(ValueSource::CommandLine))
}

/// Notes that a node that joins does not use K, H and L, if the words give one.
pub(crate) fn note_unused<E: Write>(words: &ArgMatches, err: &mut E) {
    let unused = is_given(words, "k") || is_given(words, "h") || is_given(words, "l");
    if unused && is_given(words, "join") {
        let _ = writeln!(
            err,
            "note: --k, --h and --l are not used: a node that joins takes K, H and L of its cluster"
        );
    }
}

/// Notes that a node makes no ticks by itself, if its options say so.
pub(crate) fn note_no_ticks<E: Write>(options: &NodeOptions, err: &mut E) {
    if options.tick_ms == 0 {
        let _ = writeln!(
            err,
            "note: with --tick-ms 0 only lines tick this node: it joins nobody, sees no crash, and may hold up its cluster"
        );
    }
}

/// Says which port could not be bound, and why, by trying once more.
pub fn tell_port<R, E: Write>(rt: &R, at: Endpoint, err: &mut E)
where
    R: Net<Listener = TcpListener, Stream = TcpStream>,
{
    let address = Ipv4Addr::from_octets(at.address());
    let tried = TcpListener::bind(rt, SocketAddr::V4(SocketAddrV4::new(address, at.port())));
    let _ = match tried {
        Ok(_) => writeln!(err, "  --listen {at}: it was free again a moment later"),
        Err(error) => writeln!(err, "  --listen {at}: {error}"),
    };
}
