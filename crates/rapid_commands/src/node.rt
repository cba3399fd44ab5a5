// The command `node`.

ghost use Rattle.std.specs.Prelude.{◌≡◌, ◌≤◌, true, false, codes, Some, IfSome, IfNone};
ghost use Rattle.std.specs.Option.{option_map};
ghost use Rattle.clap.specs.Words.{first_of, found_of, rows_of, subcommand_rows_of};
ghost use Rattle.rapid_words.specs.Asked.{number_in};
ghost use Rattle.rapid_commands.specs.NodeWords.{NamesNode, HasOptions, CannotBe, IsNoNode};

use clap::ArgMatches;
use rapid_options::NodeWords;
use rapid_run::{Streams, run_node};
use rapid_signals::RunningFault;
use rapid_words::{DONE, NODE, REFUSED, options_of, tell_port};
use std::alloc::Global;
use std::convert::AsStr;
use std::io::{Read, Write};
use std::net::{Net, TcpListener, TcpStream};
use std::random::RandomSource;
use std::sync::Wait;
use std::thread::Threads;
use std::time::Clock;

/// Whether the words of the program name the command `node`.
pub(crate) fn names_node<S: AsStr>(words: &[S]) -> bool
    ensures named { result ≡ true → NamesNode S.text words.now }
    ensures other { result ≡ false → ¬ NamesNode S.text words.now }
{
    match words.get(1) {
        Some(command) => command.as_str() == "node",
        None => false,
    }
}

/// What the words after `node` say; none if the endpoint is missing, or if a number does not fit.
fn words_of<'a>(words: &ArgMatches<'a>) -> Option<NodeWords<'a>>
    ensures listen { IfSome result (λ w. first_of (codes "listen") (rows_of (found_of words.now)) ≡ Some w.listen.now) }
    ensures join { IfSome result (λ w. first_of (codes "join") (rows_of (found_of words.now)) ≡ option_map (λ t. t.now) w.join) }
    ensures id { IfSome result (λ w. first_of (codes "id") (rows_of (found_of words.now)) ≡ option_map (λ t. t.now) w.id) }
    ensures tags { IfSome result (λ w. first_of (codes "tags") (rows_of (found_of words.now)) ≡ option_map (λ t. t.now) w.tags) }
    ensures k { IfSome result (λ w. number_in (rows_of (found_of words.now)) (codes "k") ≡ Some w.k) }
    ensures h { IfSome result (λ w. number_in (rows_of (found_of words.now)) (codes "h") ≡ Some w.h) }
    ensures l { IfSome result (λ w. number_in (rows_of (found_of words.now)) (codes "l") ≡ Some w.l) }
    ensures tick_ms { IfSome result (λ w. number_in (rows_of (found_of words.now)) (codes "tick-ms") ≡ Some w.tick_ms) }
    ensures probers { IfSome result (λ w. number_in (rows_of (found_of words.now)) (codes "probers") ≡ Some w.probers) }
    ensures none { IfNone result (¬ HasOptions (rows_of (found_of words.now))) }
{
    Some(NodeWords {
        listen: words.get_str("listen")?,
        id: words.get_str("id"),
        tags: words.get_str("tags"),
        join: words.get_str("join"),
        k: words.get_one::<u8>("k")?,
        h: words.get_one::<u8>("h")?,
        l: words.get_one::<u8>("l")?,
        tick_ms: words.get_one::<u16>("tick-ms")?,
        probers: words.get_one::<u8>("probers")?,
    })
}

/// The words after `node`, if the words of the program name that command.
pub(crate) fn node_matches<'m, 'a>(matches: &'m ArgMatches<'a>) -> Option<&'m ArgMatches<'a>>
    ensures named { IfSome result (λ m. subcommand_rows_of matches.now ≡ Some (codes "node", rows_of (found_of m.now))) }
    ensures other { IfNone result (IsNoNode (subcommand_rows_of matches.now)) }
{
    matches.subcommand_matches(NODE)
}

/// Runs a node as its words ask; it reports its fault itself. The answer is the status. If its
/// words are refused, nothing was written.
pub(crate) fn run_as_node<T, R, O, E>(
    rt: &T,
    alloc: Global,
    words: &ArgMatches,
    reader: &mut R,
    out: &mut O,
    err: &mut E,
) -> u8
where
    T: Net<Listener = TcpListener, Stream = TcpStream>
        + Threads
        + Wait
        + Clock
        + RandomSource
        + Sync,
    R: Read + Send,
    O: Write + Send,
    E: Write + Send,
    ensures refused { result ≡ 2 → out.new ≡ out.old }
    ensures fault { result ≡ 2 → CannotBe (rows_of (found_of words.now)) }
    ensures status { result ≤ 3 }
{
    let Some(asked) = words_of(words) else {
        return REFUSED;
    };
    let Some(options) = options_of(asked, words, err) else {
        return REFUSED;
    };
    let listen = options.listen;
    let streams = Streams {
        reader,
        writer: out,
        err: &mut *err,
    };
    match run_node(rt, alloc, options, rt, streams) {
        Ok(()) => DONE,
        Err(fault) => {
            if fault == RunningFault::NoPort {
                tell_port(rt, listen, err);
            }
            fault.status()
        }
    }
}
