// The words of the command `node`.

ghost use Rattle.std.specs.Prelude.{◌≡◌, false, IfOk, IfSome, IfNone, codes, pos};
ghost use Rattle.std.specs.Option.{option_map};
ghost use Rattle.clap.specs.Words.{rule_of, app_of};
ghost use Rattle.rapid_model.specs.Limits.{most_probers};
ghost use Rattle.rapid_options.specs.Options.{AreRead, IsRefusal};
ghost use Rattle.rapid_words.specs.Grammar.{text_option, number_option, node_words};

use crate::explain::{note_no_ticks, note_unused, tell_params, tell_texts};
use crate::help::NODE_LINES;
use crate::words::{number, with_params};
use clap::{Arg, ArgAction, ArgMatches, Command};
use rapid_options::{NodeOptions, NodeWords, OptionsError, judge};
use std::alloc::{AllocError, Global};
use std::io::Write;

/// The name of the command.
pub const NODE: &str = "node";

/// An option whose value is a text.
pub(crate) fn text<'a>(alloc: Global, name: &'a str, kind: &'a str, help: &'a str) -> Arg<'a>
    ensures rule { rule_of result ≡ text_option name.entry.now }
    ensures local { result.global ≡ false }
{
    Arg::new(alloc, name)
        .long(name)
        .value_name(kind)
        .action(ArgAction::Set)
        .help(help)
}

/// The option of how much time lies between two ticks.
fn tick_ms<'a>(alloc: Global) -> Arg<'a>
    ensures rule { rule_of result ≡ number_option (codes "tick-ms") (codes "0") (pos 0) (pos 60000) }
    ensures local { result.global ≡ false }
{
    number(
        alloc,
        "tick-ms",
        "0",
        0,
        60_000,
        "How many milliseconds lie between two ticks, 0 to 60000; at 0 only lines tick",
    )
}

/// The option of how many threads probe.
fn probers<'a>(alloc: Global) -> Arg<'a>
    ensures rule { rule_of result ≡ number_option (codes "probers") (codes "1") (pos 1) (pos most_probers) }
    ensures local { result.global ≡ false }
{
    number(
        alloc,
        "probers",
        "1",
        1,
        16,
        "In how many threads those that it observes are probed, 1 to 16",
    )
}

/// The words that `node` takes.
pub(crate) fn node<'a>(alloc: Global) -> Result<Command<'a>, AllocError>
    ensures app { IfOk result (λ c. app_of c ≡ node_words) }
{
    let listen = text(
        alloc,
        "listen",
        "ENDPOINT",
        "Where the node is, such as 127.0.0.1:7401; required",
    );
    let id = text(
        alloc,
        "id",
        "UUID",
        "Its identifier, never used before; without it one is drawn",
    );
    let tags = text(
        alloc,
        "tags",
        "TAGS",
        "What it says of itself, such as db,zone-a: up to 8 words, ascending",
    );
    let join = text(
        alloc,
        "join",
        "ENDPOINT",
        "Where a member is by which it joins; without it the node founds a cluster",
    );
    let command = Command::new(alloc, NODE)
        .about("Runs a node over loopback TCP, and prints the views that it enters")
        .after_help(NODE_LINES)
        .arg(listen.required(true))?
        .arg(id)?
        .arg(tags)?
        .arg(join)?;
    with_params(alloc, command)?
        .arg(tick_ms(alloc))?
        .arg(probers(alloc))
}

/// What these words after `node` ask for, if they are not refused. A fault is reported, and so is
/// what the node does not use.
pub fn options_of<E: Write>(
    words: NodeWords,
    matches: &ArgMatches,
    err: &mut E,
) -> Option<NodeOptions>
    ensures texts { IfSome result (λ o. AreRead words.entry.listen.now (option_map (λ t. t.now) words.entry.join) (option_map (λ t. t.now) words.entry.id) (option_map (λ t. t.now) words.entry.tags) o.listen o.join o.id o.tags) }
    ensures params { IfSome result (λ o. o.params ≡ record { k = words.entry.k; h = words.entry.h; l = words.entry.l }) }
    ensures tick { IfSome result (λ o. o.tick_ms ≡ words.entry.tick_ms) }
    ensures probers { IfSome result (λ o. o.probers ≡ words.entry.probers) }
    ensures refused { IfNone result ((e : OptionsError) × IsRefusal (record { k = words.entry.k; h = words.entry.h; l = words.entry.l }) words.entry.listen.now (option_map (λ t. t.now) words.entry.join) (option_map (λ t. t.now) words.entry.id) (option_map (λ t. t.now) words.entry.tags) e) }
{
    match judge(words) {
        Ok(options) => {
            note_unused(matches, err);
            note_no_ticks(&options, err);
            Some(options)
        }
        Err(OptionsError::BadParams) => {
            tell_params(NODE, matches, err);
            None
        }
        Err(OptionsError::Unreadable(_) | OptionsError::NotLocal) => {
            tell_texts(&words, err);
            None
        }
    }
}
