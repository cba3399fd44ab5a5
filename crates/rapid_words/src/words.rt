//! The words of the program.

ghost use Rattle.std.specs.Prelude.{◌≡◌, ◌≢◌, ◌≤◌, ◌<◌, false, [], map, IfOk, IfErr, IfSome, IfNone, OnOk, Some};
ghost use Rattle.clap.specs.Words.{kind_of, rule_of, rows_of, app_of, found_of, one_of, subcommand_rows_of, subcommand_of, HasKind, fault_of};
ghost use Rattle.rapid_model.specs.Configuration.{AreParams};
ghost use Rattle.rapid_model.specs.Limits.{most_clerks};
ghost use Rattle.rapid_words.specs.Asked.{CanRun, IsHelp, IsInOrder, invocation_found, number_in, setting_in};
ghost use Rattle.rapid_words.specs.Grammar.{cluster_words, grammar, number_option, with_params};
ghost use Rattle.rapid_words.specs.Refused.{CanDo, IsFault, IsNumber, IsSetting};

use crate::explain::{tell_missing, tell_params, tell_refused};
use crate::help::{CLUSTER_TURNS, DETECT_LINES, SIM_LINES, STATUSES, VERSION};
use crate::node::{node, text};
use clap::builder::ValueParser;
use clap::error::ErrorKind;
use clap::{Arg, ArgMatches, Command, Error};
use rapid_config::Params;
use std::alloc::{AllocError, Global};
use std::convert::AsStr;
use std::io::Write;

/// All went well.
pub const DONE: u8 = 0;

/// Standard input or output failed.
pub const FAILED: u8 = 1;

/// The words were refused.
pub const REFUSED: u8 = 2;

/// There was no memory.
pub const NO_MEMORY: u8 = 3;

/// The most clerks of a cluster.
const MOST_WORKERS: u16 = 32;

/// What the words of `cluster` ask for.
#[derive(Clone, Copy, Debug)]
pub struct Setting {
    /// K, H and L.
    pub params: Params,
    /// How many nodes, 1 to 64.
    pub nodes: u16,
    /// How many threads, 1 to 32.
    pub workers: u16,
    /// How many turns each thread takes, 1 to 10,000.
    pub turns: u16,
}

/// The commands of the program that read lines or drive a simulated cluster.
#[derive(Clone, Copy, Debug)]
pub enum Invocation {
    /// The cut detector over lines.
    Detect,
    /// The simulator over lines.
    Sim,
    /// A simulated cluster that threads drive.
    Cluster(Setting),
}

/// An option whose value is a number from the least to the most.
pub(crate) fn number<'a>(
    alloc: Global,
    name: &'a str,
    default: &'a str,
    least: i64,
    most: i64,
    help: &'a str,
) -> Arg<'a>
    ensures rule { rule_of result ≡ number_option name.entry.now default.entry.now least most }
    ensures local { result.global ≡ false }
{
    text(alloc, name, "NUMBER", help)
        .default_value(default)
        .value_parser(ValueParser::signed(least, most))
}

/// The command with the options K, H and L. Their order is judged later, so each takes any byte.
pub(crate) fn with_params<'a>(
    alloc: Global,
    command: Command<'a>,
) -> Result<Command<'a>, AllocError>
    ensures app { IfOk result (λ c. app_of c ≡ with_params (app_of command.entry)) }
{
    let k = number(
        alloc,
        "k",
        "10",
        0,
        255,
        "K, how many rings there are, H to 16",
    );
    let h = number(
        alloc,
        "h",
        "9",
        0,
        255,
        "H, how many reports make a process stable, L to K",
    );
    let l = number(
        alloc,
        "l",
        "3",
        0,
        255,
        "L, how many reports make a process unstable, 1 to H",
    );
    command.arg(k)?.arg(h)?.arg(l)
}

/// The words that `cluster` takes.
fn cluster<'a>(alloc: Global) -> Result<Command<'a>, AllocError>
    ensures app { IfOk result (λ c. app_of c ≡ cluster_words) }
{
    let nodes = number(alloc, "nodes", "3", 1, 64, "How many nodes, 1 to 64");
    let workers = number(alloc, "workers", "4", 1, 32, "How many threads, 1 to 32");
    let turns = number(
        alloc,
        "turns",
        "10",
        1,
        10_000,
        "How many turns each thread takes, 1 to 10000",
    );
    let command = Command::new(alloc, "cluster")
        .about("Lets threads drive a simulated cluster, and prints what its nodes hold at the end")
        .after_help(CLUSTER_TURNS)
        .arg(nodes)?
        .arg(workers)?
        .arg(turns)?;
    with_params(alloc, command)
}

/// The words that the program takes.
fn grammar<'a>(alloc: Global) -> Result<Command<'a>, AllocError>
    ensures app { IfOk result (λ c. app_of c ≡ grammar) }
{
    let detect = Command::new(alloc, "detect")
        .about(
            "Reads who observes whom and alerts from standard input, and prints the cuts that they make",
        )
        .after_help(DETECT_LINES);
    let sim = Command::new(alloc, "sim")
        .about("Drives a simulated cluster by lines from standard input, and prints its views")
        .after_help(SIM_LINES);
    Command::new(alloc, "rapidd")
        .about("Decentralized membership with Fast Paxos views")
        .version(VERSION)
        .after_help(STATUSES)
        .subcommand_required(true)
        .subcommand(detect)?
        .subcommand(sim)?
        .subcommand(cluster(alloc)?)?
        .subcommand(node(alloc)?)
}

/// Reports a fault of the words. What is missing or out of range is named with what is wanted; all
/// else is as `clap` says it.
fn tell_fault<S: AsStr, E: Write>(error: &Error, words: &[S], err: &mut E) {
    let told = match error.kind() {
        ErrorKind::ValueValidation | ErrorKind::InvalidValue | ErrorKind::UnknownArgument => {
            tell_refused(words, err)
        }
        ErrorKind::MissingRequiredArgument => {
            tell_missing(err);
            true
        }
        _ => false,
    };
    if !told {
        let _ = write!(err, "{error}");
    }
}

/// Says why there is nothing to run: help, the version, or a fault of the words.
pub fn tell<S: AsStr, O: Write, E: Write>(
    error: &Error,
    words: &[S],
    out: &mut O,
    err: &mut E,
) -> u8
    ensures memory { kind_of error.now ≡ ErrorKind.OutOfMemory → result ≡ 3 }
    ensures only_memory { result ≡ 3 → kind_of error.now ≡ ErrorKind.OutOfMemory }
    ensures refused { kind_of error.now ≢ ErrorKind.OutOfMemory → kind_of error.now ≢ ErrorKind.DisplayHelp
        → kind_of error.now ≢ ErrorKind.DisplayVersion → result ≡ 2 }
    ensures status { result ≤ 3 }
    ensures fault { result ≡ 2 → IsFault (kind_of error.now) }
    ensures asked { result ≤ 1 → IsHelp (kind_of error.now) }
    ensures silent { 1 < result → out.new ≡ out.old }
{
    match error.kind() {
        ErrorKind::DisplayHelp | ErrorKind::DisplayVersion => match write!(out, "{error}") {
            Ok(()) => DONE,
            Err(_) => FAILED,
        },
        ErrorKind::OutOfMemory => {
            let _ = write!(err, "{error}");
            NO_MEMORY
        }
        _ => {
            tell_fault(error, words, err);
            REFUSED
        }
    }
}

/// What the words ask for.
pub fn matches_of<'a, S: AsStr>(alloc: Global, words: &'a [S]) -> Result<ArgMatches<'a>, Error>
    ensures found { IfOk result (λ m. subcommand_rows_of m ≡ subcommand_of grammar (map S.text words.entry.now)) }
    ensures taken { OnOk result (fault_of grammar (map S.text words.entry.now) ≡ []) }
    ensures fails { IfErr result (HasKind (fault_of grammar (map S.text words.entry.now))) }
{
    grammar(alloc)?.try_get_matches_from(words)
}

/// The number after an option, if it is a byte.
fn byte_behind(words: &ArgMatches, option: &str) -> Option<u8>
    ensures read { IfSome result (λ n. number_in (rows_of (found_of words.now)) option.now ≡ Some n) }
    ensures none { IfNone result (¬ IsNumber 8 (one_of option.now (rows_of (found_of words.now)))) }
{
    words.get_one::<u8>(option)
}

/// The number after an option, if it has at most 16 bits.
fn number_behind(words: &ArgMatches, option: &str) -> Option<u16>
    ensures read { IfSome result (λ n. number_in (rows_of (found_of words.now)) option.now ≡ Some n) }
    ensures none { IfNone result (¬ IsNumber 16 (one_of option.now (rows_of (found_of words.now)))) }
{
    words.get_one::<u16>(option)
}

/// The setting of a cluster, if K, H and L are in order.
#[tactic(auto, using(crate::proofs::Asking::setting_found, crate::proofs::Refusing::no_k, crate::proofs::Refusing::no_h, crate::proofs::Refusing::no_l, crate::proofs::Refusing::no_nodes, crate::proofs::Refusing::no_workers, crate::proofs::Refusing::no_turns))]
fn setting_of(words: &ArgMatches) -> Option<Setting>
    ensures runs { IfSome result (λ setting. setting.workers ≤ most_clerks) }
    ensures found { IfSome result (λ setting. setting_in (rows_of (found_of words.now)) ≡ Some setting) }
    ensures in_order { IfSome result (λ setting. AreParams setting.params) }
    ensures none { IfNone result (¬ IsSetting (rows_of (found_of words.now))) }
{
    let k = byte_behind(words, "k")?;
    let h = byte_behind(words, "h")?;
    let l = byte_behind(words, "l")?;
    let params = Params::new(k, h, l).ok()?;
    let nodes = number_behind(words, "nodes")?;
    let workers = number_behind(words, "workers")?;
    let turns = number_behind(words, "turns")?;
    if workers > MOST_WORKERS {
        return None;
    }
    Some(Setting {
        params,
        nodes,
        workers,
        turns,
    })
}

/// The command that the words name, if K, H and L are in order.
#[tactic(auto, using(crate::proofs::Asking::detect_found, crate::proofs::Asking::sim_found, crate::proofs::Asking::cluster_found))]
pub fn invocation_of(words: &ArgMatches) -> Option<Invocation>
    ensures runs { IfSome result CanRun }
    ensures named { IfSome result (λ invocation. invocation_found (subcommand_rows_of words.now) ≡ Some invocation) }
    ensures in_order { IfSome result IsInOrder }
    ensures none { IfNone result (¬ CanDo (subcommand_rows_of words.now)) }
{
    if words.subcommand_matches("detect").is_some() {
        return Some(Invocation::Detect);
    }
    if words.subcommand_matches("sim").is_some() {
        return Some(Invocation::Sim);
    }
    let setting = setting_of(words.subcommand_matches("cluster")?)?;
    Some(Invocation::Cluster(setting))
}

/// Says that K, H and L are refused.
pub fn refuse<E: Write>(words: &ArgMatches, err: &mut E) -> u8
    ensures { result ≡ 2 }
{
    if let Some((command, words)) = words.subcommand() {
        tell_params(command, words, err);
    }
    REFUSED
}
