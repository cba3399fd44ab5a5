// The commands of `sim`, and the lines that spell them.

ghost use Rattle.std.specs.Prelude.{◌≡◌, ◌<◌, ◌≤◌, ◌++◌, false, length, map, bytes_eq, codes, Some, IfOk, IfSome};
ghost use Rattle.std.specs.Option.{option_map, option_and_then};
ghost use Rattle.rapid_model.specs.Lines.{words};
ghost use Rattle.rapid_model.specs.Configuration.{founding};
ghost use Rattle.rapid_model.specs.DetectLine.{marks_in};
ghost use Rattle.rapid_model.specs.SimLine as model;
ghost use Rattle.rapid_model.specs.SimLine.{number_from_1, identifier_named, endpoint_named, result_named, count_in, identifier_in, packet_in, all_named, found_in, start_in, probe_in, tick_in, command_named};
ghost use Rattle.rapid_model.specs.SimText.{asked};
ghost use Rattle.rapid_model.specs.Tags.{tags_refusal, tags_bytes};
ghost use Rattle.rapid_sim.specs.Commands.{command_of, asked_of, IsFoundingBy, HasFounding, IsPlain, IsFromOne, IsReady, AsksReady};

use rapid_config::{ConfigError, Configuration, Params};
use rapid_endpoint::{Endpoint, ParseError, Process, ProcessId};
use rapid_text::{byte, is_plain, number, one_word, process, split_word, three_words};
use rapid_world::WorldEvent;
use std::alloc::{AllocError, Global};

/// What a command asks for.
#[derive(Debug, Drop)]
pub(crate) enum SimCommand {
    /// The numbers K, H and L, which may be out of order.
    Parameters(u8, u8, u8),
    /// The founding configuration of these founders.
    Found(Configuration),
    /// An event of the world, and how often it happens, from 1.
    Events(WorldEvent, u64),
    /// A start of a process with tags that are refused.
    WrongTags(ParseError),
    /// All that run lose the member of this identifier.
    Lose(ProcessId),
    /// A packet, from 1, is delivered.
    Deliver(u64),
    /// A packet, from 1, is settled.
    Drop(u64),
    /// Packets are delivered as long as there are any.
    Flow,
    /// How many packets were sent.
    Packets,
}

/// What a line asks for.
#[derive(Debug, Drop)]
pub(crate) enum SimAsked {
    /// Nothing: the line is skipped.
    Nothing,
    /// An unknown command.
    Unknown,
    /// A command.
    Taken(SimCommand),
}

/// The number from 1 to a limit that a word spells.
fn number_from_1(word: &[u8], limit: u64) -> Option<u64>
    ensures value { result ≡ number_from_1 limit word.now }
    ensures from_1 { IfSome result (λ n. 1 ≤ n) }
{
    match number(word, limit)? {
        0 => None,
        found => Some(found),
    }
}

/// The identifier that a word names, by a number from 1 to 65,535.
fn identifier(word: &[u8]) -> Option<ProcessId>
    ensures { result ≡ identifier_named word.now }
{
    let found = number_from_1(word, 65535)?;
    Some(ProcessId::new(u128::from(found).to_be_bytes()))
}

/// The endpoint at 127.0.0.1 that a word names, by a port from 0 to 65,535.
fn endpoint(word: &[u8]) -> Option<Endpoint>
    ensures { result ≡ endpoint_named word.now }
{
    let port = number(word, 65535)?;
    Some(Endpoint::new([127, 0, 0, 1], port as u16))
}

/// The result of a probe that a word names: whether it was answered.
fn probe_result(word: &[u8]) -> Option<bool>
    ensures { result ≡ result_named word.now }
{
    if word == b"ok".as_slice() {
        Some(true)
    } else if word == b"fail".as_slice() {
        Some(false)
    } else {
        None
    }
}

/// How often an event happens, by the words of a line: from 1 to 1,000 times, once if there are no
/// words.
fn count(line: &[u8]) -> Option<u64>
    ensures { result ≡ count_in (words line.now) }
{
    match split_word(line) {
        None => Some(1),
        Some(_) => number_from_1(one_word(line)?, 1000),
    }
}

/// The numbers K, H and L that the words of a line spell.
fn parameters(line: &[u8]) -> Option<SimCommand>
    ensures named { option_map command_of result ≡ option_map model.Parameters (marks_in (words line.now)) }
    ensures plain { IfSome result IsPlain }
{
    let (k, h, l) = three_words(line)?;
    Some(SimCommand::Parameters(byte(k)?, byte(h)?, byte(l)?))
}

/// The processes that the words of a line name, if each word names one.
fn all_named(alloc: Global, line: &[u8]) -> Result<Option<Vec<Process>>, AllocError>
    ensures { IfOk result (λ found. option_map (λ v. v.items) found ≡ all_named (words line.now)) }
{
    let mut found = Vec::new(alloc);
    let mut rest = line;
    while let Some((word, others)) = split_word(rest) {
        let Some(named) = process(word) else {
            return Ok(None);
        };
        found.push(named)?;
        rest = others;
    }
    Ok(Some(found))
}

/// The founding configuration of processes, if they can be its members.
fn founding_by(
    alloc: Global,
    params: Params,
    founders: &[Process],
) -> Result<Option<Configuration>, AllocError>
    requires { 0 < length founders.now }
    ensures { IfOk result (IsFoundingBy params founders.now) }
{
    match Configuration::seed(alloc, params, founders) {
        Ok(configuration) => Ok(Some(configuration)),
        Err(ConfigError::OutOfMemory) => Err(AllocError),
        Err(_) => Ok(None),
    }
}

/// The founding that the words of a line name: one founder or more, ascending.
fn found(alloc: Global, params: Params, line: &[u8]) -> Result<Option<SimCommand>, AllocError>
    ensures named { IfOk result (λ c. option_map command_of c ≡ found_in (words line.now)) }
    ensures ready { IfOk result (λ c. IfSome c (IsReady params)) }
{
    let Some(founders) = all_named(alloc, line)? else {
        return Ok(None);
    };
    if founders.is_empty() {
        return Ok(None);
    }
    match founding_by(alloc, params, founders.as_slice())? {
        Some(configuration) => Ok(Some(SimCommand::Found(configuration))),
        None => Ok(None),
    }
}

/// The words of a line.
fn words_of(alloc: Global, line: &[u8]) -> Result<Vec<&[u8]>, AllocError>
    ensures { IfOk result (λ found. map (λ word. word.now) found.items ≡ words line.now) }
{
    let mut found = Vec::new(alloc);
    let mut rest = line;
    while let Some((word, others)) = split_word(rest) {
        found.push(word)?;
        rest = others;
    }
    Ok(found)
}

/// The start of a process of these tags at an endpoint, which asks at another.
fn start_of(id: ProcessId, place: Endpoint, seed: Endpoint, tags: &[&[u8]]) -> SimCommand
    ensures named { command_of result ≡ model.start_unless (tags_refusal (map (λ tag. tag.now) tags.now)) (id ++ place ++ tags_bytes (map (λ tag. tag.now) tags.now)) seed }
    ensures plain { IsPlain result }
{
    match Process::tagged(id, place, tags) {
        Ok(process) => SimCommand::Events(WorldEvent::Start(process, seed), 1),
        Err(error) => SimCommand::WrongTags(error),
    }
}

/// The start that the words of a line name: a process, its port, the port of its seed, and its tags.
fn start(alloc: Global, line: &[u8]) -> Result<Option<SimCommand>, AllocError>
    ensures named { IfOk result (λ c. option_map command_of c ≡ start_in (words line.now)) }
    ensures plain { IfOk result (λ c. IfSome c IsPlain) }
{
    let Some((id, place, seed, rest)) = start_words(line) else {
        return Ok(None);
    };
    let tags = words_of(alloc, rest)?;
    Ok(Some(start_of(id, place, seed, tags.as_slice())))
}

/// The identifier of a process, its endpoint and that of its seed, by the first words of a line, and
/// what follows these.
fn start_words(line: &[u8]) -> Option<(ProcessId, Endpoint, Endpoint, &[u8])>
    ensures { option_map (λ x. model.start (Some x.0) (Some x.1) (Some x.2) (words x.3.now)) result ≡ option_map Some (start_in (words line.now)) }
{
    let (id, rest) = split_word(line)?;
    let (place, rest) = split_word(rest)?;
    let (seed, rest) = split_word(rest)?;
    Some((identifier(id)?, endpoint(place)?, endpoint(seed)?, rest))
}

/// The probe that the words of a line name: a node, a ring, a result, and perhaps how often.
fn probe(line: &[u8]) -> Option<SimCommand>
    ensures named { option_map command_of result ≡ probe_in (words line.now) }
    ensures plain { IfSome result IsPlain }
{
    let (id, rest) = split_word(line)?;
    let (ring, rest) = split_word(rest)?;
    let (outcome, rest) = split_word(rest)?;
    let event = WorldEvent::Probe(identifier(id)?, byte(ring)?, probe_result(outcome)?);
    Some(SimCommand::Events(event, count(rest)?))
}

/// The ticks that the words of a line name: a node, and perhaps how often.
fn tick(line: &[u8]) -> Option<SimCommand>
    ensures named { option_map command_of result ≡ tick_in (words line.now) }
    ensures plain { IfSome result IsPlain }
{
    let (id, rest) = split_word(line)?;
    let event = WorldEvent::Tick(identifier(id)?);
    Some(SimCommand::Events(event, count(rest)?))
}

/// The identifier that the word of a line names.
fn one_identifier(line: &[u8]) -> Option<ProcessId>
    ensures { result ≡ identifier_in (words line.now) }
{
    identifier(one_word(line)?)
}

/// The packet that the word of a line names, by its number from 1.
fn one_packet(line: &[u8]) -> Option<u64>
    ensures value { result ≡ packet_in (words line.now) }
    ensures from_1 { IfSome result (λ n. 1 ≤ n) }
{
    number_from_1(one_word(line)?, u64::MAX)
}

/// A command, if no words follow its name.
fn alone(command: SimCommand, line: &[u8]) -> Option<SimCommand>
    ensures { option_map command_of result ≡ model.alone (command_of command) (words line.now) }
{
    match split_word(line) {
        Some(_) => None,
        None => Some(command),
    }
}

/// The command of a name and the words after it, but for a founding and a start.
fn plain_command(name: &[u8], rest: &[u8]) -> Option<SimCommand>
    requires found { bytes_eq name.now (codes "found") ≡ false }
    requires start { bytes_eq name.now (codes "start") ≡ false }
    ensures named { option_map command_of result ≡ command_named name.now (words rest.now) }
    ensures plain { IfSome result IsPlain }
{
    if name == b"params".as_slice() {
        parameters(rest)
    } else if name == b"probe".as_slice() {
        probe(rest)
    } else if name == b"lose".as_slice() {
        Some(SimCommand::Lose(one_identifier(rest)?))
    } else if name == b"tick".as_slice() {
        tick(rest)
    } else if name == b"deliver".as_slice() {
        Some(SimCommand::Deliver(one_packet(rest)?))
    } else if name == b"drop".as_slice() {
        Some(SimCommand::Drop(one_packet(rest)?))
    } else if name == b"flow".as_slice() {
        alone(SimCommand::Flow, rest)
    } else if name == b"crash".as_slice() {
        Some(SimCommand::Events(WorldEvent::Crash(one_identifier(rest)?), 1))
    } else if name == b"leave".as_slice() {
        Some(SimCommand::Events(WorldEvent::Leave(one_identifier(rest)?), 1))
    } else if name == b"packets".as_slice() {
        alone(SimCommand::Packets, rest)
    } else {
        None
    }
}

/// The command of a name and the words after it.
fn command_by(
    alloc: Global,
    params: Params,
    name: &[u8],
    rest: &[u8],
) -> Result<Option<SimCommand>, AllocError>
    ensures named { IfOk result (λ c. option_map command_of c ≡ command_named name.now (words rest.now)) }
    ensures ready { IfOk result (λ c. IfSome c (IsReady params)) }
{
    if name == b"found".as_slice() {
        found(alloc, params, rest)
    } else if name == b"start".as_slice() {
        start(alloc, rest)
    } else {
        Ok(plain_command(name, rest))
    }
}

/// What a line asks for. A founding has these parameters.
#[tactic(auto, unfolding(rapid_model::specs::SimText::asked))]
pub(crate) fn read_line(alloc: Global, params: Params, line: &[u8]) -> Result<SimAsked, AllocError>
    ensures named { IfOk result (λ a. asked_of a ≡ asked line.now) }
    ensures ready { IfOk result (AsksReady params) }
{
    if !is_plain(line) {
        return Ok(SimAsked::Unknown);
    }
    if let [b'#', ..] = line {
        return Ok(SimAsked::Nothing);
    }
    let Some((name, rest)) = split_word(line) else {
        return Ok(SimAsked::Nothing);
    };
    match command_by(alloc, params, name, rest)? {
        Some(command) => Ok(SimAsked::Taken(command)),
        None => Ok(SimAsked::Unknown),
    }
}
