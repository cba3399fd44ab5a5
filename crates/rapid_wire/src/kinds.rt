// What messages say, by kind.

ghost use Rattle.std.specs.Prelude.{◌≡◌, true, Some, IfOk, IfSome};
ghost use Rattle.rapid_model.specs.Ballot.{IsClassicBallot};
ghost use Rattle.rapid_model.specs.Configuration.{configuration_bytes};
ghost use Rattle.rapid_model.specs.Process as process;
ghost use Rattle.rapid_model.specs.Message as model;
ghost use Rattle.rapid_message.specs.Bodies.{CanSay, body_of};
ghost use Rattle.rapid_wire.specs.Faults.{Gives};
ghost use Rattle.rapid_wire.specs.Kinds.{number_of};
ghost use Rattle.rapid_wire.specs.Reading.{both, made, all_of, byte_at, process_at, id_at, cut_at, classic_at, report_at, items_at, answer_at, choice_at, confirmed_in, body_in};

use crate::WireFault;
use crate::kind::FrameKind;
use crate::lengths::configuration_length;
use crate::reading::{
    ID_BYTES, classic_of, ended, id_in, read_answer, read_batch, read_byte, read_cut, read_front,
    read_numbers, read_report, read_shared,
};
use rapid_config::{ConfigError, ConfigId, Configuration, Cut};
use rapid_endpoint::SharedProcess;
use rapid_message::Body;
use rapid_paxos::Ballot;
use std::alloc::{AllocError, Global};

/// An identifier.
#[tactic(auto, unfolding(crate::specs::Reading::id_at))]
fn read_id(bytes: &[u8]) -> Result<ConfigId, WireFault>
    ensures { Gives (λ x. x) result (all_of id_at bytes.now) }
{
    let (front, rest) = read_front(bytes, ID_BYTES)?;
    ended(rest)?;
    Ok(id_in(front))
}

/// A batch of this observer.
#[tactic(auto, unfolding(crate::specs::Reading::id_at))]
fn read_batch_body(alloc: Global, sender: &SharedProcess, bytes: &[u8]) -> Result<Body, WireFault>
    ensures value { Gives body_of result (all_of (made (λ x. model.Batch x.0 x.1) (both id_at items_at)) bytes.now) }
    ensures said { IfOk result (CanSay sender.now) }
{
    let (front, rest) = read_front(bytes, ID_BYTES)?;
    let id = id_in(front);
    let batch = read_batch(alloc, sender, id, rest)?;
    Ok(Body::Batch(id, batch))
}

/// An identifier and a cut.
#[tactic(auto, unfolding(crate::specs::Reading::id_at))]
fn read_decided(alloc: Global, bytes: &[u8]) -> Result<(ConfigId, Cut), WireFault>
    ensures { Gives (λ x. x) result (all_of (both id_at cut_at) bytes.now) }
{
    let (front, rest) = read_front(bytes, ID_BYTES)?;
    let cut = read_cut(alloc, rest)?;
    Ok((id_in(front), cut))
}

/// An identifier and a classic ballot.
#[tactic(auto, unfolding(crate::specs::Reading::id_at, crate::specs::Reading::classic_at))]
fn read_prepare(bytes: &[u8]) -> Result<(ConfigId, Ballot), WireFault>
    ensures value { Gives (λ x. x) result (all_of (both id_at classic_at) bytes.now) }
    ensures classic { IfOk result (λ x. IsClassicBallot x.1) }
{
    let (front, rest) = read_front(bytes, ID_BYTES)?;
    let (round, position, rest) = read_numbers(rest)?;
    let ballot = classic_of(round, position)?;
    ended(rest)?;
    Ok((id_in(front), ballot))
}

/// An identifier, a classic ballot and the vote that a promise reports.
#[tactic(auto, unfolding(crate::specs::Reading::id_at, crate::specs::Reading::classic_at))]
fn read_promise(alloc: Global, bytes: &[u8]) -> Result<Body, WireFault>
    ensures value { Gives body_of result
        (all_of (made (λ x. model.Promise x.0.0 x.0.1 x.1) (both (both id_at classic_at) report_at)) bytes.now) }
    ensures said { IfOk result (λ b. (sender : process.Process) → CanSay sender b) }
{
    let (front, rest) = read_front(bytes, ID_BYTES)?;
    let (round, position, rest) = read_numbers(rest)?;
    let ballot = classic_of(round, position)?;
    let vote = read_report(alloc, rest)?;
    Ok(Body::Promise(id_in(front), ballot, vote))
}

/// An identifier, a classic ballot and a cut.
#[tactic(auto, unfolding(crate::specs::Reading::id_at, crate::specs::Reading::classic_at, crate::specs::Reading::choice_at))]
fn read_choice(alloc: Global, bytes: &[u8]) -> Result<(ConfigId, Ballot, Cut), WireFault>
    ensures value { Gives (λ x. ((x.0, x.1), x.2)) result (all_of choice_at bytes.now) }
    ensures classic { IfOk result (λ x. IsClassicBallot x.1) }
{
    let (front, rest) = read_front(bytes, ID_BYTES)?;
    let (round, position, rest) = read_numbers(rest)?;
    let ballot = classic_of(round, position)?;
    let cut = read_cut(alloc, rest)?;
    Ok((id_in(front), ballot, cut))
}

/// A joiner and what a host answers it.
fn read_reply(alloc: Global, bytes: &[u8]) -> Result<Body, WireFault>
    ensures value { Gives body_of result (all_of (made (λ x. model.Reply x.0 x.1) (both process_at answer_at)) bytes.now) }
    ensures said { IfOk result (λ b. (sender : process.Process) → CanSay sender b) }
{
    let (joiner, length) = read_shared(alloc, None, bytes)?;
    let answer = read_answer(alloc, &bytes[length..])?;
    Ok(Body::Reply(joiner, answer))
}

/// An identifier and a ring.
#[tactic(auto, unfolding(crate::specs::Reading::id_at))]
fn read_request(bytes: &[u8]) -> Result<(ConfigId, u8), WireFault>
    ensures { Gives (λ x. x) result (all_of (both id_at byte_at) bytes.now) }
{
    let (front, rest) = read_front(bytes, ID_BYTES)?;
    let (ring, rest) = read_byte(rest)?;
    ended(rest)?;
    Ok((id_in(front), ring))
}

/// Whether two lists have the same bytes.
fn are_same(a: &[u8], b: &[u8]) -> bool
    ensures { result ≡ true → a.now ≡ b.now }
{
    a == b
}

/// Whether these bytes are the spelling of the configuration.
fn is_spelt(alloc: Global, configuration: &Configuration, bytes: &[u8]) -> Result<bool, AllocError>
    ensures { IfOk result (λ r. r ≡ true → configuration_bytes configuration.now ≡ bytes.now) }
{
    if bytes.len() != configuration_length(configuration) {
        return Ok(false);
    }
    let spelt = configuration.to_bytes(alloc)?;
    Ok(are_same(spelt.as_slice(), bytes))
}

/// The configuration near, shared, if these bytes are its spelling.
#[tactic(auto, using(crate::proofs::Spelt::near_again))]
fn take_near(
    alloc: Global,
    near: Option<&Configuration>,
    bytes: &[u8],
) -> Result<Option<Configuration>, AllocError>
    ensures { IfOk result (λ o. IfSome o (λ c. confirmed_in bytes.now ≡ Some (model.Confirm c))) }
{
    let Some(configuration) = near else {
        return Ok(None);
    };
    configuration.tell();
    if !is_spelt(alloc, configuration, bytes)? {
        return Ok(None);
    }
    Ok(Some(configuration.try_copy(alloc)?))
}

/// A configuration. If it is the one near, it is shared, and neither checked nor hashed again.
#[tactic(auto, unfolding(crate::specs::Reading::confirmed_in))]
fn read_confirm(
    alloc: Global,
    near: Option<&Configuration>,
    bytes: &[u8],
) -> Result<Body, WireFault>
    ensures value { Gives body_of result (confirmed_in bytes.now) }
    ensures said { IfOk result (λ b. (sender : process.Process) → CanSay sender b) }
{
    if let Some(configuration) = take_near(alloc, near, bytes)? {
        return Ok(Body::Confirm(configuration));
    }
    match Configuration::from_bytes(alloc, bytes) {
        Ok(configuration) => Ok(Body::Confirm(configuration)),
        Err(ConfigError::OutOfMemory) => Err(WireFault::OutOfMemory),
        Err(_) => Err(WireFault::BadBody),
    }
}

/// What a message of this kind from this sender says. A configuration may be near.
#[tactic(auto, unfolding(crate::specs::Reading::body_in))]
pub(crate) fn read_body(
    alloc: Global,
    near: Option<&Configuration>,
    sender: &SharedProcess,
    kind: FrameKind,
    bytes: &[u8],
) -> Result<Body, WireFault>
    ensures value { Gives body_of result (body_in (number_of kind) bytes.now) }
    ensures said { IfOk result (CanSay sender.now) }
{
    match kind {
        FrameKind::Batch => read_batch_body(alloc, sender, bytes),
        FrameKind::FastVote => {
            let (id, cut) = read_decided(alloc, bytes)?;
            Ok(Body::FastVote(id, cut))
        }
        FrameKind::Prepare => {
            let (id, ballot) = read_prepare(bytes)?;
            Ok(Body::Prepare(id, ballot))
        }
        FrameKind::Promise => read_promise(alloc, bytes),
        FrameKind::Accept => {
            let (id, ballot, cut) = read_choice(alloc, bytes)?;
            Ok(Body::Accept(id, ballot, cut))
        }
        FrameKind::Accepted => {
            let (id, ballot, cut) = read_choice(alloc, bytes)?;
            Ok(Body::Accepted(id, ballot, cut))
        }
        FrameKind::Decision => {
            let (id, cut) = read_decided(alloc, bytes)?;
            Ok(Body::Decision(id, cut))
        }
        FrameKind::PreJoin => {
            ended(bytes)?;
            Ok(Body::PreJoin)
        }
        FrameKind::Reply => read_reply(alloc, bytes),
        FrameKind::JoinRequest => {
            let (id, ring) = read_request(bytes)?;
            Ok(Body::JoinRequest(id, ring))
        }
        FrameKind::Confirm => read_confirm(alloc, near, bytes),
        FrameKind::Probe => Ok(Body::Probe(read_id(bytes)?)),
        FrameKind::ProbeAck => Ok(Body::ProbeAck(read_id(bytes)?)),
        FrameKind::Leave => {
            let (id, ring) = read_request(bytes)?;
            Ok(Body::Leave(id, ring))
        }
    }
}
