// How the parts of frames are written. Each function adds the bytes of one part.

ghost use Rattle.std.specs.Prelude.{◌≡◌, ◌++◌, ◌≤◌, length, map, OnOk};
ghost use Rattle.std.specs.List.{concat};
ghost use Rattle.rapid_model.specs.Cut.{cut_bytes};
ghost use Rattle.rapid_model.specs.Message.{item_of};
ghost use Rattle.rapid_model.specs.Frame.{kind_byte, item_bytes, ballot_bytes, report_bytes, answer_bytes, body_bytes, kind_number};
ghost use Rattle.std.specs.Int.{w16, to_be_bytes};
ghost use Rattle.rapid_alerts.specs.Alerts.{alert_of_ref, alerts_in, kind_of};
ghost use Rattle.rapid_paxos.specs.Reported.{last_of};
ghost use Rattle.rapid_join.specs.Answers.{answer_of};
ghost use Rattle.rapid_message.specs.Bodies.{body_of};

use crate::numbers::two_bytes;
use rapid_alerts::{AlertList, AlertRef, Batch, Kind};
use rapid_config::{ConfigId, Cut};
use rapid_endpoint::Process;
use rapid_join::Reply;
use rapid_message::Body;
use rapid_paxos::Ballot;
use std::alloc::{AllocError, Global};

/// An identifier of a configuration.
fn put_id(out: &mut Vec<u8>, id: &ConfigId) -> Result<(), AllocError>
    ensures { OnOk result (out.new.items ≡ out.old.items ++ id.now) }
{
    out.extend_from_slice(&id.bytes())
}

/// Processes, one after another.
fn put_processes(out: &mut Vec<u8>, processes: &[Process]) -> Result<(), AllocError>
    ensures { OnOk result (out.new.items ≡ out.old.items ++ concat processes.now) }
{
    for process in processes {
        process.append_to(out)?;
    }
    Ok(())
}

/// A cut: the number of its processes, then each.
fn put_cut(out: &mut Vec<u8>, cut: &Cut) -> Result<(), AllocError>
    ensures { OnOk result (out.new.items ≡ out.old.items ++ cut_bytes cut.now) }
{
    let processes = cut.processes();
    let count = processes.len() as u16;
    out.extend_from_slice(&two_bytes(count))?;
    processes.append_to(out)
}

/// A ballot: its round in one byte, its position in two.
fn put_ballot(out: &mut Vec<u8>, ballot: &Ballot) -> Result<(), AllocError>
    ensures { OnOk result (out.new.items ≡ out.old.items ++ ballot_bytes ballot.now) }
{
    let position = ballot.position() as u16;
    out.push(ballot.round())?;
    out.extend_from_slice(&two_bytes(position))
}

/// The byte of a kind.
fn byte_of_kind(kind: Kind) -> u8
    ensures { result ≡ kind_byte (kind_of kind) }
{
    match kind {
        Kind::Remove => 1,
        Kind::Join => 2,
    }
}

/// An alert of a batch.
fn put_alert(out: &mut Vec<u8>, alert: &AlertRef<'_>) -> Result<(), AllocError>
    ensures { OnOk result (out.new.items ≡ out.old.items ++ item_bytes (item_of (alert_of_ref alert.now))) }
{
    out.extend_from_slice(&[alert.ring, byte_of_kind(alert.kind)])?;
    alert.subject.append_to(out)
}

/// Alerts, one after another.
fn put_alerts(out: &mut Vec<u8>, alerts: &AlertList) -> Result<(), AllocError>
    ensures { OnOk result (out.new.items ≡ out.old.items ++ concat (map item_bytes (map item_of (alerts_in alerts.now)))) }
{
    for at in 0..alerts.len() {
        put_alert(out, &alerts.alert_ref(at))?;
    }
    Ok(())
}

/// The number of a batch's alerts, then each.
fn put_batch(out: &mut Vec<u8>, batch: &Batch) -> Result<(), AllocError>
    ensures { OnOk result
        (out.new.items ≡ out.old.items ++ (to_be_bytes w16 (length (map item_of batch.now)) ++ concat (map item_bytes (map item_of batch.now)))) }
{
    let alerts = batch.alerts();
    let count = alerts.len() as u16;
    out.extend_from_slice(&two_bytes(count))?;
    put_alerts(out, alerts)
}

/// The vote that a promise reports, or none.
fn put_report(out: &mut Vec<u8>, vote: &Option<(Ballot, Cut)>) -> Result<(), AllocError>
    ensures { OnOk result (out.new.items ≡ out.old.items ++ report_bytes (last_of vote.now)) }
{
    match vote {
        None => Ok(out.push(0)?),
        Some((ballot, cut)) => {
            out.push(1)?;
            put_ballot(out, ballot)?;
            put_cut(out, cut)
        }
    }
}

/// An answer to a joiner.
fn put_answer(out: &mut Vec<u8>, answer: &Reply) -> Result<(), AllocError>
    ensures { OnOk result (out.new.items ≡ out.old.items ++ answer_bytes (answer_of answer.now)) }
{
    match answer {
        Reply::Safe(id, observers) => {
            let processes = observers.as_slice();
            let count = processes.len() as u8;
            out.push(1)?;
            put_id(out, id)?;
            out.push(count)?;
            put_processes(out, processes)
        }
        Reply::EndpointInUse => Ok(out.push(2)?),
        Reply::ConfigurationChanged => Ok(out.push(3)?),
        Reply::TooManyJoiners => Ok(out.push(4)?),
    }
}

/// An identifier, a ballot and a cut.
fn put_choice(
    out: &mut Vec<u8>,
    id: &ConfigId,
    ballot: &Ballot,
    cut: &Cut,
) -> Result<(), AllocError>
    ensures { OnOk result (out.new.items ≡ out.old.items ++ (id.now ++ ballot_bytes ballot.now ++ cut_bytes cut.now)) }
{
    put_id(out, id)?;
    put_ballot(out, ballot)?;
    put_cut(out, cut)
}

/// What follows the sender.
pub(crate) fn put_body(alloc: Global, out: &mut Vec<u8>, body: &Body) -> Result<(), AllocError>
    ensures { OnOk result (out.new.items ≡ out.old.items ++ body_bytes (body_of body.now)) }
{
    match body {
        Body::Batch(id, batch) => {
            put_id(out, id)?;
            put_batch(out, batch)
        }
        Body::FastVote(id, cut) | Body::Decision(id, cut) => {
            put_id(out, id)?;
            put_cut(out, cut)
        }
        Body::Prepare(id, ballot) => {
            put_id(out, id)?;
            put_ballot(out, ballot)
        }
        Body::Promise(id, ballot, vote) => {
            put_id(out, id)?;
            put_ballot(out, ballot)?;
            put_report(out, vote)
        }
        Body::Accept(id, ballot, cut) | Body::Accepted(id, ballot, cut) => {
            put_choice(out, id, ballot, cut)
        }
        Body::PreJoin => Ok(()),
        Body::Reply(joiner, answer) => {
            joiner.get().append_to(out)?;
            put_answer(out, answer)
        }
        Body::JoinRequest(id, ring) | Body::Leave(id, ring) => {
            put_id(out, id)?;
            Ok(out.push(*ring)?)
        }
        Body::Confirm(configuration) => {
            out.extend_from_slice(configuration.to_bytes(alloc)?.as_slice())
        }
        Body::Probe(id) | Body::ProbeAck(id) => put_id(out, id),
    }
}
