// What a process can say.

ghost use Rattle.std.specs.Prelude.{◌≡◌, None, All, OnOk, IfErr};
ghost use Rattle.rapid_model.specs.Ballot.{IsClassicBallot, fast_ballot};
ghost use Rattle.rapid_model.specs.Batch.{batch_fault};
ghost use Rattle.rapid_join.specs.Answers.{NamesObservers};
ghost use Rattle.rapid_message.specs.Bodies.{IsFrom, CanSay, CannotSay};
ghost use Rattle.rapid_message.specs.declared.message.Body.TheVariants.{Batch as SaysBatch};
ghost use Rattle.rapid_message.specs.declared.error.MessageError.TheVariants.{FastBallot as IsFast, NoObserver as NamesNone};

use crate::{Body, MessageError};
use rapid_alerts::Batch;
use rapid_config::ConfigId;
use rapid_endpoint::Process;
use rapid_join::Reply;
use rapid_paxos::Ballot;

/// A batch has an alert. It does nothing: what it ensures is for proofs.
#[inline(always)]
fn tell_batch(batch: &Batch)
    ensures { batch_fault batch.now ≡ None }
{
    let _ = batch.alerts();
}

/// Whether a batch has the sender's alerts for this configuration.
#[tactic(auto, using(crate::proofs::Batches::all_from, crate::proofs::Batches::all_own, crate::proofs::Batches::others, crate::proofs::Batches::elsewhere))]
fn check_batch(sender: &Process, id: ConfigId, batch: &Batch) -> Result<(), MessageError>
    ensures said { OnOk result (All (IsFrom sender.now id) batch.now) }
    ensures refused { IfErr result (CannotSay sender.now (SaysBatch id batch.now)) }
{
    tell_batch(batch);
    if *batch.observer() != *sender {
        Err(MessageError::OtherObserver)
    } else if batch.config() != id {
        Err(MessageError::OtherConfiguration)
    } else {
        Ok(())
    }
}

/// Whether a ballot is a classic one.
fn check_ballot(ballot: Ballot) -> Result<(), MessageError>
    ensures said { OnOk result (IsClassicBallot ballot) }
    ensures refused { IfErr result (λ e. (e ≡ IsFast) × (ballot ≡ fast_ballot)) }
{
    if ballot == Ballot::FAST {
        Err(MessageError::FastBallot)
    } else {
        Ok(())
    }
}

/// Whether a reply that says Safe names an observer.
fn check_reply(reply: &Reply) -> Result<(), MessageError>
    ensures said { OnOk result (NamesObservers reply.now) }
    ensures refused { IfErr result (λ e. (e ≡ NamesNone) × (NamesObservers reply.now → ⊥)) }
{
    match reply {
        Reply::Safe(_, observers) => {
            if observers.as_slice().is_empty() {
                Err(MessageError::NoObserver)
            } else {
                Ok(())
            }
        }
        Reply::EndpointInUse | Reply::ConfigurationChanged | Reply::TooManyJoiners => Ok(()),
    }
}

/// Whether the sender can say this.
pub(crate) fn check(sender: &Process, body: &Body) -> Result<(), MessageError>
    ensures said { OnOk result (CanSay sender.now body.now) }
    ensures refused { IfErr result (CannotSay sender.now body.now) }
{
    match body {
        Body::Batch(id, batch) => check_batch(sender, *id, batch),
        Body::Prepare(_, ballot)
        | Body::Promise(_, ballot, _)
        | Body::Accept(_, ballot, _)
        | Body::Accepted(_, ballot, _) => check_ballot(*ballot),
        Body::Reply(_, reply) => check_reply(reply),
        Body::FastVote(..)
        | Body::Decision(..)
        | Body::PreJoin
        | Body::JoinRequest(..)
        | Body::Confirm(_)
        | Body::Probe(_)
        | Body::ProbeAck(_)
        | Body::Leave(..) => Ok(()),
    }
}
