// What is known of the parts of messages. These functions do nothing: what they ensure is for
// proofs.

ghost use Rattle.std.specs.Prelude.{◌≡◌, All, map};
ghost use Rattle.rapid_model.specs.Process.{IsProcess};
ghost use Rattle.rapid_model.specs.Message.{item_of};
ghost use Rattle.rapid_model.specs.Frame.{IsItem, IsAnswer, IsBody, IsMessage, IsReport, IsBatch};
ghost use Rattle.rapid_alerts.specs.Alerts.{alert_of_ref, alerts_in};
ghost use Rattle.rapid_paxos.specs.Reported.{last_of};
ghost use Rattle.rapid_join.specs.Answers.{NamesObservers, answer_of};
ghost use Rattle.rapid_message.specs.Bodies.{CanSay, body_of};

use rapid_alerts::{AlertList, AlertRef, Batch};
use rapid_config::Cut;
use rapid_endpoint::Process;
use rapid_join::Reply;
use rapid_message::{Body, Message};
use rapid_paxos::Ballot;

/// Each value is a process.
#[inline(always)]
fn tell_processes(processes: &[Process])
    ensures { All IsProcess processes.now }
{
    for process in processes {
        process.tell();
    }
}

/// What an alert says can be spelt.
#[inline(always)]
fn tell_alert(alert: &AlertRef<'_>)
    ensures { IsItem (item_of (alert_of_ref alert.now)) }
{
    let _ring = alert.ring;
    alert.subject.tell();
}

/// What each alert says can be spelt.
#[inline(always)]
fn tell_alerts(alerts: &AlertList)
    ensures { All (λ a. IsItem (item_of a)) (alerts_in alerts.now) }
{
    for at in 0..alerts.len() {
        tell_alert(&alerts.alert_ref(at));
    }
}

/// A batch can be spelt.
#[inline(always)]
fn tell_batch(batch: &Batch)
    ensures { IsBatch (map item_of batch.now) }
{
    tell_alerts(batch.alerts());
}

/// A reported vote can be spelt.
#[inline(always)]
fn tell_report(vote: &Option<(Ballot, Cut)>)
    ensures { IsReport (last_of vote.now) }
{
    if let Some((ballot, cut)) = vote {
        let _round = ballot.round();
        cut.tell();
    }
}

/// An answer can be spelt.
#[inline(always)]
fn tell_answer(answer: &Reply)
    requires { NamesObservers answer.now }
    ensures { IsAnswer (answer_of answer.now) }
{
    match answer {
        Reply::Safe(id, observers) => {
            id.tell();
            tell_processes(observers.as_slice());
        }
        Reply::EndpointInUse | Reply::ConfigurationChanged | Reply::TooManyJoiners => {}
    }
}

/// A body can be spelt.
#[inline(always)]
fn tell_body(sender: &Process, body: &Body)
    requires { CanSay sender.now body.now }
    ensures { IsBody (body_of body.now) }
{
    match body {
        Body::Batch(id, batch) => {
            id.tell();
            tell_batch(batch);
        }
        Body::FastVote(id, cut) | Body::Decision(id, cut) => {
            id.tell();
            cut.tell();
        }
        Body::Promise(id, _, vote) => {
            id.tell();
            tell_report(vote);
        }
        Body::Accept(id, _, cut) | Body::Accepted(id, _, cut) => {
            id.tell();
            cut.tell();
        }
        Body::Reply(joiner, answer) => {
            joiner.get().tell();
            tell_answer(answer);
        }
        Body::JoinRequest(id, ring) | Body::Leave(id, ring) => {
            id.tell();
            let _ring = *ring;
        }
        Body::Confirm(configuration) => configuration.tell(),
        Body::Prepare(id, _) | Body::Probe(id) | Body::ProbeAck(id) => id.tell(),
        Body::PreJoin => {}
    }
}

/// A message can be spelt.
#[inline(always)]
pub(crate) fn tell_message(message: &Message)
    ensures { IsMessage message.now }
{
    let sender = message.sender();
    sender.tell();
    tell_body(sender, message.body());
}
