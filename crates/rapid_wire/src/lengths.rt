// How long frames are.

ghost use Rattle.std.specs.Prelude.{◌≡◌, ◌+◌, ◌*◌, ◌≤◌, length, map};
ghost use Rattle.std.specs.List.{concat};
ghost use Rattle.rapid_model.specs.Configuration.{configuration_bytes};
ghost use Rattle.rapid_model.specs.Cut.{cut_bytes};
ghost use Rattle.rapid_model.specs.Message.{item_of};
ghost use Rattle.rapid_model.specs.Frame.{IsAnswer, IsBody, IsMessage, answer_bytes, body_bytes, frame, item_bytes, report_bytes};
ghost use Rattle.rapid_model.specs.Limits.{most_alerts, most_in_cut};
ghost use Rattle.rapid_alerts.specs.Alerts.{alerts_in};
ghost use Rattle.rapid_join.specs.Answers.{answer_of};
ghost use Rattle.rapid_message.specs.Bodies.{body_of};
ghost use Rattle.rapid_paxos.specs.Reported.{last_of};

use crate::reading::ID_BYTES;
use rapid_alerts::{AlertList, Batch};
use rapid_config::{Configuration, Cut};
use rapid_endpoint::Process;
use rapid_join::Reply;
use rapid_message::{Body, Message};
use rapid_paxos::Ballot;

/// The bytes of a ring and a kind.
const MARK_BYTES: usize = 2;

/// The bytes of a ballot.
const BALLOT_BYTES: usize = 3;

/// The bytes of a configuration before its members.
const HEAD_BYTES: usize = 49;

/// The bytes before the sender: the length, the version and the kind.
const OPENING_BYTES: usize = 6;

/// The bytes of processes.
fn processes_length(processes: &[Process]) -> usize
    requires { length processes.now ≤ most_in_cut }
    ensures value { result ≡ length (concat processes.now) }
    ensures few { result ≤ 543 * length processes.now }
{
    let mut bytes = 0;
    for process in processes {
        bytes += process.length();
    }
    bytes
}

/// The bytes of a cut.
#[tactic(auto, using(crate::proofs::Sizes::cut_length_is, crate::proofs::Sizes::processes_few))]
fn cut_length(cut: &Cut) -> usize
    ensures value { result ≡ length (cut_bytes cut.now) }
    ensures few { result ≤ 834050 }
{
    let processes = cut.processes();
    processes.tell();
    2 + processes.bytes_len()
}

/// The bytes of alerts.
fn alerts_length(alerts: &AlertList) -> usize
    requires { length (alerts_in alerts.now) ≤ most_alerts }
    ensures value { result ≡ length (concat (map item_bytes (map item_of (alerts_in alerts.now)))) }
    ensures few { result ≤ 545 * length (alerts_in alerts.now) }
{
    let mut bytes = 0;
    for at in 0..alerts.len() {
        bytes += MARK_BYTES + alerts.alert_ref(at).subject.length();
    }
    bytes
}

/// The bytes of what a batch says after its configuration's identifier.
fn batch_length(batch: &Batch) -> usize
    ensures value { result ≡ 2 + length (concat (map item_bytes (map item_of batch.now))) }
    ensures few { result ≤ 1116162 }
{
    2 + alerts_length(batch.alerts())
}

/// The bytes of the vote that a promise reports, or of none.
#[tactic(auto, using(crate::proofs::Sizes::report_length_is))]
fn report_length(vote: &Option<(Ballot, Cut)>) -> usize
    ensures value { result ≡ length (report_bytes (last_of vote.now)) }
    ensures few { result ≤ 834054 }
{
    match vote {
        Some((_, cut)) => 1 + BALLOT_BYTES + cut_length(cut),
        None => 1,
    }
}

/// The bytes of an answer to a joiner.
#[tactic(auto, using(crate::proofs::Sizes::safe_length_is))]
fn answer_length(answer: &Reply) -> usize
    requires { IsAnswer (answer_of answer.now) }
    ensures value { result ≡ length (answer_bytes (answer_of answer.now)) }
    ensures few { result ≤ 8722 }
{
    match answer {
        Reply::Safe(_, observers) => 2 + ID_BYTES + processes_length(observers.as_slice()),
        Reply::EndpointInUse | Reply::ConfigurationChanged | Reply::TooManyJoiners => 1,
    }
}

/// The bytes of a configuration.
#[tactic(auto, using(crate::proofs::Sizes::configuration_length_is))]
pub(crate) fn configuration_length(configuration: &Configuration) -> usize
    ensures value { result ≡ length (configuration_bytes configuration.now) }
    ensures few { result ≤ 556081 }
{
    configuration.tell();
    HEAD_BYTES + processes_length(configuration.members())
}

/// The bytes of a body.
#[tactic(auto, using(crate::proofs::Sizes::batch_body, crate::proofs::Sizes::id_and, crate::proofs::Sizes::id_ballot_and))]
fn body_length(body: &Body) -> usize
    requires { IsBody (body_of body.now) }
    ensures value { result ≡ length (body_bytes (body_of body.now)) }
    ensures few { result ≤ 1116194 }
{
    match body {
        Body::Batch(_, batch) => ID_BYTES + batch_length(batch),
        Body::FastVote(_, cut) | Body::Decision(_, cut) => ID_BYTES + cut_length(cut),
        Body::Prepare(..) => ID_BYTES + BALLOT_BYTES,
        Body::Promise(_, _, vote) => ID_BYTES + BALLOT_BYTES + report_length(vote),
        Body::Accept(_, _, cut) | Body::Accepted(_, _, cut) => {
            ID_BYTES + BALLOT_BYTES + cut_length(cut)
        }
        Body::PreJoin => 0,
        Body::Reply(joiner, answer) => joiner.get().length() + answer_length(answer),
        Body::JoinRequest(..) | Body::Leave(..) => ID_BYTES + 1,
        Body::Confirm(configuration) => configuration_length(configuration),
        Body::Probe(_) | Body::ProbeAck(_) => ID_BYTES,
    }
}

/// The bytes of the frame of a message.
#[tactic(auto, using(crate::proofs::Sizes::frame_length_is))]
pub(crate) fn frame_length(message: &Message) -> usize
    requires { IsMessage message.now }
    ensures { result ≡ length (frame message.now) }
{
    OPENING_BYTES + message.sender().length() + body_length(message.body())
}
