// What messages say, as far as the tests tell them apart.

use rapid_config::Cut;
use rapid_endpoint::Endpoint;
use rapid_join::Reply;
use rapid_message::{Body, Destination};
use rapid_paxos::Ballot;

/// A ballot: its round and the position of its coordinator.
pub type Round = (u8, usize);

/// What a message says. A cut of one process is the number of that process, and any other is 0.
#[derive(Clone, Copy, Debug, PartialEq, Eq)]
pub enum Said {
    /// This many alerts.
    Batch(usize),
    /// A fast vote.
    Vote(u16),
    /// A question for promises.
    Prepare(Round),
    /// A promise, with the cut voted for in the fast round.
    Promise(Round, Option<u16>),
    /// A request to vote.
    Accept(Round, u16),
    /// A notice of a vote.
    Accepted(Round, u16),
    /// A decided cut.
    Decision(u16),
    /// A wish to join.
    PreJoin,
    /// An answer that names this many observers.
    Safe(usize),
    /// An answer that the identifier or the endpoint is held.
    EndpointInUse,
    /// An answer that the configuration is another one.
    ConfigurationChanged,
    /// An answer that too many wait.
    TooManyJoiners,
    /// A request to an observer on this ring.
    JoinRequest(u8),
    /// A configuration of this many members.
    Confirm(usize),
    /// A probe.
    Probe,
    /// The answer to a probe.
    ProbeAck,
    /// A wish to leave, to an observer on this ring.
    Leave(u8),
}

/// To whom a message goes.
#[derive(Clone, Copy, Debug, PartialEq, Eq)]
pub enum To {
    /// The node at this port.
    Node(u16),
    /// The other members.
    Others,
}

/// The number of the only process of a cut, and 0 if there are more.
fn only(cut: &Cut) -> u16 {
    let mut processes = cut.processes().iter();
    match (processes.next(), processes.next()) {
        (Some(only), None) => only.endpoint().port(),
        _ => 0,
    }
}

/// A ballot.
fn round(ballot: &Ballot) -> Round {
    (ballot.round(), ballot.position())
}

/// What an answer to a joiner says.
fn answered(answer: &Reply) -> Said {
    match answer {
        Reply::Safe(_, observers) => Said::Safe(observers.as_slice().len()),
        Reply::EndpointInUse => Said::EndpointInUse,
        Reply::ConfigurationChanged => Said::ConfigurationChanged,
        Reply::TooManyJoiners => Said::TooManyJoiners,
    }
}

/// The cut of a vote in the fast round.
fn fast_vote(vote: &Option<(Ballot, Cut)>) -> Option<u16> {
    match vote {
        Some((ballot, cut)) if *ballot == Ballot::FAST => Some(only(cut)),
        _ => None,
    }
}

/// What a message says.
pub fn said_by(body: &Body) -> Said {
    match body {
        Body::Batch(_, batch) => Said::Batch(batch.alerts().len()),
        Body::FastVote(_, cut) => Said::Vote(only(cut)),
        Body::Prepare(_, ballot) => Said::Prepare(round(ballot)),
        Body::Promise(_, ballot, vote) => Said::Promise(round(ballot), fast_vote(vote)),
        Body::Accept(_, ballot, cut) => Said::Accept(round(ballot), only(cut)),
        Body::Accepted(_, ballot, cut) => Said::Accepted(round(ballot), only(cut)),
        Body::Decision(_, cut) => Said::Decision(only(cut)),
        Body::PreJoin => Said::PreJoin,
        Body::Reply(_, answer) => answered(answer),
        Body::JoinRequest(_, ring) => Said::JoinRequest(*ring),
        Body::Confirm(configuration) => Said::Confirm(configuration.members().len()),
        Body::Probe(_) => Said::Probe,
        Body::ProbeAck(_) => Said::ProbeAck,
        Body::Leave(_, ring) => Said::Leave(*ring),
    }
}

/// To whom a message goes.
pub fn whom(to: Destination) -> To {
    match to {
        Destination::To(endpoint) => port(endpoint),
        Destination::Others => To::Others,
    }
}

/// The node at an endpoint.
fn port(endpoint: Endpoint) -> To {
    To::Node(endpoint.port())
}
