// What the two sides of a join answer.

use crate::Reply;
use rapid_config::{ConfigId, Configuration};
use rapid_endpoint::Endpoint;

/// What a host does for a joiner.
#[derive(Debug, Drop)]
pub enum HostAnswer {
    /// Nothing.
    Nothing,
    /// It sends the joiner this reply.
    Reply(Reply),
    /// It sends the joiner this configuration.
    Confirm(Configuration),
    /// It raises JOIN on the joiner for the ring that the joiner named, and sends no message.
    Raise,
}

/// The question of a joiner to its observer on one ring.
#[derive(Clone, Copy, Debug, PartialEq, Eq)]
pub struct JoinRequest {
    /// The endpoint of the observer.
    pub to: Endpoint,
    /// The identifier of the configuration in which it observes the joiner.
    pub id: ConfigId,
    /// The ring, from 0.
    pub ring: u8,
}

/// What a joiner sends.
#[derive(Debug, Drop)]
pub enum JoinerAnswer {
    /// Nothing.
    Nothing,
    /// The first question, to the seed at this endpoint.
    PreJoin(Endpoint),
    /// One request a ring, rings ascending.
    Requests(Vec<JoinRequest>),
}
