// Alerts.

use rapid_config::ConfigId;
use rapid_endpoint::{Process, ProcessRef};

/// What an alert asks for.
#[derive(Clone, Copy, Debug, PartialEq, Eq)]
pub enum Kind {
    /// To remove a member.
    Remove,
    /// To let a joiner in.
    Join,
}

/// An alert of an observer on a subject, for a ring of a configuration.
#[derive(Clone, Copy, Debug, PartialEq, Eq)]
pub struct Alert {
    /// Who raises it.
    pub observer: Process,
    /// Whom it is on.
    pub subject: Process,
    /// The ring on which the observer observes the subject, from 0.
    pub ring: u8,
    /// What it asks for.
    pub kind: Kind,
    /// The identifier of the configuration.
    pub config: ConfigId,
}

/// An alert whose processes and whose identifier of the configuration stand elsewhere.
#[derive(Debug, Drop, PartialEq)]
pub struct AlertRef<'a> {
    /// Who raises it.
    pub observer: ProcessRef<'a>,
    /// Whom it is on.
    pub subject: ProcessRef<'a>,
    /// The ring on which the observer observes the subject, from 0.
    pub ring: u8,
    /// What it asks for.
    pub kind: Kind,
    /// The identifier of the configuration.
    pub config: &'a ConfigId,
}
