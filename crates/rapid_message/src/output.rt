// What goes out of a node.

ghost use Rattle.std.specs.Prelude.{◌≡◌, IfOk};
ghost use Rattle.rapid_message.specs.Outputs.{destination_of};

use crate::{Body, Message};
use rapid_endpoint::{Endpoint, Process};
use std::alloc::{AllocError, Global};
use std::marker::Model;

/// The destination of a message.
#[derive(Clone, Copy, Debug, PartialEq, Eq)]
pub enum Destination {
    /// To one endpoint.
    To(Endpoint),
    /// To each other member, by identifier, of the configuration in which the sender is a member
    /// *before* the step. So a step that installs another configuration still speaks to the members
    /// of the one that it leaves.
    Others,
}

/// A message that goes out, and its destination.
#[derive(Debug, Drop)]
pub struct Output {
    to: Destination,
    message: Message,
}

impl Model for Output {
    ghost use Rattle.rapid_model.specs.Node.{Output as ModelOutput};
    ghost use Rattle.rapid_message.specs.Outputs.{destination_of};

    ghost Value = { ModelOutput };

    ghost view = { λ o. record { to = destination_of o.to; message = o.message } };
}

/// What goes out in one step, in order.
pub type Outputs = Vec<Output>;

impl Output {
    /// The message that goes to this destination.
    pub fn new(to: Destination, message: Message) -> Output
        ensures { result ≡ record { to = destination_of to; message = message } }
    {
        Output { to, message }
    }

    /// The destination of the message.
    pub fn to(&self) -> Destination
        ensures { destination_of result ≡ self.now.to }
    {
        self.to
    }

    /// The message.
    pub fn message(&self) -> &Message
        ensures { result.now ≡ self.now.message }
    {
        &self.message
    }

    /// An equal output. What is long is shared.
    pub fn try_copy(&self, alloc: Global) -> Result<Output, AllocError>
        ensures { IfOk result (λ o. o ≡ self.now) }
    {
        let message = self.message.try_copy(alloc)?;
        Ok(Output {
            to: self.to,
            message,
        })
    }
}
