// What takes the messages that come in.

use rapid_message::Message;
use std::sync::Wait;

/// What takes the messages that come in.
pub trait Inbox<R: Wait> {
    /// Takes a message. It is called in the threads of the readers, in many at once. While it runs,
    /// nothing more is read from the connection that the message came by.
    fn take(&self, rt: &R, message: Message);
}
