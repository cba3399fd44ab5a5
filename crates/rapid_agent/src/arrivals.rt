// Messages from the peers.

use rapid_message::Message;
use rapid_service::{Post, Shared};
use rapid_transport::{Inbox, is_local};
use std::sync::Wait;

/// Gives the messages that come in to the node, until it ends. A message is dropped if no peer can
/// be at its sender's endpoint: the node would send its answer there.
#[derive(Drop)]
pub(crate) struct Arrivals<'a, R: Wait + Copy + Drop, P: Post + Drop> {
    pub shared: &'a Shared<R, P>,
}

impl<W: Wait, R: Wait + Copy + Drop, P: Post + Drop> Inbox<W> for Arrivals<'_, R, P> {
    fn take(&self, rt: &W, message: Message) {
        if !is_local(message.sender().endpoint()) || self.shared.ending().has_come(rt) {
            return;
        }
        let done = self.shared.receive(rt, message);
        self.shared.goes_on(rt, done);
    }
}
