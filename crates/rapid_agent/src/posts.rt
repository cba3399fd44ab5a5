// Frames to the peers.

use bytes::Bytes;
use rapid_endpoint::Endpoint;
use rapid_service::Post;
use rapid_transport::Peers;
use std::sync::{Arc, Wait};

/// Gives frames to the senders of the peers. A frame that finds a queue full is lost. So is one to
/// an endpoint at which no peer can be, since the senders do not dial it. The peers count both.
#[derive(Drop)]
pub struct Posts {
    pub(crate) peers: Arc<Peers>,
}

impl Post for Posts {
    // It keeps nothing to show.
    ghost has_posted = { λ _ _ _. Unit {0} };

    ghost idle = { λ _. tt };

    ghost later = { λ _ _ _ _ _ _ _. tt };

    fn post<W: Wait>(&mut self, rt: &W, to: Endpoint, frame: Bytes) {
        let _ = self.peers.post(rt, to, frame);
    }
}
