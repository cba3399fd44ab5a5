// The endpoints that a peer may have.

ghost use Rattle.std.specs.Prelude.{◌≡◌};
ghost use Rattle.rapid_transport.specs.Local.{is_local};

use rapid_endpoint::Endpoint;

/// Whether a peer can be at this endpoint: on the loopback network, 127.x.x.x, at a port other than
/// 0. Frames name their senders themselves, and answers go there. So nothing is dialled that is not
/// local, or a frame could make a node connect to anywhere.
pub fn is_local(endpoint: Endpoint) -> bool
    ensures { result ≡ is_local endpoint }
{
    let [first, _, _, _] = endpoint.address();
    first == 127 && 1 <= endpoint.port()
}
