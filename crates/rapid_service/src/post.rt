// How the frames of a node leave it.

ghost use Rattle.std.specs.Prelude.{List, [], ◌∷◌, ◌++◌};
ghost use Rattle.rapid_service.specs.Posting.{Posting};

use bytes::Bytes;
use rapid_endpoint::Endpoint;
use std::sync::Wait;

/// What takes the frames that a node sends.
pub trait Post {
    // From the first state on these frames were given to it, in this order and nothing else, up to
    // the second. What keeps them can say so here; what keeps nothing lets it hold always. The
    // service of a node can show it by its calls alone.
    ghost has_posted: { Self → List Posting → Self → Type 0 };

    /// Sends a frame to this endpoint. It does not wait until it is sent, and a frame for which
    /// there is no room is lost.
    fn post<W: Wait>(&mut self, rt: &W, to: Endpoint, frame: Bytes)
        ensures { has_posted self.old ((to, frame) ∷ []) self.new };

    // Nothing was given to it.
    ghost idle: { (post : Self) → has_posted post [] post };

    // Some frames were given to it, and then others.
    ghost later: { (first second third : Self) (some others : List Posting)
        → has_posted first some second → has_posted second others third → has_posted first (some ++ others) third };
}
