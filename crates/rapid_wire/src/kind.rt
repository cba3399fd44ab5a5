// The kinds of frames.

ghost use Rattle.std.specs.Prelude.{◌≡◌, ◌↔◌, IsSome, IfSome};
ghost use Rattle.rapid_model.specs.Frame.{kind_number};
ghost use Rattle.rapid_model.specs.Feed.{IsKind};
ghost use Rattle.rapid_message.specs.Bodies.{body_of};
ghost use Rattle.rapid_wire.specs.Kinds.{number_of};

use rapid_message::Body;

/// What kind of message a frame has. The kinds stand in the order of their numbers, from 1.
#[derive(Clone, Copy, Debug, PartialEq, Eq)]
pub(crate) enum FrameKind {
    Batch,
    FastVote,
    Prepare,
    Promise,
    Accept,
    Accepted,
    Decision,
    PreJoin,
    Reply,
    JoinRequest,
    Confirm,
    Probe,
    ProbeAck,
    Leave,
}

impl FrameKind {
    /// The kind of a message that says this.
    pub(crate) fn of(body: &Body) -> FrameKind
        ensures { number_of result ≡ kind_number (body_of body.now) }
    {
        match body {
            Body::Batch(..) => FrameKind::Batch,
            Body::FastVote(..) => FrameKind::FastVote,
            Body::Prepare(..) => FrameKind::Prepare,
            Body::Promise(..) => FrameKind::Promise,
            Body::Accept(..) => FrameKind::Accept,
            Body::Accepted(..) => FrameKind::Accepted,
            Body::Decision(..) => FrameKind::Decision,
            Body::PreJoin => FrameKind::PreJoin,
            Body::Reply(..) => FrameKind::Reply,
            Body::JoinRequest(..) => FrameKind::JoinRequest,
            Body::Confirm(_) => FrameKind::Confirm,
            Body::Probe(_) => FrameKind::Probe,
            Body::ProbeAck(_) => FrameKind::ProbeAck,
            Body::Leave(..) => FrameKind::Leave,
        }
    }

    /// The number of this kind in a frame.
    pub(crate) fn number(self) -> u8
        ensures { result ≡ number_of self }
    {
        self as u8 + 1
    }

    /// The kind with this number, if there is one.
    pub(crate) fn from_number(number: u8) -> Option<FrameKind>
        ensures kind { IfSome result (λ kind. number_of kind ≡ number) }
        ensures known { IsSome result ↔ IsKind number }
    {
        Some(match number {
            1 => FrameKind::Batch,
            2 => FrameKind::FastVote,
            3 => FrameKind::Prepare,
            4 => FrameKind::Promise,
            5 => FrameKind::Accept,
            6 => FrameKind::Accepted,
            7 => FrameKind::Decision,
            8 => FrameKind::PreJoin,
            9 => FrameKind::Reply,
            10 => FrameKind::JoinRequest,
            11 => FrameKind::Confirm,
            12 => FrameKind::Probe,
            13 => FrameKind::ProbeAck,
            14 => FrameKind::Leave,
            _ => return None,
        })
    }
}
