// Whole frames as messages.

ghost use Rattle.std.specs.Prelude.{◌≡◌, ◌<◌, ◌∷◌, All, IfOk, IfErr};
ghost use Rattle.rapid_model.specs.Frame.{IsMessage, version, payload};
ghost use Rattle.rapid_model.specs.Feed.{IsKind};
ghost use Rattle.rapid_wire.specs.Faults.{Gives, IsFaultOf};
ghost use Rattle.rapid_wire.specs.Kinds.{number_of};
ghost use Rattle.rapid_wire.specs.Reading.{message_in};

use crate::WireFault;
use crate::encoding::VERSION;
use crate::kind::FrameKind;
use crate::kinds::read_body;
use crate::reading::read_shared;
use crate::told::tell_message;
use rapid_config::Configuration;
use rapid_endpoint::SharedProcess;
use rapid_message::Message;
use std::alloc::Global;

/// Each byte is below 256. It does nothing: what it ensures is for proofs.
#[inline(always)]
pub(crate) fn tell_bytes(bytes: &[u8])
    ensures { All (λ b. b < 256) bytes.now }
{
    let _ = bytes;
}

/// The message of a kind whose sender and body are these bytes. A configuration may be near, and a
/// sender.
#[tactic(auto, unfolding(crate::specs::Reading::message_in))]
fn read_message(
    alloc: Global,
    near: Option<&Configuration>,
    sender: Option<&SharedProcess>,
    kind: FrameKind,
    bytes: &[u8],
) -> Result<Message, WireFault>
    ensures { Gives (λ m. m) result (message_in (number_of kind) bytes.now) }
{
    let (sender, length) = read_shared(alloc, sender, bytes)?;
    let body = read_body(alloc, near, &sender, kind, &bytes[length..])?;
    Ok(Message::of(sender, body))
}

/// The kind of a whole frame, and what follows it. The error is the first that holds. `BadBody`
/// below two bytes. `BadVersion` if the first is not the version of this format. `BadKind` if the
/// second is no kind of a message.
#[tactic(auto, using(crate::proofs::Fronts::short_fault, crate::proofs::Fronts::version_fault, crate::proofs::Fronts::kind_fault, crate::proofs::Fronts::opened))]
fn open_frame(whole: &[u8]) -> Result<(FrameKind, &[u8]), WireFault>
    ensures kind { IfOk result (λ x. IsKind (number_of x.0)) }
    ensures parts { IfOk result (λ x. whole.now ≡ version ∷ number_of x.0 ∷ x.1.now) }
    ensures fault { IfErr result (IsFaultOf whole.now) }
{
    let [first, number, rest @ ..] = whole else {
        return Err(WireFault::BadBody);
    };
    if *first != VERSION {
        return Err(WireFault::BadVersion);
    }
    let Some(kind) = FrameKind::from_number(*number) else {
        return Err(WireFault::BadKind);
    };
    Ok((kind, rest))
}

/// The message of a whole frame, after its length. The faults of its first two bytes come first,
/// then `BadBody` if the rest is not spelt as a message of this kind is. A configuration may be near,
/// and a sender.
pub(crate) fn decode(
    alloc: Global,
    near: Option<&Configuration>,
    sender: Option<&SharedProcess>,
    whole: &[u8],
) -> Result<Message, WireFault>
    ensures valid { IfOk result IsMessage }
    ensures spelt { IfOk result (λ m. whole.now ≡ payload m) }
    ensures fault { IfErr result (IsFaultOf whole.now) }
{
    let (kind, rest) = open_frame(whole)?;
    tell_bytes(rest);
    let message = read_message(alloc, near, sender, kind, rest)?;
    tell_message(&message);
    Ok(message)
}
