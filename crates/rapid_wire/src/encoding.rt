// Messages as frames.

ghost use Rattle.std.specs.Prelude.{◌≡◌, ◌++◌, IfOk, OnOk};
ghost use Rattle.rapid_model.specs.Frame.{IsFrame, payload};

use crate::kind::FrameKind;
use crate::lengths::frame_length;
use crate::numbers::write_length;
use crate::told::tell_message;
use crate::writing::put_body;
use rapid_message::Message;
use std::alloc::{AllocError, Global};

/// The version of the format.
pub(crate) const VERSION: u8 = 2;

/// Version, kind, sender and body.
fn put_payload(alloc: Global, out: &mut Vec<u8>, message: &Message) -> Result<(), AllocError>
    ensures { OnOk result (out.new.items ≡ out.old.items ++ payload message.now) }
{
    let body = message.body();
    out.extend_from_slice(&[VERSION, FrameKind::of(body).number()])?;
    message.sender().append_to(out)?;
    put_body(alloc, out, body)
}

/// The frame of a message. It begins with the length of what follows in four bytes, high byte
/// first. Then come the version of the format, the message's kind, its sender and its body. It is
/// the one spelling of the message. The memory of the frame is taken at once, and no more than it
/// needs.
pub fn encode(alloc: Global, message: &Message) -> Result<Vec<u8>, AllocError>
    ensures { IfOk result (λ bytes. IsFrame bytes.items message.now) }
{
    tell_message(message);
    let mut frame = Vec::with_capacity(alloc, frame_length(message))?;
    frame.extend_from_slice(&[0; 4])?;
    put_payload(alloc, &mut frame, message)?;
    let length = frame.len() - 4;
    write_length(frame.as_mut_slice(), length as u32);
    Ok(frame)
}
