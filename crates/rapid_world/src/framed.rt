// What a node sends, with the frames of its messages.

ghost use Rattle.std.specs.Prelude.{◌≡◌, All, map, IfOk, OnOk};
ghost use Rattle.rapid_message.specs.Outputs.{destination_of};
ghost use Rattle.rapid_world.specs.Framed.{framed_output, CanBeFramed};

use bytes::Bytes;
use rapid_message::{Destination, Output};
use rapid_wire::encode;
use std::alloc::{AllocError, Global};
use std::marker::Model;

/// A frame that goes out, and its destination. A frame does not name its recipient, so one frame
/// serves for all recipients of a message.
#[derive(Debug, Drop)]
pub(crate) struct FramedOutput {
    to: Destination,
    frame: Bytes,
}

impl Model for FramedOutput {
    ghost use Rattle.rapid_message.specs.Outputs.{destination_of};
    ghost use Rattle.rapid_world.specs.Framed.{FramedOutput as ModelOutput};

    ghost Value = { ModelOutput };

    ghost view = { λ o. record { to = destination_of o.to; bytes = o.frame } };
}

/// The frame of these bytes. It shares the memory of one that has the same bytes.
#[tactic(auto, using(crate::proofs::Framing::same_frame))]
fn share(bytes: Vec<u8>, other: &Bytes) -> Result<Bytes, AllocError>
    ensures { IfOk result (λ frame. frame ≡ bytes.items) }
{
    if other.as_slice() == bytes.as_slice() {
        return other.clone();
    }
    Ok(Bytes::from_vec(bytes)?)
}

/// The frame of these bytes. It shares the memory of the last one, if that has the same bytes.
fn frame_of(bytes: Vec<u8>, last: Option<&Bytes>) -> Result<Bytes, AllocError>
    ensures { IfOk result (λ frame. frame ≡ bytes.items) }
{
    match last {
        Some(last) => share(bytes, last),
        None => Ok(Bytes::from_vec(bytes)?),
    }
}

impl FramedOutput {
    /// The output with the frame of its message, which shares the memory of the last frame if they
    /// are equal.
    #[tactic(auto, using(crate::proofs::Framing::framed_is, crate::proofs::Framing::can_be_framed))]
    fn of(alloc: Global, output: &Output, last: Option<&Bytes>) -> Result<FramedOutput, AllocError>
        ensures value { IfOk result (λ framed. framed ≡ framed_output output.now) }
        ensures framed { OnOk result (CanBeFramed output.now) }
    {
        let bytes = encode(alloc, output.message())?;
        let frame = frame_of(bytes, last)?;
        Ok(FramedOutput {
            to: output.to(),
            frame,
        })
    }

    /// The destination of the frame.
    pub(crate) fn to(&self) -> Destination
        ensures { destination_of result ≡ self.now.to }
    {
        self.to
    }

    /// The frame.
    pub(crate) fn frame(&self) -> &[u8]
        ensures { result.now ≡ self.now.bytes }
    {
        self.frame.as_slice()
    }

    /// Another owner of the frame.
    pub(crate) fn share(&self) -> Result<Bytes, AllocError>
        ensures { IfOk result (λ frame. frame ≡ self.now.bytes) }
    {
        self.frame.clone()
    }
}

/// These outputs with the frames of their messages. A frame shares the memory of the last one if
/// they are equal.
pub(crate) fn frame_all(
    alloc: Global,
    outputs: &[Output],
    last: Option<&Bytes>,
) -> Result<Vec<FramedOutput>, AllocError>
    ensures value { IfOk result (λ framed. framed.items ≡ map framed_output outputs.now) }
    ensures framed { OnOk result (All CanBeFramed outputs.now) }
{
    let mut framed = Vec::with_capacity(alloc, outputs.len())?;
    for output in outputs {
        framed.push(FramedOutput::of(alloc, output, last)?)?;
    }
    Ok(framed)
}
