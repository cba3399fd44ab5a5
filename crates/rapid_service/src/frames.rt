// The frames of messages.

ghost use Rattle.std.specs.Prelude.{◌≡◌, IfOk};
ghost use Rattle.rapid_model.specs.Frame.{IsFrame};
ghost use Rattle.rapid_model.specs.Message.{Probe};

use bytes::Bytes;
use rapid_config::ConfigId;
use rapid_endpoint::SharedProcess;
use rapid_message::{Body, Message};
use rapid_wire::encode;
use std::alloc::{AllocError, Global};

/// The probe of a configuration, which anyone can say.
pub(crate) fn probe_of(sender: SharedProcess, id: ConfigId) -> Message
    ensures { result ≡ record { sender = sender; body = Probe id } }
{
    match Message::new(sender, Body::Probe(id)) {
        Ok(probe) => probe,
        Err(_) => unreachable!(),
    }
}

/// The frame of a message.
pub(crate) fn frame_of(alloc: Global, message: &Message) -> Result<Bytes, AllocError>
    ensures { IfOk result (λ bytes. IsFrame bytes message.now) }
{
    Ok(Bytes::from_vec(encode(alloc, message)?)?)
}
