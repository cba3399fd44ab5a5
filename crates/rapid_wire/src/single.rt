// One frame alone.

ghost use Rattle.std.specs.Prelude.{◌≡◌, IfOk};
ghost use Rattle.rapid_model.specs.Message.{Message as ModelMessage};
ghost use Rattle.rapid_model.specs.Frame.{IsFrame};

use crate::WireFault;
use crate::feed::front;
use rapid_config::Configuration;
use rapid_message::Message;
use std::alloc::{AllocError, Global};

/// The message whose frame these bytes are, read where they stand. The caller ensures that they are
/// the one spelling of a message, so only memory can be missing. If it says the configuration that
/// is near, that one is shared, and not hashed again; any other is read as ever.
#[tactic(auto, using(crate::proofs::Alone::its_message, crate::proofs::Alone::never_none, crate::proofs::Alone::never_faulty))]
pub fn read_frame(
    alloc: Global,
    near: Option<&Configuration>,
    frame: &[u8],
) -> Result<Message, AllocError>
    requires { (m : ModelMessage) × IsFrame frame.now m }
    ensures { (m : ModelMessage) → IsFrame frame.now m → IfOk result (λ message. message ≡ m) }
{
    match front(alloc, near, None, frame) {
        Ok(Some((message, _length))) => Ok(message),
        Ok(None) => unreachable!(),
        Err(WireFault::OutOfMemory) => Err(AllocError),
        Err(_) => unreachable!(),
    }
}
