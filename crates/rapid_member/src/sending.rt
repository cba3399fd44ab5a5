// What a member adds to what goes out of its node.

ghost use Rattle.std.specs.Prelude.{◌≡◌, ◌++◌, ◌∷◌, [], OnOk, OnErr};
ghost use Rattle.rapid_model.specs.Process.{endpoint};
ghost use Rattle.rapid_model.specs.Node.{To as ModelTo, Others as ModelOthers, Says, outputs};
ghost use Rattle.rapid_message.specs.Bodies.{CanSay, body_of};

use rapid_endpoint::{Endpoint, Process, SharedProcess};
use rapid_message::{Body, Destination, Message, Output};
use std::alloc::AllocError;

/// Sends something to the other members. If out of memory it sends nothing.
pub(crate) fn say(out: &mut Vec<Output>, me: &SharedProcess, body: Body) -> Result<(), AllocError>
    requires { CanSay me.now body }
    ensures said { OnOk result (out.new.items ≡ out.old.items ++ outputs me.now (Says ModelOthers (body_of body) ∷ [])) }
    ensures unchanged { OnErr result (out.new.items ≡ out.old.items) }
{
    let message = Message::of(me.share()?, body);
    out.push(Output::new(Destination::Others, message))?;
    Ok(())
}

/// Sends something to an endpoint. If out of memory it sends nothing.
pub(crate) fn say_to(
    out: &mut Vec<Output>,
    me: &SharedProcess,
    to: Endpoint,
    body: Body,
) -> Result<(), AllocError>
    requires { CanSay me.now body }
    ensures said { OnOk result (out.new.items ≡ out.old.items ++ outputs me.now (Says (ModelTo to) (body_of body) ∷ [])) }
    ensures unchanged { OnErr result (out.new.items ≡ out.old.items) }
{
    let message = Message::of(me.share()?, body);
    out.push(Output::new(Destination::To(to), message))?;
    Ok(())
}

/// Sends something to the endpoint of a process. If out of memory it sends nothing.
pub(crate) fn answer(
    out: &mut Vec<Output>,
    me: &SharedProcess,
    to: &Process,
    body: Body,
) -> Result<(), AllocError>
    requires { CanSay me.now body }
    ensures said { OnOk result (out.new.items ≡ out.old.items ++ outputs me.now (Says (ModelTo (endpoint to.now)) (body_of body) ∷ [])) }
    ensures unchanged { OnErr result (out.new.items ≡ out.old.items) }
{
    say_to(out, me, to.endpoint(), body)
}
