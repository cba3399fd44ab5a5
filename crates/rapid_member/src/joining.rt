// What goes out in a join.

ghost use Rattle.std.specs.Prelude.{◌≡◌, ◌++◌, All, map, flat_map, OnOk, OnErr};
ghost use Rattle.std.specs.FinSet as set;
ghost use Rattle.rapid_model.specs.Host.{confirms};
ghost use Rattle.rapid_model.specs.Node.{To, Says, outputs};
ghost use Rattle.rapid_model.specs.Receive.{answer_to};
ghost use Rattle.rapid_join.specs.Answers.{AnswersObservers, answered_of, host_answer_of, request_of, sent_by};

use crate::MemberState;
use crate::sending::{answer, say_to};
use rapid_config::Configuration;
use rapid_endpoint::{Process, SharedProcess};
use rapid_join::{HostAnswer, JoinRequest, JoinerAnswer};
use rapid_message::{Body, Output};
use std::alloc::{AllocError, Global};

/// Says what a host answers to a joiner. What is long is shared.
pub(crate) fn say_answer(
    alloc: Global,
    out: &mut Vec<Output>,
    me: &SharedProcess,
    joiner: &SharedProcess,
    answered: &HostAnswer,
) -> Result<(), AllocError>
    requires { AnswersObservers answered.now }
    ensures said { OnOk result (out.new.items ≡ out.old.items ++ outputs me.now (answer_to joiner.now (host_answer_of answered.now))) }
    ensures unchanged { OnErr result (out.new.items ≡ out.old.items) }
{
    match answered {
        HostAnswer::Nothing => Ok(()),
        HostAnswer::Reply(reply) => {
            let body = Body::Reply(joiner.share()?, reply.try_copy(alloc)?);
            answer(out, me, joiner.get(), body)
        }
        HostAnswer::Confirm(configuration) => {
            let body = Body::Confirm(configuration.try_copy(alloc)?);
            answer(out, me, joiner.get(), body)
        }
        HostAnswer::Raise => Ok(()),
    }
}

/// Says what a host answers to the joiners that waited.
fn say_all(
    alloc: Global,
    out: &mut Vec<Output>,
    me: &SharedProcess,
    answers: &[(Process, HostAnswer)],
) -> Result<(), AllocError>
    requires { All (λ x. AnswersObservers x.1) answers.now }
    ensures said { OnOk result (out.new.items ≡ out.old.items ++ outputs me.now (flat_map (λ x. answer_to x.0 x.1) (map answered_of answers.now))) }
    ensures unchanged { OnErr result (out.new.items ≡ out.old.items) }
{
    // gathered apart, so that nothing is said if memory runs out on the way
    let mut said = Vec::new(alloc);
    for (joiner, answered) in answers {
        let joiner = SharedProcess::new(alloc, joiner)?;
        say_answer(alloc, &mut said, me, &joiner, answered)?;
    }
    out.append(&mut said)?;
    Ok(())
}

/// Sends a joiner's requests.
fn send_requests(
    alloc: Global,
    out: &mut Vec<Output>,
    me: &SharedProcess,
    requests: &[JoinRequest],
) -> Result<(), AllocError>
    ensures said { OnOk result (out.new.items ≡ out.old.items ++ outputs me.now (map (λ x. Says (To x.0) x.1) (map request_of requests.now))) }
    ensures unchanged { OnErr result (out.new.items ≡ out.old.items) }
{
    // gathered apart, so that nothing is sent if memory runs out on the way
    let mut said = Vec::new(alloc);
    for request in requests {
        let body = Body::JoinRequest(request.id, request.ring);
        say_to(&mut said, me, request.to, body)?;
    }
    out.append(&mut said)?;
    Ok(())
}

/// Sends, in the name of this process, what a joiner answers. If out of memory it sends nothing.
pub fn send_joining(
    alloc: Global,
    out: &mut Vec<Output>,
    me: &SharedProcess,
    answered: &JoinerAnswer,
) -> Result<(), AllocError>
    ensures said { OnOk result (out.new.items ≡ out.old.items ++ outputs me.now (map (λ x. Says (To x.0) x.1) (sent_by answered.now))) }
    ensures unchanged { OnErr result (out.new.items ≡ out.old.items) }
{
    match answered {
        JoinerAnswer::Nothing => Ok(()),
        JoinerAnswer::PreJoin(seed) => say_to(out, me, *seed, Body::PreJoin),
        JoinerAnswer::Requests(requests) => send_requests(alloc, out, me, requests.as_slice()),
    }
}

/// Says, in the name of this process, to the joiners that wait at a member what they get after a
/// change to the next configuration. None waits afterwards. If out of memory it says nothing; who
/// waits is open then, and the rest of the member stays.
pub fn confirm_pending(
    alloc: Global,
    out: &mut Vec<Output>,
    me: &SharedProcess,
    member: &mut MemberState,
    next: &Configuration,
) -> Result<(), AllocError>
    ensures out { OnOk result (out.new.items ≡ out.old.items ++ outputs me.now (flat_map (λ x. answer_to x.0 x.1) (confirms next.now member.old.pending))) }
    ensures unchanged { OnErr result (out.new.items ≡ out.old.items) }
    ensures rest { record member.new { pending = set.empty } ≡ record member.old { pending = set.empty } }
    ensures state { OnOk result (member.new ≡ record member.old { pending = set.empty }) }
{
    let answers = member.confirms(next)?;
    say_all(alloc, out, me, answers.as_slice())
}
