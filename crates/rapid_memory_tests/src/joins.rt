// The two sides of a join. Each call says by its error that memory ran out and changes nothing, or
// makes what it makes with memory.

use crate::numbered::{Name, THREE, at, founded, process};
use rapid_config::{ConfigError, ConfigId, Configuration};
use rapid_join::{Host, HostAnswer, Joiner, JoinerAnswer, Reply, RingObservers};
use std::alloc::{AllocError, Global};
use std::test::Fail;

/// The number of an answer: 0 nothing, 1 to 4 a reply, 5 a confirmation, 6 JOIN is raised.
fn number(answer: &HostAnswer) -> u8 {
    match answer {
        HostAnswer::Nothing => 0,
        HostAnswer::Reply(reply) => reply.code(),
        HostAnswer::Confirm(_) => 5,
        HostAnswer::Raise => 6,
    }
}

/// A first question: an identifier and a port, and the number of the answer.
type Question = (u16, u16, u8);

/// Whether first questions have their answers.
fn answers_first(host: &Host, cases: &[Question]) -> Result<bool, AllocError> {
    for (id, port, expected) in cases {
        if number(&host.pre_join(&at(*id, *port))?) != *expected {
            return Ok(false);
        }
    }
    Ok(true)
}

/// Whether first questions at a copy of a host have their answers.
fn copy_answers(host: &Host, cases: &[Question]) -> Result<bool, AllocError> {
    let copy = host.try_copy()?;
    answers_first(&copy, cases)
}

/// The number of the answer to a request, made again if out of memory.
fn asked(host: &mut Host, joiner: u16, id: ConfigId) -> Result<u8, AllocError> {
    let answer = match host.join_request(&process(joiner), id, 0) {
        Err(_refused) => host.join_request(&process(joiner), id, 0)?,
        Ok(answer) => answer,
    };
    Ok(number(&answer))
}

/// How many waited for the change, asked again if out of memory.
fn confirmed(host: &mut Host, next: &Configuration) -> Result<usize, AllocError> {
    match host.confirms(next) {
        Err(_refused) => Ok(host.confirms(next)?.len()),
        Ok(answers) => Ok(answers.len()),
    }
}

/// Whether three joiners that ask a host wait there, and then none.
fn three_wait(host: &mut Host, next: &Configuration) -> Result<bool, AllocError> {
    for joiner in 2..5 {
        if asked(host, joiner, next.id())? != 6 {
            return Ok(false);
        }
    }
    Ok(confirmed(host, next)? == 3 && confirmed(host, next)? == 0)
}

/// Whether three joiners wait until a change to these members.
fn three_wait_for(alloc: Global, host: &mut Host, names: &[Name]) -> Result<bool, ConfigError> {
    let next = founded(alloc, THREE, names)?;
    Ok(three_wait(host, &next)?)
}

/// A call of a host, and what it answers.
#[derive(Clone, Copy, Debug)]
enum Call<'a> {
    /// Three ask for ring 0 and wait until a change to these members. Each asks again if out of
    /// memory.
    ThreeWait(&'a [Name]),
    /// First questions at a copy.
    CopyQuestions(&'a [Question]),
}

/// Whether a call of a host answers as it has to.
fn answers_call(alloc: Global, host: &mut Host, call: &Call) -> Result<bool, ConfigError> {
    match call {
        Call::ThreeWait(names) => three_wait_for(alloc, host, names),
        Call::CopyQuestions(cases) => Ok(copy_answers(host, cases)?),
    }
}

/// Sees that all calls of a host answer as they have to, in order.
fn all_answer(alloc: Global, host: &mut Host, calls: &[Call]) -> Result<(), Fail> {
    for call in calls {
        if !answers_call(alloc, host, call)? {
            return Err(Fail::new(format_args!("answered otherwise: {call:?}")));
        }
    }
    Ok(())
}

/// Sees that all calls of the host that is this process, in the configuration of these members,
/// answer as they have to, in order.
fn runs(alloc: Global, names: &[Name], (number, port): Name, calls: &[Call]) -> Result<(), Fail> {
    let configuration = founded(alloc, THREE, names)?;
    let mut host = Host::new(alloc, &configuration, &at(number, port))?;
    all_answer(alloc, &mut host, calls)
}

const ONE: [Name; 1] = [(1, 1)];

/// After a refused growth the host is as it was, so that it answers the same when it is asked again.
#[test]
fn out_of_memory_leaves_the_host_as_it_was(rt: HostRuntime) -> Result<(), Fail> {
    runs(rt.alloc(), &ONE, (1, 1), &[Call::ThreeWait(&ONE)])
}

const TWO: [Name; 2] = [(1, 1), (2, 2)];

/// A joiner is safe.
const SAFE: [Call; 1] = [Call::CopyQuestions(&[(6, 6, 1)])];

#[test]
fn out_of_memory_in_a_copied_host(rt: HostRuntime) -> Result<(), Fail> {
    runs(rt.alloc(), &TWO, (1, 1), &SAFE)
}

/// Whether a joiner makes one request at a reply.
fn asks_once(alloc: Global, reply: &Reply) -> Result<bool, AllocError> {
    let joiner = Joiner::new(process(6), process(1).endpoint());
    match joiner.on_reply(alloc, &process(6), reply)? {
        JoinerAnswer::Requests(requests) => Ok(requests.len() == 1),
        JoinerAnswer::Nothing | JoinerAnswer::PreJoin(_) => Ok(false),
    }
}

/// Whether a joiner makes one request at a copied reply of one observer.
fn asks_one(alloc: Global) -> Result<bool, AllocError> {
    let observers = RingObservers::new(Vec::from_array(alloc, [process(4)])?)?;
    let reply = Reply::Safe(ConfigId::zero(), observers).try_copy(alloc)?;
    asks_once(alloc, &reply)
}

#[test]
fn out_of_memory_in_requests_to_join(rt: HostRuntime) -> Result<(), Fail> {
    assert!(rt; asks_one(rt.alloc())?);
    Ok(())
}
