// Each case of the tables of a join, and the first one if two hold at once.

use crate::numbered::{Name, THREE, at, founded, process, tagged};
use crate::rings::rings::{FIVE, TWO};
use rapid_config::{ConfigError, ConfigId, Configuration, Params};
use rapid_endpoint::{Endpoint, Process};
use rapid_join::{Host, HostAnswer, JoinRequest, Joiner, JoinerAnswer, Reply, RingObservers};
use std::alloc::{AllocError, Global};
use std::test::Fail;

/// The number of an answer: 0 nothing, 1 to 4 a reply, 5 a confirmation, 6 JOIN is raised.
fn number(answer: &HostAnswer) -> u8 {
    match answer {
        HostAnswer::Nothing => 0,
        HostAnswer::Reply(reply) => reply.code(),
        HostAnswer::Confirm(_) => 5,
        HostAnswer::Raise => 6,
    }
}

/// Has the joiners from 2 on, this many of them, ask a host for ring 0; whether each makes it
/// raise.
fn ask(host: &mut Host, own: ConfigId, joiners: u16) -> Result<bool, AllocError> {
    for joiner in 0..joiners {
        let case = (joiner.wrapping_add(2), joiner.wrapping_add(2), true, 0, 6);
        if !answers(host, own, &case)? {
            return Ok(false);
        }
    }
    Ok(true)
}

/// A first question: an identifier and a port, and the number of the answer.
type Question = (u16, u16, u8);

/// Whether first questions have their answers.
fn answers_first(host: &Host, cases: &[Question]) -> Result<bool, AllocError> {
    for (id, port, expected) in cases {
        if number(&host.pre_join(&at(*id, *port))?) != *expected {
            return Ok(false);
        }
    }
    Ok(true)
}

/// A request: an identifier and a port, whether it names the host's configuration, a ring, and the
/// number of the answer.
type Request = (u16, u16, bool, u8, u8);

/// Whether a request has its answer.
fn answers(
    host: &mut Host,
    own: ConfigId,
    (id, port, is_own, ring, expected): &Request,
) -> Result<bool, AllocError> {
    let asked = if *is_own { own } else { ConfigId::zero() };
    let answer = host.join_request(&at(*id, *port), asked, *ring)?;
    Ok(number(&answer) == *expected)
}

/// Whether requests have their answers, in order.
fn answers_all(host: &mut Host, own: ConfigId, cases: &[Request]) -> Result<bool, AllocError> {
    for case in cases {
        if !answers(host, own, case)? {
            return Ok(false);
        }
    }
    Ok(true)
}

/// A joiner and the number of its answer.
type Waited = (u16, u8);

/// Whether it is the answer to the joiner who waited.
fn is_answer((to, answer): &(Process, HostAnswer), (id, code): &Waited) -> bool {
    *to == process(*id) && number(answer) == *code
}

/// Whether these are the answers to those who waited.
fn are_answers(answers: &[(Process, HostAnswer)], expected: &[Waited]) -> bool {
    for (answer, row) in answers.iter().zip(expected) {
        if !is_answer(answer, row) {
            return false;
        }
    }
    answers.len() == expected.len()
}

/// Whether those who wait at a host get these answers at a change.
fn confirms(
    host: &mut Host,
    next: &Configuration,
    expected: &[Waited],
) -> Result<bool, AllocError> {
    Ok(are_answers(host.confirms(next)?.as_slice(), expected))
}

/// Whether a request goes to this port for this ring, and names this configuration.
fn is_request(request: &JoinRequest, id: ConfigId, (port, ring): (u16, u8)) -> bool {
    request.to.port() == port && request.ring == ring && request.id == id
}

/// Whether a joiner asks for the rings 0 to 2 those at these ports.
fn asks(answer: &JoinerAnswer, id: ConfigId, [zero, one, two]: [u16; 3]) -> bool {
    match answer {
        JoinerAnswer::Requests(requests) => match requests.as_slice() {
            [first, second, third] => {
                is_request(first, id, (zero, 0))
                    && is_request(second, id, (one, 1))
                    && is_request(third, id, (two, 2))
            }
            _ => false,
        },
        JoinerAnswer::Nothing | JoinerAnswer::PreJoin(_) => false,
    }
}

/// Whether the joiner 6 asks those at these ports, at a reply to its first question.
fn asks_at(
    alloc: Global,
    reply: &Reply,
    id: ConfigId,
    observers: [u16; 3],
) -> Result<bool, AllocError> {
    let joiner = Joiner::new(process(6), process(1).endpoint());
    let requests = joiner.on_reply(alloc, &process(6), reply)?;
    Ok(asks(&requests, id, observers))
}

/// Whether the joiner 6 asks those at these ports, at the answer of a host to its first question.
fn asks_those_of(
    alloc: Global,
    host: &Host,
    id: ConfigId,
    observers: [u16; 3],
) -> Result<bool, AllocError> {
    match host.pre_join(&process(6))? {
        HostAnswer::Reply(reply) => asks_at(alloc, &reply, id, observers),
        HostAnswer::Nothing | HostAnswer::Confirm(_) | HostAnswer::Raise => Ok(false),
    }
}

/// A call of a host, and what it answers.
#[derive(Clone, Copy, Debug)]
enum Call<'a> {
    /// The joiners from 2 on, this many of them, ask for ring 0, and each makes the host raise.
    Ask(u16),
    /// First questions.
    Questions(&'a [Question]),
    /// Requests, in order.
    Requests(&'a [Request]),
    /// A change to these members, and what those who wait get.
    Confirms(&'a [Name], &'a [Waited]),
    /// The same at a copy.
    CopyConfirms(&'a [Name], &'a [Waited]),
    /// A first question of process 6, and the observers that it asks then.
    Observers([u16; 3]),
}

/// Whether those who wait at a host get these answers at a change to these members.
fn confirms_at(
    alloc: Global,
    host: &mut Host,
    names: &[Name],
    waited: &[Waited],
) -> Result<bool, ConfigError> {
    let next = founded(alloc, THREE, names)?;
    Ok(confirms(host, &next, waited)?)
}

/// Whether those who wait at a copy of a host get these answers at a change to these members.
fn copy_confirms(
    alloc: Global,
    host: &Host,
    names: &[Name],
    waited: &[Waited],
) -> Result<bool, ConfigError> {
    let mut copy = host.try_copy()?;
    confirms_at(alloc, &mut copy, names, waited)
}

/// Whether a call of a host, in the configuration with the identifier, answers as it has to.
fn answers_call(
    alloc: Global,
    host: &mut Host,
    own: ConfigId,
    call: &Call,
) -> Result<bool, ConfigError> {
    match call {
        Call::Ask(joiners) => Ok(ask(host, own, *joiners)?),
        Call::Questions(cases) => Ok(answers_first(host, cases)?),
        Call::Requests(cases) => Ok(answers_all(host, own, cases)?),
        Call::Confirms(names, waited) => confirms_at(alloc, host, names, waited),
        Call::CopyConfirms(names, waited) => copy_confirms(alloc, host, names, waited),
        Call::Observers(ports) => Ok(asks_those_of(alloc, host, own, *ports)?),
    }
}

/// Sees that all calls of a host answer as they have to, in order.
fn all_answer(alloc: Global, host: &mut Host, own: ConfigId, calls: &[Call]) -> Result<(), Fail> {
    for call in calls {
        if !answers_call(alloc, host, own, call)? {
            return Err(Fail::new(format_args!("answered otherwise: {call:?}")));
        }
    }
    Ok(())
}

/// Sees that all calls of the host that is this process, in the configuration of these members,
/// answer as they have to, in order.
fn runs(alloc: Global, names: &[Name], (number, port): Name, calls: &[Call]) -> Result<(), Fail> {
    let configuration = founded(alloc, THREE, names)?;
    let mut host = Host::new(alloc, &configuration, &at(number, port))?;
    all_answer(alloc, &mut host, configuration.id(), calls)
}

const ONE: [Name; 1] = [(1, 1)];

const QUESTIONS: [Question; 4] = [(1, 1, 5), (1, 900, 2), (900, 1, 2), (900, 900, 1)];

const REQUESTS: [Request; 9] = [
    (1, 1, false, 3, 5),
    (1, 900, false, 3, 3),
    (900, 900, false, 3, 3),
    (1, 900, true, 3, 2),
    (900, 1, true, 3, 2),
    (900, 900, true, 3, 0),
    (900, 900, true, 2, 6),
    (900, 900, true, 0, 6),
    (901, 901, true, 0, 4),
];

const ALONE: [Call; 3] = [
    Call::Ask(511),
    Call::Questions(&QUESTIONS),
    Call::Requests(&REQUESTS),
];

#[test]
fn questions_and_requests(rt: HostRuntime) -> Result<(), Fail> {
    runs(rt.alloc(), &ONE, (1, 1), &ALONE)
}

const QUESTIONS_WHEN_FULL: [Question; 5] = [
    (1, 1, 5),
    (1, 900, 2),
    (900, 1, 2),
    (900, 900, 4),
    (2, 2, 1),
];

const REQUESTS_WHEN_FULL: [Request; 6] = [
    (1, 1, true, 0, 5),
    (900, 900, false, 0, 3),
    (900, 1, true, 0, 2),
    (900, 900, true, 3, 0),
    (900, 900, true, 0, 4),
    (513, 513, true, 1, 6),
];

const FULL: [Call; 3] = [
    Call::Ask(512),
    Call::Questions(&QUESTIONS_WHEN_FULL),
    Call::Requests(&REQUESTS_WHEN_FULL),
];

#[test]
fn questions_and_requests_at_a_full_host(rt: HostRuntime) -> Result<(), Fail> {
    runs(rt.alloc(), &ONE, (1, 1), &FULL)
}

const QUESTIONS_OF_HOLDERS: [Question; 16] = [
    (10, 40, 5),
    (50, 30, 5),
    (10, 50, 2),
    (9, 10, 2),
    (9, 20, 2),
    (9, 30, 2),
    (60, 40, 2),
    (60, 50, 2),
    (10, 9, 2),
    (20, 9, 2),
    (30, 60, 2),
    (40, 60, 2),
    (50, 45, 2),
    (9, 9, 1),
    (25, 25, 1),
    (60, 60, 1),
];

const HOLDERS: [Name; 5] = [(10, 40), (20, 10), (30, 50), (40, 20), (50, 30)];

const OF_HOLDERS: [Call; 1] = [Call::Questions(&QUESTIONS_OF_HOLDERS)];

/// Members whose endpoints do not ascend: each identifier and each endpoint of one of them is held,
/// and no other.
#[test]
fn first_questions_of_what_members_hold(rt: HostRuntime) -> Result<(), Fail> {
    runs(rt.alloc(), &HOLDERS, (30, 50), &OF_HOLDERS)
}

const NOT_OBSERVED: [Request; 3] = [(5, 5, true, 0, 0), (5, 5, true, 1, 0), (5, 5, true, 2, 0)];

const STRANGER: [Call; 1] = [Call::Requests(&NOT_OBSERVED)];

#[test]
fn a_host_that_does_not_observe_keeps_still(rt: HostRuntime) -> Result<(), Fail> {
    runs(rt.alloc(), &TWO, (9, 9), &STRANGER)
}

const WAITED: [Waited; 3] = [(2, 3), (3, 5), (4, 3)];

const AND_THREE: [Name; 2] = [(1, 1), (3, 3)];

const WAITING: [Call; 4] = [
    Call::Ask(3),
    Call::CopyConfirms(&AND_THREE, &WAITED),
    Call::Confirms(&AND_THREE, &WAITED),
    Call::Confirms(&AND_THREE, &[]),
];

#[test]
fn those_who_waited_are_answered_once(rt: HostRuntime) -> Result<(), Fail> {
    runs(rt.alloc(), &ONE, (1, 1), &WAITING)
}

/// The configuration of one founder.
fn founded_by(alloc: Global, founder: Process) -> Result<Configuration, ConfigError> {
    Configuration::seed(alloc, Params::new(3, 3, 1)?, &[founder])
}

/// Whether the host that is this process, alone in its configuration, confirms it to itself, and
/// refuses another process with its identifier and its endpoint, whatever that asks.
fn refuses_other(alloc: Global, me: Process, joiner: Process) -> Result<bool, ConfigError> {
    let configuration = founded_by(alloc, me)?;
    let mut host = Host::new(alloc, &configuration, &me)?;
    let (own, other) = (configuration.id(), ConfigId::zero());
    Ok(
        number(&host.pre_join(&me)?) == 5
            && number(&host.pre_join(&joiner)?) == 2
            && number(&host.join_request(&joiner, other, 0)?) == 3
            && number(&host.join_request(&joiner, own, 0)?) == 2
            && number(&host.join_request(&joiner, own, 3)?) == 2,
    )
}

#[test]
fn a_member_with_other_tags_finds_its_endpoint_in_use(rt: HostRuntime) -> Result<(), Fail> {
    let (bare, one, two) = (
        process(1),
        tagged(1, &[b"db"])?,
        tagged(1, &[b"db", b"web"])?,
    );
    for (member, joiner) in [(bare, one), (one, bare), (one, two), (two, one)] {
        assert!(rt;
            refuses_other(rt.alloc(), member, joiner)?,
            "at {member:?} and {joiner:?}"
        );
    }
    Ok(())
}

/// Whether these are answers to two processes, with these numbers.
fn are_two(answers: &[(Process, HostAnswer)], expected: &[(Process, u8)]) -> bool {
    for ((to, answer), (process, code)) in answers.iter().zip(expected) {
        if to != process || number(answer) != *code {
            return false;
        }
    }
    answers.len() == 2 && expected.len() == 2
}

/// Whether two joiners of the host that is process 1 make it raise, and get these answers at a
/// change.
fn wait(
    alloc: Global,
    expected: &[(Process, u8)],
    next: &Configuration,
) -> Result<bool, ConfigError> {
    let configuration = founded_by(alloc, process(1))?;
    let mut host = Host::new(alloc, &configuration, &process(1))?;
    for (joiner, _) in expected {
        if number(&host.join_request(joiner, configuration.id(), 0)?) != 6 {
            return Ok(false);
        }
    }
    Ok(are_two(host.confirms(next)?.as_slice(), expected))
}

#[test]
fn joiners_that_differ_in_tags_alone_are_two(rt: HostRuntime) -> Result<(), Fail> {
    let (bare, other) = (process(2), tagged(2, &[b"db"])?);
    let params = Params::new(3, 3, 1)?;
    let next = Configuration::seed(rt.alloc(), params, &[process(1), other])?;
    assert!(rt; wait(rt.alloc(), &[(bare, 3), (other, 5)], &next)?);
    let next = Configuration::seed(rt.alloc(), params, &[process(1), bare])?;
    assert!(rt; wait(rt.alloc(), &[(bare, 5), (other, 3)], &next)?);
    Ok(())
}

// The observers were computed by Python's hashlib, from the rule that none is between.

const OBSERVERS: [Call; 1] = [Call::Observers([4, 1, 3])];

#[test]
fn a_joiner_asks_its_observers_by_ring(rt: HostRuntime) -> Result<(), Fail> {
    runs(rt.alloc(), &FIVE, (1, 1), &OBSERVERS)
}

/// Whether it is a question to the seed at this port.
fn asks_seed(answer: &JoinerAnswer, port: u16) -> bool {
    match answer {
        JoinerAnswer::PreJoin(seed) => seed.port() == port,
        JoinerAnswer::Nothing | JoinerAnswer::Requests(_) => false,
    }
}

/// Whether a joiner asks its seed at its tick 1, 11, 21 and so on, in this many ticks.
fn asks_every_ten(joiner: &mut Joiner, ticks: u8) -> bool {
    for tick in 0..ticks {
        if asks_seed(&joiner.on_tick(), 1) != (tick % 10 == 0) {
            return false;
        }
    }
    true
}

/// Whether a joiner and a copy that is made of it after 20 ticks ask their seed every ten ticks.
fn asks_as_copy(joiner: &mut Joiner) -> Result<bool, AllocError> {
    if !asks_every_ten(joiner, 20) {
        return Ok(false);
    }
    let mut copy = joiner.try_copy()?;
    Ok(asks_every_ten(joiner, 11) && asks_every_ten(&mut copy, 1))
}

#[test]
fn a_joiner_asks_its_seed_every_ten_ticks(rt: HostRuntime) {
    let mut joiner = Joiner::new(process(6), process(1).endpoint());
    assert!(rt; matches!(asks_as_copy(&mut joiner), Ok(true)));
}

/// Whether the joiner 6 asks its seed anew at a reply to a process.
fn begins_anew(alloc: Global, to: &Process, reply: &Reply) -> Result<bool, AllocError> {
    let joiner = Joiner::new(process(6), Endpoint::new([127, 0, 0, 1], 1));
    Ok(asks_seed(&joiner.on_reply(alloc, to, reply)?, 1))
}

const REPLIES: [(u16, u16, Reply, bool); 5] = [
    (6, 6, Reply::ConfigurationChanged, true),
    (6, 7, Reply::ConfigurationChanged, false),
    (7, 6, Reply::ConfigurationChanged, false),
    (6, 6, Reply::EndpointInUse, false),
    (6, 6, Reply::TooManyJoiners, false),
];

/// Sees that the joiner 6 asks its seed anew at the replies that say so, and at no other.
fn all_begin_anew(alloc: Global, replies: &[(u16, u16, Reply, bool)]) -> Result<(), Fail> {
    for (id, port, reply, expected) in replies {
        if begins_anew(alloc, &at(*id, *port), reply)? != *expected {
            let code = reply.code();
            return Err(Fail::new(format_args!("at the reply {code} to {id} at port {port}")));
        }
    }
    Ok(())
}

#[test]
fn other_replies(rt: HostRuntime) -> Result<(), Fail> {
    all_begin_anew(rt.alloc(), &REPLIES)
}

#[test]
fn a_reply_to_other_tags_is_for_another(rt: HostRuntime) -> Result<(), Fail> {
    let reply = Reply::ConfigurationChanged;
    assert!(rt; begins_anew(rt.alloc(), &tagged(6, &[])?, &reply)?);
    assert!(rt; !begins_anew(rt.alloc(), &tagged(6, &[b"db"])?, &reply)?);
    Ok(())
}

/// Whether a copy of observers has the same, and makes a reply with the number of `Safe`.
fn is_shared(alloc: Global, observers: &RingObservers) -> Result<bool, AllocError> {
    let copy = observers.try_copy(alloc)?;
    Ok(copy.as_slice() == observers.as_slice() && Reply::Safe(ConfigId::zero(), copy).code() == 1)
}

/// Whether observers of one ring are shared.
fn are_shared(alloc: Global) -> Result<bool, AllocError> {
    let observers = RingObservers::new(Vec::from_array(alloc, [process(4)])?)?;
    is_shared(alloc, &observers)
}

#[test]
fn observers_are_shared(rt: HostRuntime) {
    assert!(rt; matches!(are_shared(rt.alloc()), Ok(true)));
}
