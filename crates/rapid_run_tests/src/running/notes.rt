// What a node says while it goes on, beside its views.

use bytes::Bytes;
use rapid_config::{Configuration, Cut, Params};
use rapid_endpoint::{Endpoint, Process, ProcessId, SharedProcess};
use rapid_join::Reply;
use rapid_lines::{Answer, InVain, Note};
use rapid_message::{Body, Message};
use rapid_service::{Post, RunningFault, Service};
use std::alloc::{AllocError, Global};
use std::process::Abort;
use std::sync::Wait;
use std::test::Fail;

/// The process of this number.
fn process(number: u8) -> Process {
    let id = [0, 0, 0, 0, 0, 0, 0, 0, 0, 0, 0, 0, 0, 0, 0, number];
    Process::new(
        ProcessId::new(id),
        Endpoint::new([127, 0, 0, 1], 7_600 + u16::from(number)),
    )
}

/// The process of this number, to be shared.
fn shared(alloc: Global, number: u8) -> Result<SharedProcess, AllocError> {
    SharedProcess::new(alloc, &process(number))
}

/// Takes no frames.
#[derive(Drop)]
struct Nowhere;

impl Post for Nowhere {
    ghost has_posted = { λ _ _ _. Unit {0} };

    ghost idle = { λ _. tt };

    ghost later = { λ _ _ _ _ _ _ _. tt };

    fn post<W: Wait>(&mut self, _rt: &W, _to: Endpoint, _frame: Bytes) {}
}

/// That this question to process 2 was in vain, and what was answered.
fn in_vain(question: u64, answer: Answer) -> Note {
    Note::InVain(InVain {
        question,
        seed: process(2).endpoint(),
        answer,
    })
}

/// What process 2 replies to a joiner.
fn reply(alloc: Global, joiner: u8, reply: Reply) -> Result<Message, Fail> {
    let said = Body::Reply(shared(alloc, joiner)?, reply);
    Ok(Message::new(shared(alloc, 2)?, said)?)
}

/// Ticks a service this often, and takes what is to be reported.
fn ticked<R: Wait + Copy + Drop>(
    service: &mut Service<R, Nowhere>,
    count: u64,
) -> Result<Vec<Note>, RunningFault> {
    for _ in 0..count {
        service.tick()?;
    }
    Ok(service.take_notes())
}

#[test]
fn questions_in_vain_are_told(rt: HostRuntime) -> Result<(), Fail> {
    let alloc = rt.alloc();
    let seed = process(2).endpoint();
    let mut service = Service::join(&rt, alloc, process(1), seed, Nowhere)?;
    assert!(rt; ticked(&mut service, 10)?.is_empty());
    assert_eq!(rt;
        ticked(&mut service, 1)?.as_slice(),
        [in_vain(1, Answer::Nothing)].as_slice()
    );
    assert!(rt; ticked(&mut service, 89)?.is_empty());
    assert_eq!(rt;
        ticked(&mut service, 1)?.as_slice(),
        [in_vain(10, Answer::Nothing)].as_slice()
    );
    // the answer to each question, also if more is reported at once
    assert!(rt; ticked(&mut service, 99)?.is_empty());
    service.receive(reply(alloc, 1, Reply::TooManyJoiners)?)?;
    service.receive(reply(alloc, 1, Reply::EndpointInUse)?)?;
    service.receive(reply(alloc, 3, Reply::ConfigurationChanged)?)?;
    assert_eq!(rt;
        ticked(&mut service, 101)?.as_slice(),
        [in_vain(20, Answer::InUse), in_vain(30, Answer::Nothing)].as_slice()
    );
    assert!(rt; ticked(&mut service, 95)?.is_empty());
    service.receive(reply(alloc, 1, Reply::ConfigurationChanged)?)?;
    assert_eq!(rt;
        ticked(&mut service, 5)?.as_slice(),
        [in_vain(40, Answer::Changed)].as_slice()
    );
    assert!(rt; ticked(&mut service, 95)?.is_empty());
    service.receive(reply(alloc, 1, Reply::TooManyJoiners)?)?;
    assert_eq!(rt;
        ticked(&mut service, 5)?.as_slice(),
        [in_vain(50, Answer::TooMany)].as_slice()
    );
    Ok(())
}

/// The configuration of the processes 1 and 2.
fn both(alloc: Global) -> Result<Configuration, Fail> {
    let members = [process(1), process(2)];
    Ok(Configuration::seed(alloc, Params::new(3, 3, 1)?, &members)?)
}

#[test]
fn a_joiner_that_is_let_in_asks_no_more(rt: HostRuntime) -> Result<(), Fail> {
    let alloc = rt.alloc();
    let seed = process(2).endpoint();
    let mut service = Service::join(&rt, alloc, process(1), seed, Nowhere)?;
    assert_eq!(rt; ticked(&mut service, 11)?.len(), 1);
    service.receive(Message::new(shared(alloc, 2)?, Body::Confirm(both(alloc)?))?)?;
    assert!(rt; ticked(&mut service, 500)?.is_empty());
    assert_eq!(rt;
        service.take_lines().as_slice(),
        b"height 0 members 127.0.0.1:7601 127.0.0.1:7602\n".as_slice()
    );
    Ok(())
}

#[test]
fn a_node_that_is_removed_says_so_once(rt: HostRuntime) -> Result<(), Fail> {
    let alloc = rt.alloc();
    let seed = process(2).endpoint();
    let mut service = Service::join(&rt, alloc, process(1), seed, Nowhere)?;
    let configuration = both(alloc)?;
    let id = configuration.id();
    service.receive(Message::new(shared(alloc, 2)?, Body::Confirm(configuration))?)?;
    assert!(rt; service.take_notes().is_empty());
    let mut removed = Vec::new(alloc);
    removed.push(process(1))?;
    let decision = Body::Decision(id, Cut::new(removed)?);
    service.receive(Message::new(shared(alloc, 2)?, decision)?)?;
    assert_eq!(rt;
        service.take_notes().as_slice(),
        [Note::Removed(1)].as_slice()
    );
    assert!(rt; ticked(&mut service, 100)?.is_empty());
    assert_eq!(rt;
        service.take_lines().as_slice(),
        b"height 0 members 127.0.0.1:7601 127.0.0.1:7602\nheight 1 members 127.0.0.1:7602\n".as_slice()
    );
    Ok(())
}

#[test]
fn at_most_64_notes_wait(rt: HostRuntime) -> Result<(), Fail> {
    let seed = process(2).endpoint();
    let mut service = Service::join(&rt, rt.alloc(), process(1), seed, Nowhere)?;
    let notes = ticked(&mut service, 10_000)?;
    assert_eq!(rt; notes.len(), 64);
    assert_eq!(rt; notes.last().copied(), Some(in_vain(630, Answer::Nothing)));
    Ok(())
}

/// What is reported of a question in vain, by its reply.
const ANSWERS: [(Answer, &str); 5] = [
    (
        Answer::Nothing,
        "no view after question 1 to 127.0.0.1:7602; last answer: none; see that a member runs there",
    ),
    (
        Answer::Safe,
        "no view after question 1 to 127.0.0.1:7602; last answer: it may join; see that most members run, with ticks",
    ),
    (
        Answer::InUse,
        "no view after question 1 to 127.0.0.1:7602; last answer: a member has its identifier or its endpoint",
    ),
    (
        Answer::Changed,
        "no view after question 1 to 127.0.0.1:7602; last answer: the configuration has changed",
    ),
    (
        Answer::TooMany,
        "no view after question 1 to 127.0.0.1:7602; last answer: too many others are joining",
    ),
];

#[test]
fn the_texts_of_notes(rt: HostRuntime) -> Result<(), Fail> {
    for (answer, text) in &ANSWERS {
        let told = in_vain(1, *answer).to_string(rt.alloc())?;
        assert!(rt; told.as_str() == *text, "{told}");
    }
    let told = Note::Removed(5).to_string(rt.alloc())?;
    assert_eq!(rt;
        told.as_str(),
        "this node was removed and is no member from height 5 on: start another in its place"
    );
    Ok(())
}

/// The faults of a node, with the status of each and what is reported of it.
const FAULTS: [(RunningFault, u8, &str); 7] = [
    (RunningFault::Read, 1, "the input could not be read"),
    (RunningFault::Write, 1, "the output could not be written"),
    (RunningFault::NoPort, 1, "the port cannot be bound"),
    (
        RunningFault::NoIdentifier,
        3,
        "no identifier could be drawn",
    ),
    (RunningFault::OutOfMemory, 3, "out of memory"),
    (
        RunningFault::JournalFull,
        3,
        "the journal of the node is full",
    ),
    (RunningFault::Halted, 3, "the node has halted"),
];

#[test]
fn the_texts_of_faults(rt: HostRuntime) -> Result<(), Fail> {
    for (fault, status, text) in &FAULTS {
        let told = fault.to_string(rt.alloc())?;
        assert!(rt; told.as_str() == *text, "{told}");
        assert_eq!(rt; fault.status(), *status, "at {text}");
    }
    Ok(())
}
