// What a process cannot say.

use crate::numbered::{process, shared};
use rapid_alerts::{Alert, Batch, Kind};
use rapid_config::{ConfigId, Cut};
use rapid_join::{Reply, RingObservers};
use rapid_message::{Body, Message, MessageError};
use rapid_paxos::Ballot;
use std::alloc::Global;
use std::test::Fail;

/// What is refused of a body that the process with the number 1 says.
fn refusal(alloc: Global, body: Body) -> Result<Option<MessageError>, Fail> {
    Ok(Message::new(shared(alloc, &process(1))?, body).err())
}

/// A batch under an identifier of zeros with an alert of this observer for this configuration.
fn batch(alloc: Global, observer: u16, config: u8) -> Result<Body, Fail> {
    let alert = Alert {
        observer: process(observer),
        subject: process(3),
        ring: 0,
        kind: Kind::Join,
        config: ConfigId::new([config; 32]),
    };
    let batch = Batch::new(alloc, &[alert])?;
    Ok(Body::Batch(ConfigId::zero(), batch))
}

const BATCHES: [(u16, u8, Option<MessageError>); 4] = [
    (1, 0, None),
    (2, 0, Some(MessageError::OtherObserver)),
    (1, 7, Some(MessageError::OtherConfiguration)),
    (2, 7, Some(MessageError::OtherObserver)),
];

#[test]
fn a_batch_has_its_senders_alerts_for_what_it_names(rt: HostRuntime) -> Result<(), Fail> {
    for (observer, config, expected) in &BATCHES {
        assert!(rt;
            refusal(rt.alloc(), batch(rt.alloc(), *observer, *config)?)? == *expected,
            "at {observer}, {config}"
        );
    }
    Ok(())
}

/// The cut of the process with the number 3.
fn cut(alloc: Global) -> Result<Cut, Fail> {
    Ok(Cut::new(Vec::from_array(alloc, [process(3)])?)?)
}

/// Whether all that is asked, promised and accepted at a ballot is refused so.
fn all_refused(
    alloc: Global,
    ballot: Ballot,
    expected: Option<MessageError>,
) -> Result<bool, Fail> {
    let id = ConfigId::zero();
    Ok(
        refusal(alloc, Body::Prepare(id, ballot))? == expected
            && refusal(alloc, Body::Promise(id, ballot, None))? == expected
            && refusal(alloc, Body::Accept(id, ballot, cut(alloc)?))? == expected
            && refusal(alloc, Body::Accepted(id, ballot, cut(alloc)?))? == expected,
    )
}

#[test]
fn nothing_is_asked_at_the_fast_ballot(rt: HostRuntime) -> Result<(), Fail> {
    let fast = Some(MessageError::FastBallot);
    assert!(rt; all_refused(rt.alloc(), Ballot::FAST, fast)?);
    if let Some(ballot) = Ballot::classic(2, 0) {
        assert!(rt; all_refused(rt.alloc(), ballot, None)?);
    }
    Ok(())
}

#[test]
fn a_vote_at_the_fast_ballot_is_said_and_reported(rt: HostRuntime) -> Result<(), Fail> {
    let id = ConfigId::zero();
    assert!(rt; refusal(rt.alloc(), Body::FastVote(id, cut(rt.alloc())?))?.is_none());
    if let Some(ballot) = Ballot::classic(250, 1023) {
        let vote = Some((Ballot::FAST, cut(rt.alloc())?));
        assert!(rt; refusal(rt.alloc(), Body::Promise(id, ballot, vote))?.is_none());
    }
    Ok(())
}

/// A reply Safe that names no observer, or one.
fn safe(alloc: Global, is_named: bool) -> Result<Body, Fail> {
    let mut observers = Vec::new(alloc);
    if is_named {
        observers.push(process(1))?;
    }
    let reply = Reply::Safe(ConfigId::zero(), RingObservers::new(observers)?);
    Ok(Body::Reply(shared(alloc, &process(3))?, reply))
}

#[test]
fn a_reply_safe_names_an_observer(rt: HostRuntime) -> Result<(), Fail> {
    assert!(rt; refusal(rt.alloc(), safe(rt.alloc(), false)?)? == Some(MessageError::NoObserver));
    assert!(rt; refusal(rt.alloc(), safe(rt.alloc(), true)?)?.is_none());
    let full = Body::Reply(shared(rt.alloc(), &process(3))?, Reply::TooManyJoiners);
    assert!(rt; refusal(rt.alloc(), full)?.is_none());
    Ok(())
}

const CODES: [(MessageError, u8); 4] = [
    (MessageError::OtherObserver, 1),
    (MessageError::OtherConfiguration, 2),
    (MessageError::FastBallot, 3),
    (MessageError::NoObserver, 4),
];

#[test]
fn refusals_have_their_numbers(rt: HostRuntime) {
    for (error, code) in &CODES {
        assert!(rt; error.code() == *code, "at {error:?}");
    }
}
