// Messages that are dropped since they repeat others, and more that are not than a journal has room
// for.

use bytes::Bytes;
use rapid_alerts::{Alert, Batch, Kind};
use rapid_config::{ConfigId, Configuration, Cut, Params};
use rapid_endpoint::{Endpoint, Process, ProcessId, SharedProcess};
use rapid_join::Reply;
use rapid_message::{Body, Message};
use rapid_repeats::Repeats;
use rapid_service::{Post, Received, Service};
use std::alloc::{AllocError, Global};
use std::process::Abort;
use std::sync::Wait;
use std::test::Fail;

/// The process of this number.
fn process(number: u8) -> Process {
    let id = [0, 0, 0, 0, 0, 0, 0, 0, 0, 0, 0, 0, 0, 0, 0, number];
    Process::new(
        ProcessId::new(id),
        Endpoint::new([127, 0, 0, 1], 7_600 + u16::from(number)),
    )
}

/// The process of this number, to be shared.
fn shared(alloc: Global, number: u8) -> Result<SharedProcess, AllocError> {
    SharedProcess::new(alloc, &process(number))
}

/// The configuration of the processes 1 to 3.
fn three(alloc: Global) -> Result<Configuration, Fail> {
    let members = [process(1), process(2), process(3)];
    let configuration = Configuration::seed(alloc, Params::new(3, 3, 1)?, &members)?;
    Ok(configuration)
}

/// The fast vote of a process for the cut of another.
fn vote(alloc: Global, sender: u8, id: ConfigId, joiner: u8) -> Result<Message, Fail> {
    let mut processes = Vec::new(alloc);
    processes.push(process(joiner))?;
    let vote = Body::FastVote(id, Cut::new(processes)?);
    Ok(Message::new(shared(alloc, sender)?, vote)?)
}

/// A batch of a process with an alert on another.
fn batch(alloc: Global, sender: u8, id: ConfigId, joiner: u8) -> Result<Message, Fail> {
    let alert = Alert {
        observer: process(sender),
        subject: process(joiner),
        ring: 0,
        kind: Kind::Join,
        config: id,
    };
    let batch = Body::Batch(id, Batch::new(alloc, &[alert])?);
    Ok(Message::new(shared(alloc, sender)?, batch)?)
}

/// A fast vote or a batch of a process that speaks of another.
fn said(alloc: Global, votes: bool, sender: u8, id: ConfigId, joiner: u8) -> Result<Message, Fail> {
    if votes {
        vote(alloc, sender, id, joiner)
    } else {
        batch(alloc, sender, id, joiner)
    }
}

/// The request of a process on a ring.
fn request(alloc: Global, sender: u8, id: ConfigId, ring: u8) -> Result<Message, Fail> {
    Ok(Message::new(shared(alloc, sender)?, Body::JoinRequest(id, ring))?)
}

/// The question of a process whether it may join.
fn question(alloc: Global, sender: u8) -> Result<Message, Fail> {
    Ok(Message::new(shared(alloc, sender)?, Body::PreJoin)?)
}

#[test]
fn votes_and_batches_of_members_are_taken_once(rt: HostRuntime) -> Result<(), Fail> {
    let alloc = rt.alloc();
    let configuration = three(alloc)?;
    let (here, elsewhere) = (configuration.id(), ConfigId::zero());
    let mut repeats = Repeats::new(alloc, &configuration)?;
    // who speaks of whom and in which configuration, and whether that is taken
    let told = [
        (2, 4, here, true),
        (2, 4, here, false),
        (3, 4, here, true),
        (2, 5, here, true),
        (2, 5, here, false),
        (9, 4, here, true),
        (2, 4, elsewhere, true),
        (9, 4, here, true),
        (2, 4, elsewhere, true),
    ];
    for votes in [true, false] {
        for (place, (sender, joiner, id, is_taken)) in told.into_iter().enumerate() {
            let message = said(alloc, votes, sender, id, joiner)?;
            assert_eq!(rt; repeats.admits(&message), is_taken, "at {votes}, {place}");
        }
    }
    Ok(())
}

#[test]
fn requests_are_taken_once_and_questions_each_tenth_tick(rt: HostRuntime) -> Result<(), Fail> {
    let alloc = rt.alloc();
    let configuration = three(alloc)?;
    let (here, elsewhere) = (configuration.id(), ConfigId::zero());
    let mut repeats = Repeats::new(alloc, &configuration)?;
    for ring in 0..2 {
        assert!(rt;
            repeats.admits(&request(alloc, 7, here, ring)?),
            "at {ring}"
        );
        assert!(rt;
            !repeats.admits(&request(alloc, 7, here, ring)?),
            "at {ring}"
        );
        for time in 0..2 {
            assert!(rt;
                repeats.admits(&request(alloc, 7, elsewhere, ring)?),
                "at {ring}, {time}"
            );
        }
    }
    for time in 0..3 {
        assert!(rt; repeats.admits(&question(alloc, 7)?), "at {time}");
        for ticks in 0..10 {
            assert!(rt; !repeats.admits(&question(alloc, 7)?), "at {time}, {ticks}");
            repeats.tick();
        }
    }
    assert!(rt; repeats.admits(&question(alloc, 8)?));
    Ok(())
}

#[test]
fn joiners_that_differ_in_tags_are_no_repeats(rt: HostRuntime) -> Result<(), Fail> {
    let configuration = three(rt.alloc())?;
    let here = configuration.id();
    let mut repeats = Repeats::new(rt.alloc(), &configuration)?;
    let bare = process(7);
    let tagged = Process::tagged(bare.id(), bare.endpoint(), &[b"db"])?;
    for joiner in [bare, tagged] {
        let asking = SharedProcess::new(rt.alloc(), &joiner)?;
        for is_taken in [true, false] {
            let question = Message::new(asking.share()?, Body::PreJoin)?;
            assert_eq!(rt; repeats.admits(&question), is_taken, "at {joiner:?}");
            let request = Message::new(asking.share()?, Body::JoinRequest(here, 0))?;
            assert_eq!(rt; repeats.admits(&request), is_taken, "at {joiner:?}");
        }
    }
    Ok(())
}

/// The question of the joiner of this number.
fn question_of(alloc: Global, number: u16) -> Result<Message, Fail> {
    let [high, low] = number.to_be_bytes();
    let id = [1, 0, 0, 0, 0, 0, 0, 0, 0, 0, 0, 0, 0, 0, high, low];
    let joiner = Process::new(ProcessId::new(id), Endpoint::new([127, 0, 0, 1], 7_600));
    Ok(Message::new(SharedProcess::new(alloc, &joiner)?, Body::PreJoin)?)
}

#[test]
fn questions_of_4096_joiners_are_kept(rt: HostRuntime) -> Result<(), Fail> {
    let configuration = three(rt.alloc())?;
    let mut repeats = Repeats::new(rt.alloc(), &configuration)?;
    for number in 0..4_096 {
        assert!(rt; repeats.admits(&question_of(rt.alloc(), number)?));
    }
    for _ in 0..2 {
        assert!(rt; repeats.admits(&question_of(rt.alloc(), 4_096)?));
        assert!(rt; !repeats.admits(&question_of(rt.alloc(), 4_095)?));
    }
    Ok(())
}

#[test]
fn other_messages_are_taken_each_time(rt: HostRuntime) -> Result<(), Fail> {
    let configuration = three(rt.alloc())?;
    let mut repeats = Repeats::new(rt.alloc(), &configuration)?;
    let here = configuration.id();
    for _ in 0..2 {
        let probe = Message::new(shared(rt.alloc(), 2)?, Body::Probe(here))?;
        assert!(rt; repeats.admits(&probe));
        let answer = Message::new(shared(rt.alloc(), 2)?, Body::ProbeAck(here))?;
        assert!(rt; repeats.admits(&answer));
    }
    Ok(())
}

/// Counts the frames that are sent.
#[derive(Drop)]
struct Count {
    frames: u64,
}

impl Post for Count {
    ghost has_posted = { λ _ _ _. Unit {0} };

    ghost idle = { λ _. tt };

    ghost later = { λ _ _ _ _ _ _ _. tt };

    fn post<W: Wait>(&mut self, _rt: &W, _to: Endpoint, _frame: Bytes) {
        self.frames = self.frames.saturating_add(1);
    }
}

/// The service of process 1, which process 2 has let into the configuration of three.
fn member<R: Wait + Copy + Drop>(rt: R, alloc: Global) -> Result<Service<R, Count>, Fail> {
    let seed = process(2).endpoint();
    let mut service = Service::join(rt, alloc, process(1), seed, Count { frames: 0 })?;
    let confirm = Body::Confirm(three(alloc)?);
    service.receive(Message::new(shared(alloc, 2)?, confirm)?)?;
    Ok(service)
}

/// How often a message comes: oftener than a journal has room for records, of which it has 65,536.
const REPEATS: usize = 66_000;

#[test]
fn more_repeats_than_a_journal_holds_leave_a_running_node(rt: HostRuntime) -> Result<(), Fail> {
    let alloc = rt.alloc();
    let here = three(alloc)?.id();
    let mut service = member(&rt, alloc)?;
    assert_eq!(rt; service.receive(question(alloc, 4)?), Ok(Received::Taken));
    for _ in 1..REPEATS {
        assert_eq!(rt; service.receive(question(alloc, 4)?), Ok(Received::Dropped));
    }
    assert_eq!(rt; service.post().frames, 1);
    assert_eq!(rt;
        service.receive(batch(alloc, 2, here, 4)?),
        Ok(Received::Taken)
    );
    for _ in 1..REPEATS {
        assert_eq!(rt;
            service.receive(batch(alloc, 2, here, 4)?),
            Ok(Received::Dropped)
        );
    }
    assert_eq!(rt; service.post().frames, 1);
    assert!(rt; service.tick().is_ok());
    Ok(())
}

#[test]
fn before_the_first_view_nothing_is_dropped(rt: HostRuntime) -> Result<(), Fail> {
    let alloc = rt.alloc();
    let seed = process(2).endpoint();
    let mut service = Service::join(&rt, alloc, process(1), seed, Count { frames: 0 })?;
    for _ in 0..3 {
        assert_eq!(rt; service.receive(question(alloc, 4)?), Ok(Received::Taken));
    }
    Ok(())
}

/// The decision to remove process 3 from a configuration.
fn removal(alloc: Global, id: ConfigId) -> Result<Message, Fail> {
    let mut removed = Vec::new(alloc);
    removed.push(process(3))?;
    let decision = Body::Decision(id, Cut::new(removed)?);
    Ok(Message::new(shared(alloc, 2)?, decision)?)
}

#[test]
fn a_later_view_has_a_new_filter(rt: HostRuntime) -> Result<(), Fail> {
    let alloc = rt.alloc();
    let mut service = member(&rt, alloc)?;
    assert_eq!(rt; service.receive(question(alloc, 4)?), Ok(Received::Taken));
    assert_eq!(rt; service.receive(question(alloc, 4)?), Ok(Received::Dropped));
    service.receive(removal(alloc, three(alloc)?.id())?)?;
    assert_eq!(rt;
        service.take_lines().as_slice(),
        b"height 0 members 127.0.0.1:7601 127.0.0.1:7602 127.0.0.1:7603\nheight 1 members 127.0.0.1:7601 127.0.0.1:7602\n".as_slice()
    );
    assert_eq!(rt; service.receive(question(alloc, 4)?), Ok(Received::Taken));
    assert_eq!(rt; service.receive(question(alloc, 4)?), Ok(Received::Dropped));
    Ok(())
}

#[test]
fn ticks_of_a_service_count_for_its_filter(rt: HostRuntime) -> Result<(), Fail> {
    let alloc = rt.alloc();
    let mut service = member(&rt, alloc)?;
    for time in 0..3 {
        let received = service.receive(question(alloc, 4)?);
        assert_eq!(rt; received, Ok(Received::Taken), "at {time}");
        for ticks in 0..10 {
            let received = service.receive(question(alloc, 4)?);
            assert_eq!(rt; received, Ok(Received::Dropped), "at {time}, {ticks}");
            service.tick()?;
        }
    }
    Ok(())
}

/// More events than a journal has room for.
const EVENTS: u32 = 66_000;

#[test]
fn a_node_goes_on_past_a_full_journal(rt: HostRuntime) -> Result<(), Fail> {
    let alloc = rt.alloc();
    let params = Params::new(3, 3, 1)?;
    let mut service = Service::found(&rt, alloc, params, process(1), Count { frames: 0 })?;
    for _ in 0..EVENTS {
        let reply = Body::Reply(shared(alloc, 3)?, Reply::TooManyJoiners);
        let received = service.receive(Message::new(shared(alloc, 2)?, reply)?);
        assert_eq!(rt; received, Ok(Received::Taken));
    }
    assert!(rt; service.tick().is_ok());
    assert_eq!(rt;
        service.take_lines().as_slice(),
        b"height 0 members 127.0.0.1:7601\n".as_slice()
    );
    Ok(())
}
