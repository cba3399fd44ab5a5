// The side of the process that joins.

ghost use Rattle.std.specs.Prelude.{◌≡◌, ◌&&◌, [], map, IfOk, IsOk, if◌then◌else◌};
ghost use Rattle.rapid_model.specs.Process.{same_bytes};
ghost use Rattle.rapid_model.specs.Joiner.{fresh_joiner, after_tick, asks_at_tick, requests_from, sent_at_reply};
ghost use Rattle.rapid_join.specs.Answers.{answer_of, is_safe, request_of, sent_by, is_requests, question_to};

use crate::{JoinRequest, JoinerAnswer, Reply, RingObservers};
use rapid_config::ConfigId;
use rapid_endpoint::{Endpoint, Process};
use std::alloc::{AllocError, Global};
use std::marker::Model;

/// The side of a process that joins: it asks its seed at its ticks 1, 11, 21 and so on. It keeps
/// nothing of a reply.
#[derive(Debug, Drop)]
pub struct Joiner {
    process: Process,
    seed: Endpoint,
    // how many ticks it had, modulo ten
    ticks: u8,
}

impl Model for Joiner {
    ghost use Rattle.std.specs.Prelude.{◌<◌};
    ghost use Rattle.rapid_model.specs.Limits.{question_period};
    ghost use Rattle.rapid_model.specs.JoinSides.{JoinerSide};

    ghost Value = { JoinerSide };

    ghost view = { λ j. record { process = j.process; joiner = record { seed = j.seed; ticks = j.ticks } } };

    ghost invariant = { λ j. j.ticks < question_period };
}

impl Joiner {
    /// After how many ticks a joiner asks again.
    pub const QUESTION_PERIOD: u8 = 10;

    /// The process, which joins by the seed at this endpoint and had no tick.
    pub fn new(process: Process, seed: Endpoint) -> Joiner
        ensures { result ≡ record { process = process; joiner = fresh_joiner seed } }
    {
        Joiner {
            process,
            seed,
            ticks: 0,
        }
    }

    /// A tick: `PreJoin` to the seed at the ticks 1, 11, 21 and so on, `Nothing` at the others. It
    /// takes no memory.
    pub fn on_tick(&mut self) -> JoinerAnswer
        ensures answer { result ≡ question_to (asks_at_tick self.old.joiner) }
        ensures after { self.new ≡ record self.old { joiner = after_tick self.old.joiner } }
    {
        let is_time = self.ticks == 0;
        self.ticks = (self.ticks + 1) % Joiner::QUESTION_PERIOD;
        if is_time {
            JoinerAnswer::PreJoin(self.seed)
        } else {
            JoinerAnswer::Nothing
        }
    }

    /// What this process does at a reply to it. At `Safe` it is one request a ring, rings
    /// ascending, to that ring's observer. At `ConfigurationChanged` it is `PreJoin` to the seed.
    /// At the others, and at a reply to another process, it is `Nothing`.
    pub fn on_reply(
        &self,
        alloc: Global,
        process: &Process,
        reply: &Reply,
    ) -> Result<JoinerAnswer, AllocError>
        ensures sent { IfOk result (λ answer. sent_by answer ≡
            (if same_bytes process.now self.now.process then sent_at_reply self.now.joiner (answer_of reply.now) else [])) }
        ensures requests { IfOk result (λ answer. is_requests answer ≡ (same_bytes process.now self.now.process && is_safe reply.now)) }
    {
        if *process != self.process {
            return Ok(JoinerAnswer::Nothing);
        }
        match reply {
            Reply::Safe(id, observers) => {
                Ok(JoinerAnswer::Requests(requests(alloc, *id, observers)?))
            }
            // it has other observers now, which the seed knows
            Reply::ConfigurationChanged => Ok(JoinerAnswer::PreJoin(self.seed)),
            // it asks again at its tenth tick: a member with its endpoint may leave, and joiners
            // are let in
            Reply::EndpointInUse | Reply::TooManyJoiners => Ok(JoinerAnswer::Nothing),
        }
    }

    /// An equal joiner. It takes no memory, and is always Ok.
    pub fn try_copy(&self) -> Result<Joiner, AllocError>
        ensures equal { IfOk result (λ joiner. joiner ≡ self.now) }
        ensures made { IsOk result }
    {
        Ok(Joiner {
            process: self.process,
            seed: self.seed,
            ticks: self.ticks,
        })
    }
}

/// One request a ring, rings ascending, to that ring's observer.
fn requests(
    alloc: Global,
    id: ConfigId,
    observers: &RingObservers,
) -> Result<Vec<JoinRequest>, AllocError>
    ensures { IfOk result (λ requests. map request_of requests.items ≡ requests_from 0 id observers.now) }
{
    let observers = observers.as_slice();
    let mut requests = Vec::with_capacity(alloc, observers.len())?;
    let mut ring: u8 = 0;
    for observer in observers {
        let to = observer.endpoint();
        requests.push(JoinRequest { to, id, ring })?;
        ring += 1;
    }
    Ok(requests)
}
