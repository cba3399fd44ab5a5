// How the parts of frames are read. A part that ends a body takes all bytes that it is given.

ghost use Rattle.std.specs.Prelude.{true, false, ◌≡◌, ◌≤◌, ◌==◌, ◌&&◌, nat_le, All, Some, None, IfOk, IfErr, drop, length, map, if◌then◌else◌};
ghost use Rattle.rapid_model.specs.Ballot.{IsClassicBallot};
ghost use Rattle.rapid_model.specs.Batch.{batch_fault};
ghost use Rattle.rapid_model.specs.Message.{item_of};
ghost use Rattle.rapid_model.specs.Reading.{processes_at};
ghost use Rattle.rapid_endpoint.specs.Ends.{AreAll};
ghost use Rattle.rapid_alerts.specs.Alerts.{alerts_in, kind_of};
ghost use Rattle.rapid_alerts.specs.Spelt.{IsBefore};
ghost use Rattle.rapid_paxos.specs.Reported.{last_of};
ghost use Rattle.rapid_join.specs.Answers.{NamesObservers, answer_of};
ghost use Rattle.rapid_message.specs.Bodies.{IsFrom};
ghost use Rattle.rapid_wire.specs.Faults.{Fails, Gives};
ghost use Rattle.rapid_wire.specs.Adding.{AddsItem};
ghost use Rattle.rapid_wire.specs.Reading.{both, all_of, many, front_at, byte_at, number_at, process_at, cut_at, is_cut, is_classic, is_ballot, numbers_at, ballot_at, report_at, kind_at, item_at, items_at, observers_at, made, id_at, safe_from, answer_at};

use crate::WireFault;
use crate::numbers::number_in;
use rapid_alerts::{AlertList, Batch, BatchError, Kind, SpeltError};
use rapid_config::{ConfigError, ConfigId, Cut};
use rapid_endpoint::{Endpoint, Process, ProcessId, ProcessList, SharedProcess};
use rapid_join::{Reply, RingObservers};
use rapid_paxos::Ballot;
use std::alloc::{AllocError, Global};

/// How many bytes a process has at least.
const LEAST_PROCESS_BYTES: usize = 23;

/// How many bytes the identifier of a configuration has.
pub(crate) const ID_BYTES: usize = 32;

/// Nothing is left.
pub(crate) fn ended(rest: &[u8]) -> Result<(), WireFault>
    ensures { Gives (λ x. x) result (if length rest.now == 0 then Some tt else None) }
{
    if rest.is_empty() {
        Ok(())
    } else {
        Err(WireFault::BadBody)
    }
}

/// One byte, and the rest.
#[tactic(auto, unfolding(crate::specs::Reading::byte_at))]
pub(crate) fn read_byte(bytes: &[u8]) -> Result<(u8, &[u8]), WireFault>
    ensures { Gives (λ x. (x.0, x.1.now)) result (byte_at bytes.now) }
{
    match bytes {
        [] => Err(WireFault::BadBody),
        [first, rest @ ..] => Ok((*first, rest)),
    }
}

/// This many bytes, and the rest.
pub(crate) fn read_front(bytes: &[u8], count: usize) -> Result<(&[u8], &[u8]), WireFault>
    ensures value { Gives (λ x. (x.0.now, x.1.now)) result (front_at count bytes.now) }
    ensures length { IfOk result (λ x. length x.0.now ≡ count) }
{
    if bytes.len() < count {
        return Err(WireFault::BadBody);
    }
    Ok(bytes.split_at(count))
}

/// A number of two bytes, and the rest.
#[tactic(auto, unfolding(crate::specs::Reading::number_at))]
fn read_number(bytes: &[u8]) -> Result<(u16, &[u8]), WireFault>
    ensures { Gives (λ x. (x.0, x.1.now)) result (number_at bytes.now) }
{
    let (front, rest) = read_front(bytes, 2)?;
    Ok((number_in(front), rest))
}

/// Some process, over which another is read.
pub(crate) fn any_process() -> Process {
    Process::new(ProcessId::new([0; 16]), Endpoint::new([0; 4], 0))
}

/// Reads the process in front of the bytes over this one, and says how many bytes it takes.
#[tactic(auto, unfolding(crate::specs::Reading::process_at))]
pub(crate) fn read_process(process: &mut Process, bytes: &[u8]) -> Result<usize, WireFault>
    ensures value { Gives (λ n. (process.new, drop n bytes.now)) result (process_at bytes.now) }
    ensures within { IfOk result (λ n. n ≤ length bytes.now) }
{
    match process.read_over(bytes) {
        Ok(length) => Ok(length),
        Err(_) => Err(WireFault::BadBody),
    }
}

/// The process in front of the bytes, to be shared, and how many bytes it takes. It stands apart:
/// room for a process takes time at each call of the function that has it.
#[inline(never)]
fn read_anew(alloc: Global, bytes: &[u8]) -> Result<(SharedProcess, usize), WireFault>
    ensures value { Gives (λ x. (x.0, drop x.1 bytes.now)) result (process_at bytes.now) }
    ensures within { IfOk result (λ x. x.1 ≤ length bytes.now) }
{
    let mut process = any_process();
    let length = read_process(&mut process, bytes)?;
    Ok((SharedProcess::new(alloc, &process)?, length))
}

/// The process in front of the bytes, to be shared, and how many bytes it takes. One that is near
/// is shared if it is spelt there.
#[tactic(auto, unfolding(crate::specs::Reading::process_at))]
pub(crate) fn read_shared(
    alloc: Global,
    near: Option<&SharedProcess>,
    bytes: &[u8],
) -> Result<(SharedProcess, usize), WireFault>
    ensures value { Gives (λ x. (x.0, drop x.1 bytes.now)) result (process_at bytes.now) }
    ensures within { IfOk result (λ x. x.1 ≤ length bytes.now) }
{
    match near {
        Some(shared) if shared.get().is_spelt_at(bytes) => {
            Ok((shared.share()?, shared.get().length()))
        }
        _ => read_anew(alloc, bytes),
    }
}

/// The identifier of these bytes.
pub(crate) fn id_in(bytes: &[u8]) -> ConfigId
    requires { length bytes.now ≡ 32 }
    ensures { result ≡ bytes.now }
{
    match bytes.first_chunk::<32>() {
        Some(chunk) => ConfigId::new(*chunk),
        None => unreachable!(),
    }
}

/// This many processes, and the rest.
fn read_processes(
    alloc: Global,
    count: usize,
    bytes: &[u8],
) -> Result<(Vec<Process>, &[u8]), WireFault>
    ensures { Gives (λ x. (x.0.items, x.1.now)) result (many count process_at bytes.now) }
{
    // no more room than the bytes can fill, whatever number they announce
    let most = count.min(bytes.len() / LEAST_PROCESS_BYTES);
    let mut processes = Vec::with_capacity(alloc, most)?;
    let mut process = any_process();
    let mut rest = bytes;
    for _ in 0..count {
        let length = read_process(&mut process, rest)?;
        processes.push(process)?;
        rest = rest.split_at(length).1;
    }
    Ok((processes, rest))
}

/// Whether these bytes are just this many processes.
fn are_just(count: usize, bytes: &[u8]) -> bool
    ensures all { result ≡ true → AreAll (processes_at count bytes.now) }
    ensures others { result ≡ false → all_of (many count process_at) bytes.now ≡ None }
{
    match ProcessList::end_in(count, bytes) {
        Ok(end) => end == bytes.len(),
        Err(_) => false,
    }
}

/// The cut of these processes, if they are one.
fn cut_of(alloc: Global, processes: ProcessList) -> Result<Cut, WireFault>
    ensures { Gives (λ cut. cut) result (if is_cut processes then Some processes else None) }
{
    match Cut::of_list(alloc, processes) {
        Ok(cut) => Ok(cut),
        Err(ConfigError::OutOfMemory) => Err(WireFault::OutOfMemory),
        Err(_) => Err(WireFault::BadBody),
    }
}

/// A cut. If more processes are announced than a cut may have, none of them is read.
#[tactic(auto, using(crate::proofs::Counts::too_many_in_cut), unfolding(crate::specs::Reading::cut_at))]
pub(crate) fn read_cut(alloc: Global, bytes: &[u8]) -> Result<Cut, WireFault>
    ensures { Gives (λ cut. cut) result (all_of cut_at bytes.now) }
{
    let (count, rest) = read_number(bytes)?;
    let count = usize::from(count);
    if count > Cut::MOST {
        return Err(WireFault::BadBody);
    }
    if !are_just(count, rest) {
        return Err(WireFault::BadBody);
    }
    let processes = ProcessList::of_bytes(alloc, count, rest)?;
    cut_of(alloc, processes)
}

/// A round and a position, and the rest.
#[tactic(auto, unfolding(crate::specs::Reading::numbers_at))]
pub(crate) fn read_numbers(bytes: &[u8]) -> Result<(u8, u16, &[u8]), WireFault>
    ensures { Gives (λ x. (record { round = x.0; position = x.1 }, x.2.now)) result (numbers_at bytes.now) }
{
    let (round, rest) = read_byte(bytes)?;
    let (position, rest) = read_number(rest)?;
    Ok((round, position, rest))
}

/// The classic ballot of a round and a position, if there is one.
pub(crate) fn classic_of(round: u8, position: u16) -> Result<Ballot, WireFault>
    ensures value { Gives (λ b. b) result
        (if is_classic (record { round = round; position = position }) then Some (record { round = round; position = position }) else None) }
    ensures classic { IfOk result IsClassicBallot }
{
    match Ballot::classic(round, usize::from(position)) {
        Some(ballot) => Ok(ballot),
        None => Err(WireFault::BadBody),
    }
}

/// The ballot of a round and a position, if there is one.
fn ballot_of(round: u8, position: u16) -> Result<Ballot, WireFault>
    ensures { Gives (λ b. b) result
        (if is_ballot (record { round = round; position = position }) then Some (record { round = round; position = position }) else None) }
{
    if round == 1 && position == 0 {
        Ok(Ballot::FAST)
    } else {
        classic_of(round, position)
    }
}

/// A ballot and a cut.
#[tactic(auto, unfolding(crate::specs::Reading::ballot_at))]
fn read_vote(alloc: Global, bytes: &[u8]) -> Result<(Ballot, Cut), WireFault>
    ensures { Gives (λ x. x) result (all_of (both ballot_at cut_at) bytes.now) }
{
    let (round, position, rest) = read_numbers(bytes)?;
    let ballot = ballot_of(round, position)?;
    let cut = read_cut(alloc, rest)?;
    Ok((ballot, cut))
}

/// The vote that a promise reports, or none.
#[tactic(auto, unfolding(crate::specs::Reading::report_at))]
pub(crate) fn read_report(alloc: Global, bytes: &[u8]) -> Result<Option<(Ballot, Cut)>, WireFault>
    ensures { Gives last_of result (all_of report_at bytes.now) }
{
    let (mark, rest) = read_byte(bytes)?;
    match mark {
        0 => {
            ended(rest)?;
            Ok(None)
        }
        1 => Ok(Some(read_vote(alloc, rest)?)),
        _ => Err(WireFault::BadBody),
    }
}

/// The kind of an alert, and the rest.
#[tactic(auto, unfolding(crate::specs::Reading::kind_at))]
fn read_kind(bytes: &[u8]) -> Result<(Kind, &[u8]), WireFault>
    ensures { Gives (λ x. (kind_of x.0, x.1.now)) result (kind_at bytes.now) }
{
    let (byte, rest) = read_byte(bytes)?;
    match byte {
        1 => Ok((Kind::Remove, rest)),
        2 => Ok((Kind::Join, rest)),
        _ => Err(WireFault::BadBody),
    }
}

/// Adds the alert in front of the bytes to a list. Says how many bytes it takes, and where those of
/// its subject begin. Those of the subject of the alert before begin in front of `before`: mostly it
/// is the same.
#[tactic(auto, using(crate::proofs::Parts::item_within), unfolding(crate::specs::Reading::item_at))]
fn add_alert<'a>(
    alerts: &mut AlertList,
    before: &[u8],
    bytes: &'a [u8],
) -> Result<(usize, &'a [u8]), WireFault>
    requires { IsBefore alerts.old before.now }
    ensures added { IfOk result (λ x. AddsItem alerts.old alerts.new bytes.now x.0) }
    ensures next { IfOk result (λ x. IsBefore alerts.new x.1.now) }
    ensures refused { IfErr result (λ e. Fails e (item_at bytes.now)) }
    ensures within { IfOk result (λ x. x.0 ≤ length bytes.now) }
{
    let (ring, rest) = read_byte(bytes)?;
    let (kind, rest) = read_kind(rest)?;
    match alerts.push_spelt_after(before, ring, kind, rest) {
        Ok(length) => Ok((2 + length, rest)),
        Err(SpeltError::OutOfMemory) => Err(WireFault::OutOfMemory),
        Err(SpeltError::NoProcess(_)) => Err(WireFault::BadBody),
    }
}

/// This many alerts of an observer for a configuration, and the rest. They share the observer.
fn read_alerts<'a>(
    alloc: Global,
    observer: &SharedProcess,
    config: ConfigId,
    count: usize,
    bytes: &'a [u8],
) -> Result<(AlertList, &'a [u8]), WireFault>
    ensures value { Gives (λ x. (map item_of (alerts_in x.0), x.1.now)) result (many count item_at bytes.now) }
    ensures from { IfOk result (λ x. All (IsFrom observer.now config) (alerts_in x.0)) }
{
    let mut alerts = AlertList::new(alloc, observer.share()?, config);
    let mut before: &[u8] = &[];
    let mut rest = bytes;
    for _ in 0..count {
        let (length, subject) = add_alert(&mut alerts, before, rest)?;
        before = subject;
        rest = rest.split_at(length).1;
    }
    Ok((alerts, rest))
}

/// The batch of alerts that are one.
fn batch_of(alloc: Global, alerts: AlertList) -> Result<Batch, AllocError>
    requires { batch_fault (alerts_in alerts) ≡ None }
    ensures { IfOk result (λ batch. batch ≡ alerts_in alerts) }
{
    match Batch::of_list(alloc, alerts) {
        Ok(batch) => Ok(batch),
        Err(BatchError::OutOfMemory) => Err(AllocError),
        Err(_) => unreachable!(),
    }
}

/// Whether a list may have this many values: some, and no more than the most.
fn may_have(count: usize, most: usize) -> bool
    ensures { result ≡ (nat_le 1 count && nat_le count most) }
{
    1 <= count && count <= most
}

/// The alerts of a batch, which share the observer. If a batch cannot have as many as are announced,
/// none of them is read.
#[tactic(auto, unfolding(crate::specs::Reading::items_at))]
pub(crate) fn read_batch(
    alloc: Global,
    observer: &SharedProcess,
    config: ConfigId,
    bytes: &[u8],
) -> Result<Batch, WireFault>
    ensures value { Gives (λ x. map item_of x) result (all_of items_at bytes.now) }
    ensures from { IfOk result (λ x. All (IsFrom observer.now config) x) }
{
    let (count, rest) = read_number(bytes)?;
    let count = usize::from(count);
    if !may_have(count, Batch::MOST) {
        return Err(WireFault::BadBody);
    }
    let (alerts, rest) = read_alerts(alloc, observer, config, count, rest)?;
    ended(rest)?;
    Ok(batch_of(alloc, alerts)?)
}

/// The observers of a joiner. If there cannot be as many as are announced, none of them is read.
#[tactic(auto, unfolding(crate::specs::Reading::observers_at))]
fn read_observers(alloc: Global, bytes: &[u8]) -> Result<RingObservers, WireFault>
    ensures value { Gives (λ x. x) result (all_of observers_at bytes.now) }
    ensures some { IfOk result (λ x. 1 ≤ length x) }
{
    let (count, rest) = read_byte(bytes)?;
    let count = usize::from(count);
    if !may_have(count, RingObservers::MOST) {
        return Err(WireFault::BadBody);
    }
    let (processes, rest) = read_processes(alloc, count, rest)?;
    ended(rest)?;
    Ok(RingObservers::new(processes)?)
}

/// An identifier and a joiner's observers.
#[tactic(auto, unfolding(crate::specs::Reading::id_at))]
fn read_safe(alloc: Global, bytes: &[u8]) -> Result<Reply, WireFault>
    ensures value { Gives answer_of result (all_of (made safe_from (both id_at observers_at)) bytes.now) }
    ensures can { IfOk result NamesObservers }
{
    let (front, rest) = read_front(bytes, ID_BYTES)?;
    let observers = read_observers(alloc, rest)?;
    Ok(Reply::Safe(id_in(front), observers))
}

/// What a host answers.
#[tactic(auto, unfolding(crate::specs::Reading::answer_at))]
pub(crate) fn read_answer(alloc: Global, bytes: &[u8]) -> Result<Reply, WireFault>
    ensures value { Gives answer_of result (all_of answer_at bytes.now) }
    ensures can { IfOk result NamesObservers }
{
    let (code, rest) = read_byte(bytes)?;
    if code == 1 {
        return read_safe(alloc, rest);
    }
    ended(rest)?;
    match code {
        2 => Ok(Reply::EndpointInUse),
        3 => Ok(Reply::ConfigurationChanged),
        4 => Ok(Reply::TooManyJoiners),
        _ => Err(WireFault::BadBody),
    }
}
