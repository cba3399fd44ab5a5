// Messages of a stream of bytes.

ghost use Rattle.std.specs.Prelude.{◌≡◌, ◌≤◌, ◌↔◌, [], true, drop, length, Ok, None, IfOk, IfErr, IfSome, OnOk, OnErr};
ghost use Rattle.rapid_model.specs.Feed.{StreamEnd, Left, IsFront, Whole, BeginsWith, IsTooLong, IsIncomplete};
ghost use Rattle.rapid_wire.specs.declared.fault.WireFault.TheVariants.{TooLong};
ghost use Rattle.rapid_wire.specs.Feeding.{IsNext, IsFrontFault, fed, lasting_of};

use crate::WireFault;
use crate::decoding::{decode, tell_bytes};
use crate::numbers::length_in;
use bytes::BytesMut;
use rapid_config::Configuration;
use rapid_endpoint::SharedProcess;
use rapid_message::Message;
use std::alloc::{AllocError, Global};
use std::marker::Model;

/// How many bytes the length of a frame has.
const LENGTH_BYTES: usize = 4;

/// The most bytes of a frame after its length.
const MOST_BYTES: usize = 2_097_152;

/// The messages of a stream of bytes that comes in pieces. A feed holds the bytes that were fed and
/// not yet answered as messages. If messages are taken until there is none before each next piece,
/// it never holds more than one frame and one piece. A fault is for good.
///
/// A byte is copied as it is fed. It is copied again if the bytes that are held move to the front
/// of the buffer. This happens once at least as many were answered. It is also copied if the buffer
/// grows, which at least doubles it. So feeding a stream byte by byte takes linear time, and once
/// the buffer has its size each byte is copied at most twice.
#[derive(Debug, Drop)]
pub struct Feed {
    held: BytesMut,
    fault: Option<WireFault>,
    // the sender of the last message: mostly the next one is from it too, and shares it
    sender: Option<SharedProcess>,
    alloc: Global,
}

impl Model for Feed {
    ghost use Rattle.rapid_model.specs.Feed.{StreamEnd};
    ghost use Rattle.rapid_wire.specs.Feeding.{end_of, IsLasting};

    ghost Value = { StreamEnd };

    ghost view = { λ f. end_of f.held.items f.fault };

    ghost invariant = { λ f. IsLasting f.fault };
}

/// The whole frame in front of the bytes, after its length, and how many bytes it has with that.
/// None if no whole frame is there.
#[tactic(auto, using(crate::proofs::Fronts::begins_at, crate::proofs::Fronts::too_long_at, crate::proofs::Fronts::not_whole_at))]
fn first_frame(bytes: &[u8]) -> Result<Option<(&[u8], usize)>, WireFault>
    ensures whole { IfOk result (λ o. IfSome o (λ x. BeginsWith bytes.now x.0.now (drop x.1 bytes.now))) }
    ensures within { IfOk result (λ o. IfSome o (λ x. x.1 ≤ length bytes.now)) }
    ensures none { result ≡ Ok None → IsIncomplete bytes.now }
    ensures fault { IfErr result (λ e. (e ≡ TooLong) × IsTooLong bytes.now) }
{
    tell_bytes(bytes);
    if bytes.len() < LENGTH_BYTES {
        return Ok(None);
    }
    let (head, rest) = bytes.split_at(LENGTH_BYTES);
    let length = length_in(head) as usize;
    if length > MOST_BYTES {
        return Err(WireFault::TooLong);
    }
    if rest.len() < length {
        return Ok(None);
    }
    let (whole, _) = rest.split_at(length);
    Ok(Some((whole, LENGTH_BYTES + length)))
}

/// The message in front of the bytes and how many bytes its frame has; none if no whole frame is
/// there. Or the fault that stands in its place. A configuration may be near, and a sender.
#[tactic(auto, using(crate::proofs::Fronts::fault_in_front, crate::proofs::Fronts::length_fault, crate::proofs::Fronts::message_in_front))]
pub(crate) fn front(
    alloc: Global,
    near: Option<&Configuration>,
    sender: Option<&SharedProcess>,
    bytes: &[u8],
) -> Result<Option<(Message, usize)>, WireFault>
    ensures whole { IfOk result (λ o. IfSome o (λ x. IsFront bytes.now (Whole x.0 (drop x.1 bytes.now)))) }
    ensures within { IfOk result (λ o. IfSome o (λ x. x.1 ≤ length bytes.now)) }
    ensures none { result ≡ Ok None → IsIncomplete bytes.now }
    ensures fault { IfErr result (IsFrontFault bytes.now) }
{
    match first_frame(bytes)? {
        Some((whole, length)) => {
            let message = decode(alloc, near, sender, whole)?;
            Ok(Some((message, length)))
        }
        None => Ok(None),
    }
}

/// Whether no whole frame stands in front of the bytes, and no fault in its place.
fn has_no_front(bytes: &[u8]) -> bool
    ensures { result ≡ true → IsIncomplete bytes.now }
{
    match first_frame(bytes) {
        Ok(None) => true,
        Ok(Some(_)) => false,
        Err(_) => false,
    }
}

/// The fault, if it is one of the stream.
fn lasting(fault: WireFault) -> Option<WireFault>
    ensures { result ≡ lasting_of fault }
{
    match fault {
        WireFault::OutOfMemory => None,
        _ => Some(fault),
    }
}

impl Feed {
    /// Keeps this sender for the next message, unless it is the one that is kept.
    #[inline(always)]
    fn keep(&mut self, sender: &SharedProcess)
        ensures { self.new ≡ self.old }
    {
        match &self.sender {
            Some(kept) if kept.is(sender.get()) => {}
            _ => self.sender = sender.share().ok(),
        }
    }

    /// A feed that was fed nothing.
    pub fn new(alloc: Global) -> Feed
        ensures { result ≡ Left [] }
    {
        Feed {
            held: BytesMut::new(alloc),
            fault: None,
            sender: None,
            alloc,
        }
    }

    /// Takes the next piece of the stream, which is ignored after a fault. If out of memory the
    /// feed is as it was.
    #[tactic(auto, using(crate::proofs::Feeds::fed_open, crate::proofs::Feeds::fed_failed))]
    pub fn feed(&mut self, piece: &[u8]) -> Result<(), AllocError>
        ensures fed { OnOk result (self.new ≡ fed self.old piece.now) }
        ensures unchanged { OnErr result (self.new ≡ self.old) }
    {
        if self.fault.is_some() {
            return Ok(());
        }
        self.held.extend_from_slice(piece)
    }

    /// Whether nothing is held, and no fault was met: the stream may end here without cutting a
    /// frame.
    #[tactic(auto, using(crate::proofs::Feeds::left_none, crate::proofs::Feeds::fault_left))]
    pub fn is_empty(&self) -> bool
        ensures { (result ≡ true) ↔ (self.now ≡ Left []) }
    {
        if self.fault.is_some() {
            return false;
        }
        self.held.is_empty()
    }

    /// The next message of the stream; none if no whole frame is there. The first fault that stands
    /// in a message's place is answered then and at each later call. The fault is `TooLong` as soon
    /// as the four bytes of a length above 2,097,152 are there. The others come once the whole
    /// frame is there, and the first that holds is answered. They are `BadBody` if it has no kind,
    /// `BadVersion`, `BadKind`, and `BadBody` if it is not spelt as a message is. `OutOfMemory`
    /// comes only in place of a message or of the last of these, and leaves the feed as it was.
    #[tactic(auto, using(crate::proofs::Feeds::next_none))]
    pub fn next(&mut self) -> Result<Option<Message>, WireFault>
        ensures { IsNext self.old self.new result }
    {
        if self.fault.is_none() && has_no_front(self.held.as_slice()) {
            return Ok(None);
        }
        self.next_of_front()
    }

    /// What [`Feed::next`] answers. It stands apart: room for a message takes time at each call of
    /// the function that has it, and at the end of each piece there is none.
    #[tactic(auto, using(crate::proofs::Feeds::same_fault, crate::proofs::Feeds::next_none, crate::proofs::Feeds::next_some, crate::proofs::Feeds::next_fault, crate::proofs::Feeds::is_lasting))]
    #[inline(never)]
    fn next_of_front(&mut self) -> Result<Option<Message>, WireFault>
        ensures { IsNext self.old self.new result }
    {
        if let Some(fault) = self.fault {
            return Err(fault);
        }
        match front(self.alloc, None, self.sender.as_ref(), self.held.as_slice()) {
            Ok(Some((message, length))) => {
                self.keep(message.shared_sender());
                self.held.advance(length);
                Ok(Some(message))
            }
            Ok(None) => Ok(None),
            Err(fault) => {
                self.fault = lasting(fault);
                Err(fault)
            }
        }
    }
}
