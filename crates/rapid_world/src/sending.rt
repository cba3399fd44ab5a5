// What a node sent in one step.

ghost use Rattle.std.specs.Prelude.{◌≡◌, ◌<◌, ℕ, flat_map, length, slice_get, ◌+◌, IfSome};
ghost use Rattle.std.specs.Option.{option_map};
ghost use Rattle.rapid_world.specs.Arrivals.{HaveFrame};
ghost use Rattle.rapid_world.specs.Framed.{frames_of, frame_to};

use crate::framed::FramedOutput;
use crate::recipients::Recipients;
use bytes::Bytes;
use rapid_endpoint::Endpoint;
use rapid_message::Destination;
use std::alloc::AllocError;
use std::marker::Model;

/// What a node sent in one step, as the step gave it out: the frame of a message to many is kept
/// once.
#[derive(Debug, Drop)]
pub(crate) struct Sending {
    // how many packets were sent before
    first: u64,
    // how many these are
    count: u64,
    recipients: Recipients,
    outputs: Vec<FramedOutput>,
}

impl Model for Sending {
    ghost use Rattle.std.specs.Prelude.{◌≡◌, ◌+◌, ◌<◌, ◌^◌, flat_map, length};
    ghost use Rattle.rapid_world.specs.Framed.{frames_of};
    ghost use Rattle.rapid_world.specs.Sent.{Sent};

    ghost Value = { Sent };

    ghost view = { λ s. record { first = s.first; packets = flat_map (frames_of s.recipients) s.outputs.items } };

    ghost invariant = { λ s. (s.count ≡ length (flat_map (frames_of s.recipients) s.outputs.items)) × (s.first + s.count < 2 ^ 64) };
}

/// How many packets an output makes.
#[tactic(auto, using(crate::proofs::Packets::count_of))]
fn count_of(output: &FramedOutput, recipients: &Recipients) -> u64
    ensures { result ≡ length (frames_of recipients.now output.now) }
{
    match output.to() {
        Destination::To(_) => 1,
        Destination::Others => recipients.len() as u64,
    }
}

/// How many packets these outputs make; none if there are too many for the number.
#[tactic(auto, using(crate::proofs::Packets::count_more))]
fn count_all(outputs: &[FramedOutput], recipients: &Recipients) -> Option<u64>
    ensures { IfSome result (λ count. count ≡ length (flat_map (frames_of recipients.now) outputs.now)) }
{
    let mut count: u64 = 0;
    for output in outputs {
        count = count.checked_add(count_of(output, recipients))?;
    }
    Some(count)
}

/// The packet of an output at a place among those that it makes: its endpoint and its frame.
#[tactic(auto, using(crate::proofs::Packets::to_others, crate::proofs::Packets::to_one))]
fn packet_at<'a>(
    output: &'a FramedOutput,
    recipients: &Recipients,
    place: u64,
) -> Option<(Endpoint, &'a [u8])>
    ensures { option_map (λ x. frame_to x.1.now x.0) result ≡ slice_get (frames_of recipients.now output.now) place }
{
    match output.to() {
        Destination::To(endpoint) if place == 0 => Some((endpoint, output.frame())),
        Destination::To(_) => None,
        Destination::Others => match recipients.get(place as usize) {
            Some(recipient) => Some((recipient.endpoint(), output.frame())),
            None => None,
        },
    }
}

/// The packet at a place among those that these outputs make.
#[tactic(auto, using(crate::proofs::Packets::passes, crate::proofs::Packets::stops, crate::proofs::Packets::none_left))]
fn find_packet<'a>(
    outputs: &'a [FramedOutput],
    recipients: &Recipients,
    place: u64,
) -> Option<(Endpoint, &'a [u8])>
    ensures { option_map (λ x. frame_to x.1.now x.0) result ≡ slice_get (flat_map (frames_of recipients.now) outputs.now) place }
{
    let mut rest = place;
    for output in outputs {
        let count = count_of(output, recipients);
        if rest < count {
            return packet_at(output, recipients, rest);
        }
        rest -= count;
    }
    None
}

/// The numbers between which those packets of these outputs are that have the frame of the packet with
/// a number: above the one, up to the other. `first` packets were sent before these.
#[tactic(auto, using(crate::proofs::Packets::count_on))]
fn find_span(
    outputs: &[FramedOutput],
    recipients: &Recipients,
    first: u64,
    number: u64,
) -> Option<(u64, u64)>
    requires { first < number }
    ensures { IfSome result (λ x. HaveFrame (record { first = first; packets = flat_map (frames_of recipients.now) outputs.now }) x.0 x.1 number) }
{
    let mut before = first;
    for output in outputs {
        let end = before.checked_add(count_of(output, recipients))?;
        if number <= end {
            return Some((before, end));
        }
        before = end;
    }
    None
}

impl Sending {
    /// What was sent in a step, after `first` packets; none if there are too many for the number.
    pub(crate) fn new(
        first: u64,
        recipients: Recipients,
        outputs: Vec<FramedOutput>,
    ) -> Option<Sending>
        ensures { IfSome result (λ s. s ≡ record { first = first; packets = flat_map (frames_of recipients) outputs.items }) }
    {
        let count = count_all(outputs.as_slice(), &recipients)?;
        first.checked_add(count)?;
        Some(Sending {
            first,
            count,
            recipients,
            outputs,
        })
    }

    /// How many packets were sent before.
    pub(crate) fn first(&self) -> u64
        ensures { result ≡ self.now.first }
    {
        self.first
    }

    /// How many packets were sent with these.
    pub(crate) fn end(&self) -> u64
        ensures { result ≡ self.now.first + length self.now.packets }
    {
        self.first + self.count
    }

    /// The packet at a place among these: its endpoint and its frame.
    pub(crate) fn packet(&self, place: u64) -> Option<(Endpoint, &[u8])>
        ensures { option_map (λ x. frame_to x.1.now x.0) result ≡ slice_get self.now.packets place }
    {
        find_packet(self.outputs.as_slice(), &self.recipients, place)
    }

    /// The numbers between which those of these packets are that have the frame of the packet with a
    /// number: above the one, up to the other.
    pub(crate) fn span(&self, number: u64) -> Option<(u64, u64)>
        requires { self.now.first < number }
        ensures { IfSome result (λ x. HaveFrame self.now x.0 x.1 number) }
    {
        find_span(
            self.outputs.as_slice(),
            &self.recipients,
            self.first,
            number,
        )
    }

    /// The frame that was sent last, shared, if any was.
    pub(crate) fn last_frame(&self) -> Result<Option<Bytes>, AllocError> {
        match self.outputs.last() {
            Some(output) => Ok(Some(output.share()?)),
            None => Ok(None),
        }
    }
}
