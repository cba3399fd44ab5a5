// Messages from any reader, and frames to any writer.

ghost use Rattle.std.specs.Prelude.{◌≡◌, ◌⊎◌, ◌<◌, ◌≤◌, [], length, take, OnOk, OnErr, IfOk, IfErr};
ghost use Rattle.std.specs.Io.KnownBytes.{Appends};
ghost use Rattle.rapid_transport.specs.declared.error.TransportError.TheVariants.{PeerClosed, Io};
ghost use Rattle.rapid_transport.specs.Counting.{after_io};
ghost use Rattle.rapid_transport.specs.Receiving.{Refills, Receives};
ghost use Rattle.rapid_transport.specs.Sending.{WritesPart};

use crate::TransportError;
use crate::counted::{CountedRead, CountedWrite};
use bytes::Bytes;
use rapid_message::Message;
use rapid_wire::Feed;
use std::sync::Wait;

/// How many bytes are read at a time.
const BLOCK: usize = 16_384;

/// Reads some bytes and feeds them; false if the input has ended.
fn refill<R: CountedRead>(reader: &mut R, feed: &mut Feed) -> Result<bool, TransportError>
    ensures refills { Refills feed.old feed.new (R.remaining reader.old) (R.remaining reader.new) result }
    ensures counts { R.faults reader.new ≡ after_io result (R.faults reader.old) }
{
    let mut block = [0; BLOCK];
    let count = reader.read_some(&mut block)?;
    if count == 0 {
        return Ok(false);
    }
    feed.feed(&block[..count])?;
    Ok(true)
}

/// The next message of the reader's bytes, which go through the feed. It is what the feed answers
/// of the bytes that it held and of those that were read. It reads only if no whole frame is held.
/// None if the input has ended between frames.
///
/// # Errors
///
/// `PeerClosed` if the input has ended within a frame. `Io` if the device failed in this call.
/// `Wire` with the feed's fault, at each later call too. `OutOfMemory`, after which bytes that were
/// read may be lost. The connection is given up after each of them.
pub fn receive<W: Wait, R: CountedRead>(
    rt: &W,
    reader: &mut R,
    feed: &mut Feed,
) -> Result<Option<Message>, TransportError>
    ensures received { Receives feed.old feed.new (R.remaining reader.old) (R.remaining reader.new) result }
    ensures counts { R.faults reader.new ≡ after_io result (R.faults reader.old) }
{
    for _ in rt.forever() {
        // what is held goes first: a read may wait for a peer that has no more to say
        if let Some(message) = feed.next()? {
            return Ok(Some(message));
        }
        if !refill(reader, feed)? {
            if feed.is_empty() {
                return Ok(None);
            }
            return Err(TransportError::PeerClosed);
        }
    }
    unreachable!()
}

/// Writes some of the bytes, at least one.
fn write_some<W: CountedWrite>(writer: &mut W, bytes: &[u8]) -> Result<usize, TransportError>
    ensures bound { IfOk result (λ count. (0 < count) × (count ≤ length bytes.now)) }
    ensures ok { IfOk result (λ count. Appends (W.contents writer.old) (W.contents writer.new) (take count bytes.now)) }
    ensures unchanged { OnErr result (Appends (W.contents writer.old) (W.contents writer.new) []) }
    ensures errors { IfErr result (λ e. (e ≡ PeerClosed) ⊎ (e ≡ Io)) }
    ensures closed { IfErr result (λ e. e ≡ PeerClosed → 0 < length bytes.now → W.took_none) }
    ensures counts { W.faults writer.new ≡ after_io result (W.faults writer.old) }
{
    let count = writer.write_some(bytes)?;
    if count == 0 {
        return Err(TransportError::PeerClosed);
    }
    Ok(count)
}

/// Writes a frame: all of it, or after an error a beginning of it that is not the whole. The
/// connection is given up after an error.
///
/// # Errors
///
/// `PeerClosed` if a write took no byte. `Io` if the device failed in this call.
pub fn send<W: CountedWrite>(writer: &mut W, frame: &Bytes) -> Result<(), TransportError>
    ensures whole { OnOk result (Appends (W.contents writer.old) (W.contents writer.new) frame.now) }
    ensures part { OnErr result (WritesPart (W.contents writer.old) (W.contents writer.new) frame.now) }
    ensures errors { IfErr result (λ e. (e ≡ PeerClosed) ⊎ (e ≡ Io)) }
    ensures closed { IfErr result (λ e. e ≡ PeerClosed → W.took_none) }
    ensures counts { W.faults writer.new ≡ after_io result (W.faults writer.old) }
{
    let bytes = frame.as_slice();
    let mut written = 0;
    while written < bytes.len() {
        written += write_some(writer, &bytes[written..])?;
    }
    Ok(())
}
