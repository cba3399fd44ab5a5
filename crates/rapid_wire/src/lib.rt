//! Frames: one spelling a message.
#![tactic(auto)]

ghost use Rattle.rapid_wire.specs.Laws.{NoFrameBeginsAnother, EveryMessageFits, CuttingChangesNothing, StreamsHaveOneAnswer, FramesAreReadAgain, FeedsAnswerTheirStream};

mod decoding;
mod encoding;
mod fault;
mod feed;
mod kind;
mod kinds;
mod lengths;
mod numbers;
mod reading;
mod single;
mod told;
mod writing;

pub use encoding::encode;
pub use fault::WireFault;
pub use feed::Feed;
pub use single::read_frame;

/// No frame is the beginning of another, and no two messages have one frame.
pub fn no_frame_begins_another()
    ensures { NoFrameBeginsAnother }
{}

/// Every message that can be spelt fits into a frame of at most 2,097,152 bytes after its length.
pub fn every_message_fits()
    ensures { EveryMessageFits }
{}

/// However a stream is cut, its messages and its end are the same. What a feed answers of its
/// beginning, and then of what it held with the bytes that follow, is what the whole stream says.
pub fn cutting_changes_nothing()
    ensures { CuttingChangesNothing }
{}

/// A stream has only one list of messages, and only one end.
pub fn streams_have_one_answer()
    ensures { StreamsHaveOneAnswer }
{}

/// The frames of messages, one after another, are a stream of these messages, of which nothing is
/// left.
pub fn frames_are_read_again()
    ensures { FramesAreReadAgain }
{}

/// It does not matter which pieces a feed was given and when it was asked. What it answered, and
/// then what the bytes that it holds say, is what all its pieces say as one stream. A fault that it
/// answers is that stream's.
pub fn feeds_answer_their_stream()
    ensures { FeedsAnswerTheirStream }
{}
