// What `detect` prints.

ghost use Rattle.std.specs.Prelude.{◌≡◌, ◌++◌, ◌∷◌, [], flat_map, decimal, OnOk, OnErr};
ghost use Rattle.rapid_model.specs.Lines.{line_feed, space};
ghost use Rattle.rapid_model.specs.DetectText.{refusal_line, cut_text, skipped_text};
ghost use Rattle.rapid_model.specs.Numbered.{number_of};
ghost use Rattle.rapid_detect.specs.Replies.{refusal_of, reply_text};

use rapid_config::Cut;
use rapid_endpoint::{Process, ProcessList};
use std::alloc::AllocError;

/// Why a line is refused.
#[derive(Clone, Copy, Debug)]
pub enum DetectRefusal {
    /// It is not in the grammar, or `watermarks` was taken before.
    BadLine,
    /// `watermarks` was not taken yet.
    NoWatermarks,
    /// K, H and L are not in order.
    BadParams,
    /// An alert or a batch was taken before.
    TooLate,
    /// There are as many as there may be.
    TooMany,
    /// There is no such ring.
    RingRange,
    /// The subject has an observer on this ring.
    EdgeTwice,
}

/// What a command prints.
#[derive(Debug, Drop)]
pub enum DetectReply {
    /// Nothing.
    Silent,
    /// Why it is refused.
    Refused(DetectRefusal),
    /// The cut of a batch, if it has one, and how many alerts were skipped.
    Batch(Option<Cut>, usize),
}

/// The line that a refused line prints.
fn refused_line(refusal: DetectRefusal) -> &'static [u8]
    ensures { result.now ≡ refusal_line (refusal_of refusal) }
{
    match refusal {
        DetectRefusal::BadLine => b"refused BadLine\n",
        DetectRefusal::NoWatermarks => b"refused NoWatermarks\n",
        DetectRefusal::BadParams => b"refused BadParams\n",
        DetectRefusal::TooLate => b"refused TooLate\n",
        DetectRefusal::TooMany => b"refused TooMany\n",
        DetectRefusal::RingRange => b"refused RingRange\n",
        DetectRefusal::EdgeTwice => b"refused EdgeTwice\n",
    }
}

/// Appends a number.
fn write_number(number: usize, output: &mut Vec<u8>) -> Result<(), AllocError>
    ensures { OnOk result (output.new.items ≡ output.old.items ++ decimal number) }
{
    let alloc = *output.allocator();
    let text = number.to_string(alloc)?;
    output.extend_from_slice(text.as_bytes())
}

/// Appends the number of a process, a space before it.
fn write_process(process: &Process, output: &mut Vec<u8>) -> Result<(), AllocError>
    ensures { OnOk result (output.new.items ≡ output.old.items ++ (space ∷ decimal (number_of process.now))) }
{
    output.push(b' ')?;
    write_number(usize::from(process.endpoint().port()), output)
}

/// Appends the numbers of processes, a space before each.
fn write_processes(processes: &ProcessList, output: &mut Vec<u8>) -> Result<(), AllocError>
    ensures { OnOk result (output.new.items ≡ output.old.items ++ flat_map (λ p. space ∷ decimal (number_of p)) processes.now) }
{
    for process in processes.iter() {
        write_process(&process, output)?;
    }
    Ok(())
}

/// Appends a cut, or that there is none.
fn write_cut(cut: &Option<Cut>, output: &mut Vec<u8>) -> Result<(), AllocError>
    ensures { OnOk result (output.new.items ≡ output.old.items ++ cut_text cut.now) }
{
    match cut {
        None => output.extend_from_slice(b"none"),
        Some(cut) => {
            output.extend_from_slice(b"cut")?;
            write_processes(cut.processes(), output)
        }
    }
}

/// Appends how many alerts were skipped, if some were.
fn write_skipped(skipped: usize, output: &mut Vec<u8>) -> Result<(), AllocError>
    ensures { OnOk result (output.new.items ≡ output.old.items ++ skipped_text skipped) }
{
    if skipped == 0 {
        return Ok(());
    }
    output.extend_from_slice(b" skipped ")?;
    write_number(skipped, output)
}

/// Appends the line that a batch prints.
fn write_batch(cut: &Option<Cut>, skipped: usize, output: &mut Vec<u8>) -> Result<(), AllocError>
    ensures { OnOk result (output.new.items ≡ output.old.items ++ (cut_text cut.now ++ skipped_text skipped ++ line_feed ∷ [])) }
{
    write_cut(cut, output)?;
    write_skipped(skipped, output)?;
    output.push(b'\n')?;
    Ok(())
}

/// Appends a reply; for a refusal nothing is allocated if the output has room. If out of memory the
/// output is as it was.
pub fn write_reply(reply: &DetectReply, output: &mut Vec<u8>) -> Result<(), AllocError>
    ensures ok { OnOk result (output.new.items ≡ output.old.items ++ reply_text reply.now) }
    ensures unchanged { OnErr result (output.new.items ≡ output.old.items) }
{
    match reply {
        DetectReply::Silent => Ok(()),
        DetectReply::Refused(refusal) => output.extend_from_slice(refused_line(*refusal)),
        DetectReply::Batch(cut, skipped) => {
            let mut text = Vec::new(*output.allocator());
            write_batch(cut, *skipped, &mut text)?;
            output.extend_from_slice(text.as_slice())
        }
    }
}
