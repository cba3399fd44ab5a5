// From the bytes of an input to those of an output, a block at a time. What a block prints is
// written before the next is read, so a terminal has each answer at once.

ghost use Rattle.std.specs.Prelude.{◌≡◌, ◌<◌, ◌≤◌, ℕ, List, [], ◌∷◌, ◌++◌, true, length, take, MatchOption, IfSome, OnOk, OnErr, IfOk, IfErr};
ghost use Rattle.std.specs.Io.KnownBytes.{Appends, Consumes, IsAtEnd, Keeps};
ghost use Rattle.rapid_model.specs.Lines.{line_feed, lines};
ghost use Rattle.rapid_text.specs.Endings.{has_no_end};
ghost use Rattle.rapid_text.specs.Underway.{EndsLine, Feeds, Says, SaysFront, AppendsFront, AnswersPart, Writes, WritesFront};

use crate::engine::Engine;
use crate::fault::RunFault;
use crate::line_buffer::{LineBuffer, without_return};
use crate::output::write_all;
use std::alloc::{AllocError, Global};
use std::io::{ErrorKind, Read, Write};

/// How many bytes are read at a time.
const BLOCK: usize = 65_536;

/// How many bytes of output there is room for from the start: a block of refused lines prints no
/// more.
const OUTPUT: usize = 8 * BLOCK + 1024;

/// What stands before and after the first end of a line.
fn split_line(bytes: &[u8]) -> Option<(&[u8], &[u8])>
    ensures { MatchOption result (has_no_end bytes.now ≡ true)
        (λ r. (has_no_end r.0.now ≡ true) × (bytes.now ≡ r.0.now ++ line_feed ∷ r.1.now)) }
{
    for (i, byte) in bytes.iter().enumerate() {
        if *byte == b'\n' {
            return Some((&bytes[..i], &bytes[i + 1..]));
        }
    }
    None
}

/// Answers the line that ends after these bytes. If nothing is kept of it they are all of it, and
/// are not copied.
fn end_line<E: Engine>(
    engine: &mut E,
    line: &mut LineBuffer,
    front: &[u8],
    output: &mut Vec<u8>,
) -> Result<(), AllocError>
    requires { has_no_end front.now ≡ true }
    ensures ok { OnOk result (EndsLine E.prints engine.old engine.new line.old front.now output.old.items output.new.items) }
    ensures cleared { OnOk result (line.new ≡ []) }
    ensures unchanged { OnErr result (output.new.items ≡ output.old.items) }
{
    if line.is_empty() {
        return engine.answer(without_return(front), output);
    }
    line.keep(front)?;
    engine.answer(line.ended(), output)?;
    line.clear();
    Ok(())
}

/// Answers the lines that end in a part of the input, and keeps what stands after them.
fn feed<E: Engine>(
    engine: &mut E,
    line: &mut LineBuffer,
    part: &[u8],
    output: &mut Vec<u8>,
) -> Result<(), AllocError>
    ensures ok { OnOk result (Feeds E.prints engine.old engine.new line.old line.new part.now [] output.old.items output.new.items) }
    ensures begun { OnErr result ((later : List ℕ) → (met : ℕ) × SaysFront E.prints engine.old (lines (line.old ++ (part.now ++ later))) met output.old.items output.new.items) }
{
    let mut rest = part;
    while let Some((front, others)) = split_line(rest) {
        end_line(engine, line, front, output)?;
        rest = others;
    }
    line.keep(rest)
}

/// Answers what stands after the last end of a line, if the input ends.
fn finish<E: Engine>(
    engine: &mut E,
    line: &LineBuffer,
    output: &mut Vec<u8>,
) -> Result<(), AllocError>
    ensures ok { OnOk result (Says E.prints engine.old (lines (line.now ++ [])) (E.met engine.new) output.old.items output.new.items) }
    ensures unchanged { OnErr result (output.new.items ≡ output.old.items) }
{
    let last = line.last();
    if last.is_empty() {
        return Ok(());
    }
    engine.answer(last, output)
}

/// Reads bytes into the block; none if the input has ended. A read that a signal interrupts is
/// tried again.
fn read_some<R: Read>(reader: &mut R, block: &mut [u8]) -> Result<usize, RunFault>
    ensures bound { IfOk result (λ count. count ≤ length block.new) }
    ensures ok { IfOk result (λ count. Consumes (R.remaining reader.old) (R.remaining reader.new) (take count block.new)) }
    ensures end { IfOk result (λ count. count ≡ 0 → 0 < length block.old → IsAtEnd (R.remaining reader.new)) }
{
    for _ in 0..u64::MAX {
        match reader.read(block) {
            Ok(count) => return Ok(count),
            Err(error) => {
                if error.kind() != ErrorKind::Interrupted {
                    return Err(RunFault::Read);
                }
            }
        }
    }
    Err(RunFault::Read)
}

/// Writes the output, and empties it.
fn write_out<W: Write>(writer: &mut W, output: &mut Vec<u8>) -> Result<(), RunFault>
    ensures ok { OnOk result (Appends (W.contents writer.old) (W.contents writer.new) output.old.items) }
    ensures emptied { OnOk result (output.new.items ≡ []) }
    ensures begun { OnErr result (AppendsFront (W.contents writer.old) (W.contents writer.new) output.old.items) }
{
    write_all(writer, output.as_slice())?;
    output.clear();
    Ok(())
}

/// Answers a block of the input, and writes what it prints. If memory runs out in it, what was
/// answered before is written too.
fn answer_block<E: Engine, W: Write>(
    engine: &mut E,
    line: &mut LineBuffer,
    block: &[u8],
    output: &mut Vec<u8>,
    writer: &mut W,
) -> Result<(), RunFault>
    requires { output.old.items ≡ [] }
    ensures emptied { OnOk result (output.new.items ≡ []) }
    ensures ok { OnOk result (AnswersPart E.prints engine.old engine.new line.old line.new block.now (W.contents writer.old) (W.contents writer.new)) }
    ensures begun { IfErr result (λ fault. (later : List ℕ) →
        WritesFront E.prints engine.old (lines (line.old ++ (block.now ++ later))) fault (E.met engine.new) (W.contents writer.old) (W.contents writer.new)) }
{
    let fed = feed(engine, line, block, output);
    let written = write_out(writer, output);
    match fed {
        Ok(()) => written,
        Err(AllocError) => Err(RunFault::OutOfMemory),
    }
}

/// Answers the last line of the input, and writes what it prints. If memory runs out in it, it
/// prints nothing.
fn end_input<E: Engine, W: Write>(
    engine: &mut E,
    line: &LineBuffer,
    output: &mut Vec<u8>,
    writer: &mut W,
) -> Result<(), RunFault>
    requires { output.old.items ≡ [] }
    ensures ok { OnOk result (Writes E.prints engine.old (lines (line.now ++ [])) (E.met engine.new) (W.contents writer.old) (W.contents writer.new)) }
    ensures begun { IfErr result (λ fault. WritesFront E.prints engine.old (lines (line.now ++ [])) fault (E.met engine.new) (W.contents writer.old) (W.contents writer.new)) }
{
    let finished = finish(engine, line, output);
    let written = write_out(writer, output);
    match finished {
        Ok(()) => {
            written?;
            writer.flush().map_err(|_| RunFault::Write)
        }
        Err(AllocError) => Err(RunFault::OutOfMemory),
    }
}

/// Answers the lines of an input, block by block, until it ends.
fn answer_all<E: Engine, R: Read, W: Write>(
    engine: &mut E,
    block: &mut [u8],
    line: &mut LineBuffer,
    output: &mut Vec<u8>,
    reader: &mut R,
    writer: &mut W,
) -> Result<(), RunFault>
    requires room { 0 < length block.old }
    requires fresh { line.old ≡ [] }
    requires empty { output.old.items ≡ [] }
    ensures ok { OnOk result (IfSome (R.remaining reader.old) (λ input.
        Writes E.prints engine.old (lines input) (E.met engine.new) (W.contents writer.old) (W.contents writer.new))) }
    ensures begun { IfErr result (λ fault. IfSome (R.remaining reader.old) (λ input.
        WritesFront E.prints engine.old (lines input) fault (E.met engine.new) (W.contents writer.old) (W.contents writer.new))) }
{
    for _ in 0..u64::MAX {
        let count = read_some(reader, block)?;
        if count == 0 {
            return end_input(engine, line, output, writer);
        }
        answer_block(engine, line, &block[..count], output, writer)?;
    }
    Err(RunFault::Read)
}

/// Answers the lines of an input, which the reader gives, and writes what they print and nothing
/// else. After a fault a beginning of that is written. The fault is `Read` if the input could not
/// be read, and `Write` if the output could not be written. It is `OutOfMemory` if out of memory,
/// whatever else failed then. After `Read` and `Write` the engine has counted how often memory ran
/// out.
pub fn run<E: Engine, R: Read, W: Write>(
    alloc: Global,
    engine: &mut E,
    reader: &mut R,
    writer: &mut W,
) -> Result<(), RunFault>
    ensures ok { OnOk result (IfSome (R.remaining reader.old) (λ input.
        Writes E.prints engine.old (lines input) (E.met engine.new) (W.contents writer.old) (W.contents writer.new))) }
    ensures begun { IfErr result (λ fault. IfSome (R.remaining reader.old) (λ input.
        WritesFront E.prints engine.old (lines input) fault (E.met engine.new) (W.contents writer.old) (W.contents writer.new))) }
{
    let mut line = LineBuffer::new(alloc)?;
    let mut output = Vec::with_capacity(alloc, OUTPUT)?;
    let mut block = vec![in alloc; 0; BLOCK]?;
    answer_all(
        engine,
        block.as_mut_slice(),
        &mut line,
        &mut output,
        reader,
        writer,
    )
}
