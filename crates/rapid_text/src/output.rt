// What is written.

ghost use Rattle.std.specs.Prelude.{◌≡◌, ◌≤◌, [], take, length, IfOk, IfErr, OnOk, OnErr};
ghost use Rattle.std.specs.Io.KnownBytes.{Appends};
ghost use Rattle.rapid_text.specs.Underway.{AppendsFront};
ghost use Rattle.rapid_text.specs.declared.fault.RunFault.TheVariants as fault;

use crate::fault::RunFault;
use std::io::{ErrorKind, Write};

/// Writes some of the bytes; none if a signal interrupts it.
fn write_some<W: Write>(writer: &mut W, bytes: &[u8]) -> Result<usize, RunFault>
    ensures bound { IfOk result (λ count. count ≤ length bytes.now) }
    ensures ok { IfOk result (λ count. Appends (W.contents writer.old) (W.contents writer.new) (take count bytes.now)) }
    ensures fault { IfErr result (λ f. f ≡ fault.Write) }
    ensures unchanged { OnErr result (Appends (W.contents writer.old) (W.contents writer.new) []) }
{
    match writer.write(bytes) {
        Ok(0) => Err(RunFault::Write),
        Ok(count) => Ok(count),
        Err(error) => {
            if error.kind() == ErrorKind::Interrupted {
                Ok(0)
            } else {
                Err(RunFault::Write)
            }
        }
    }
}

/// Writes all of a text.
pub(crate) fn write_all<W: Write>(writer: &mut W, text: &[u8]) -> Result<(), RunFault>
    ensures ok { OnOk result (Appends (W.contents writer.old) (W.contents writer.new) text.now) }
    ensures fault { IfErr result (λ f. f ≡ fault.Write) }
    ensures begun { OnErr result (AppendsFront (W.contents writer.old) (W.contents writer.new) text.now) }
{
    let mut written = 0;
    for _ in 0..u64::MAX {
        if written == text.len() {
            return Ok(());
        }
        written += write_some(writer, &text[written..])?;
    }
    Err(RunFault::Write)
}

/// Writes all of a text, and flushes the writer. A write that a signal interrupts is tried again.
///
/// # Errors
///
/// `Write` if the text could not be written, or the writer not flushed. A beginning of the text was
/// written, and nothing else.
pub fn write_text<W: Write>(writer: &mut W, text: &[u8]) -> Result<(), RunFault>
    ensures ok { OnOk result (Appends (W.contents writer.old) (W.contents writer.new) text.now) }
    ensures fault { IfErr result (λ f. f ≡ fault.Write) }
    ensures begun { OnErr result (AppendsFront (W.contents writer.old) (W.contents writer.new) text.now) }
{
    write_all(writer, text)?;
    match writer.flush() {
        Ok(()) => Ok(()),
        Err(_) => Err(RunFault::Write),
    }
}
