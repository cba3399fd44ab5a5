// What is known of any bytes and any processes.

ghost use Rattle.std.specs.Prelude.{◌<◌, All};
ghost use Rattle.rapid_model.specs.Process.{IsProcess};

use rapid_endpoint::Process;

/// Each byte is below 256. It does nothing: what it ensures is for proofs.
#[inline(always)]
pub(crate) fn tell_bytes(bytes: &[u8])
    ensures { All (λ b. b < 256) bytes.now }
{
    let _ = bytes;
}

/// Each value is a process. It does nothing: what it ensures is for proofs.
#[inline(always)]
pub(crate) fn tell_processes(processes: &[Process])
    ensures { All IsProcess processes.now }
{
    for process in processes {
        process.tell();
    }
}
