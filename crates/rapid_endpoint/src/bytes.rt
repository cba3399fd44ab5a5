// What is known of any bytes.

ghost use Rattle.std.specs.Prelude.{◌<◌, All};

/// Each byte is below 256. It does nothing: what it ensures is for proofs.
#[inline(always)]
pub(crate) fn tell(bytes: &[u8])
    ensures { All (λ b. b < 256) bytes.now }
{
    let _ = bytes;
}
