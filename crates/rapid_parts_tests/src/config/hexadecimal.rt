// Identifiers of configurations as text.

use rapid_config::ConfigId;
use std::alloc::Global;
use std::fmt;
use std::test::Fail;

/// Whether the bytes of an identifier are spelt so in hexadecimal digits.
pub fn is_spelt(alloc: Global, id: ConfigId, digits: &str) -> Result<bool, Fail> {
    let mut text = String::new(alloc);
    for byte in id.bytes() {
        fmt::Write::write_fmt(&mut text, format_args!("{byte:02x}"))?;
    }
    Ok(text.as_str() == digits)
}
