// Numbers as bytes, high byte first.

ghost use Rattle.std.specs.Prelude.{◌≡◌, ◌≤◌, ◌++◌, drop, length};
ghost use Rattle.std.specs.Int.{w16, w32, to_be_bytes, from_be_bytes};

use byteorder::{BigEndian, ByteOrder};

/// The two bytes of a number.
pub(crate) fn two_bytes(number: u16) -> [u8; 2]
    ensures { result ≡ to_be_bytes w16 number }
{
    let mut bytes = [0; 2];
    BigEndian::write_u16(&mut bytes, number);
    bytes
}

/// Writes a number over the first four bytes.
pub(crate) fn write_length(bytes: &mut [u8], number: u32)
    requires { 4 ≤ length bytes.old }
    ensures { bytes.new ≡ to_be_bytes w32 number ++ drop 4 bytes.old }
{
    BigEndian::write_u32(bytes, number);
}

/// The number in two bytes.
pub(crate) fn number_in(bytes: &[u8]) -> u16
    requires { length bytes.now ≡ 2 }
    ensures { result ≡ from_be_bytes w16 bytes.now }
{
    BigEndian::read_u16(bytes)
}

/// The number in four bytes.
pub(crate) fn length_in(bytes: &[u8]) -> u32
    requires { length bytes.now ≡ 4 }
    ensures { result ≡ from_be_bytes w32 bytes.now }
{
    BigEndian::read_u32(bytes)
}
