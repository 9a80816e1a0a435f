ghost use Rattle.std.specs.Prelude.{◌≡◌, ◌≤◌, ◌<◌, ◌%◌, ◌^◌, length, take, drop, bit_xor};
ghost use Rattle.jb_crc.specs.Crc.{crc32c};

use crate::tables::{table_1, table_2, table_3, table_4, table_5, table_6, table_7, table_8};

/// The CRC-32C of these bytes, begun with a number: 0xFFFF_FFFF where nothing precedes them, or the checksum of
/// the bytes before them. It is the kernel's `jbd2_chksum` (`include/linux/jbd2.h`).
///
/// The polynomial is that of RFC 3720 (12.1), 0x1EDC6F41, whose bits are turned round here: 0x82F63B78. The lowest
/// bit of each byte comes first. **Nothing is inverted at the end**, as it is in RFC 3720: there the digits
/// `123456789` have the checksum 0xE3069283, here the inverse of it, 0x1CF96D7C.
pub fn crc32c(begun: u32, bytes: &[u8]) -> u32
    /// The checksum of bytes is their remainder by the polynomial, begun with a number and not inverted.
    ensures { result ≡ crc32c begun bytes.now }
{
    let mut crc = begun;
    let mut rest = bytes;
    while rest.len() >= 8 {
        crc = of_eight(crc, rest);
        rest = behind_eight(rest);
    }
    byte_by_byte(crc, rest)
}

/// The checksum of the first eight of these bytes. What each adds does not hang on the others, and is in
/// the table of its distance from the eighth.
#[inline]
fn of_eight(crc: u32, bytes: &[u8]) -> u32
    requires { 8 ≤ length bytes.now }
    ensures { result ≡ crc32c crc (take 8 bytes.now) }
{
    table_8()[low_byte(crc, bytes[0])]
        ^ (table_7()[low_byte(crc >> 8, bytes[1])]
            ^ (table_6()[low_byte(crc >> 16, bytes[2])]
                ^ (table_5()[low_byte(crc >> 24, bytes[3])]
                    ^ (table_4()[usize::from(bytes[4])]
                        ^ (table_3()[usize::from(bytes[5])]
                            ^ (table_2()[usize::from(bytes[6])]
                                ^ table_1()[usize::from(bytes[7])]))))))
}

/// The bytes after the first eight.
#[inline]
fn behind_eight(bytes: &[u8]) -> &[u8]
    requires { 8 ≤ length bytes.now }
    ensures { result.now ≡ drop 8 bytes.now }
{
    &bytes[8..]
}

/// The checksum of these bytes, one after the other.
fn byte_by_byte(begun: u32, bytes: &[u8]) -> u32
    ensures { result ≡ crc32c begun bytes.now }
{
    let mut crc = begun;
    for byte in bytes {
        crc = table_1()[low_byte(crc, *byte)] ^ (crc >> 8);
    }
    crc
}

/// The sum of a checksum's low byte and a byte of the message.
#[inline]
fn low_byte(crc: u32, byte: u8) -> usize
    ensures value { result ≡ bit_xor (crc % 2 ^ 8) byte }
    ensures within { result < 256 }
{
    ((crc ^ u32::from(byte)) & 0xff) as usize
}
