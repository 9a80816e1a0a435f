//! One line of the system's list of mounts.
ghost use Rattle.std.specs.Prelude.{◌≡◌, drop};
ghost use Rattle.jb_text.specs.Parts.{onward};
ghost use Rattle.jb_image.specs.Mounts.{device_in, numbers_in};

use jb_text::{number, part};

/// The two numbers of the device that is mounted, which are the third word of a line; `None` where that is of another
/// form. Of a file system on no device the first is 0.
pub(crate) fn device_of(line: &[u8]) -> Option<(u64, u64)>
    ensures { result ≡ device_in line.now }
{
    numbers(part(after(after(line, b' '), b' '), b' ').0)
}

/// The numbers of a device that is written `A:B`.
pub(crate) fn numbers(device: &[u8]) -> Option<(u64, u64)>
    ensures { result ≡ numbers_in device.now }
{
    let major = number(part(device, b':').0)?;
    let minor = number(after(device, b':'))?;
    Some((major, minor))
}

/// The bytes after the first `delimiter`; none where there is no `delimiter`.
fn after(bytes: &[u8], delimiter: u8) -> &[u8]
    ensures { result.now ≡ drop 1 (onward delimiter bytes.now) }
{
    let (_, rest) = part(bytes, delimiter);
    match rest {
        [_, rest @ ..] => rest,
        [] => rest,
    }
}
