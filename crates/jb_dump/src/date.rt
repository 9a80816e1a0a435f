//! The dates of commits.
ghost use Rattle.std.specs.Prelude.{◌≡◌, ◌≤◌, ◌*◌, ◌++◌, pos, string_bytes, OnOk};
ghost use Rattle.jb_dump.specs.Dates.{date_text};

use jb_block::Memory;
use jiff::Timestamp;
use jiff::fmt::temporal::DateTimePrinter;

/// The last second that has a date: that of the latest instant of `jiff`, which has a date at each offset.
const LAST: u64 = 253_402_207_200;

/// Puts the date of a second since 1970; or the second, where it has none.
pub(crate) fn put_date(text: &mut String, sec: u64) -> Result<(), Memory>
    ensures { OnOk result (string_bytes text.new ≡ string_bytes text.old ++ date_text sec) }
{
    if sec > LAST {
        write!(text, "{sec}")?;
        return Ok(());
    }
    let date = DateTimePrinter::new().timestamp_text(instant(sec).to_plain());
    text.push_str(date.as_str())?;
    Ok(())
}

/// The instant of a second since 1970 that has a date.
fn instant(sec: u64) -> Timestamp
    requires { sec ≤ 253_402_207_200 }
    ensures { result.nanosecond ≡ pos (sec * 1_000_000_000) }
{
    Timestamp::from_second(sec as i64).unwrap()
}
