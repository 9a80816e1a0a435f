//! The text of a journal at a glance.
ghost use Rattle.std.specs.Prelude.{◌≡◌, ◌<◌, ◌-◌, ◌++◌, string_bytes, OnOk, IfOk};
ghost use Rattle.jb_dump.specs.Dates.{date_text};
ghost use Rattle.jb_dump.specs.Summary.{Summary, clean_said, contents_drawn, copies_line, ends_line, written_line};
ghost use Rattle.jb_dump.specs.Summary.{written_lines, revokes_line, room_line, room_text, glance_text, sizes_line};
ghost use Rattle.jb_dump.specs.Summary.{times_line};
ghost use Rattle.jb_dump.specs.LogTotals.{IsTallyOf};

use crate::contents::Contents;
use crate::date::put_date;
use crate::lines::put_clean;
use crate::log_totals::LogTotals;
use crate::picture::put_picture_where;
use crate::ranking::foremost_of;
use jb_block::Memory;
use jb_super::Super;
use std::alloc::Global;

/// How many of the log's blocks are free.
fn free_of(usable: u64, used: u64) -> u64
    ensures { result ≡ usable - used }
{
    usable.saturating_sub(used)
}

/// Puts how much of the log's room is used.
fn put_room(text: &mut String, sb: &Super, count: u64, used: u64) -> Result<(), Memory>
    ensures { OnOk result (string_bytes text.new ≡ string_bytes text.old ++ room_line sb.now count used) }
{
    let usable = u64::from(sb.usable());
    put_numbers(text, count, used, usable, free_of(usable, used))
}

/// Puts how much of the log's room is used, by its numbers.
fn put_numbers(
    text: &mut String,
    count: u64,
    used: u64,
    usable: u64,
    free: u64,
) -> Result<(), Memory>
    ensures { OnOk result (string_bytes text.new ≡ string_bytes text.old ++ room_text count used usable free) }
{
    write!(
        text,
        "log transactions={count} used={used} usable={usable} free={free}\n"
    )
}

/// Puts the places of the log's first block, and of the first one after it.
fn put_ends(text: &mut String, sb: &Super, used: u32) -> Result<(), Memory>
    ensures { OnOk result (string_bytes text.new ≡ string_bytes text.old ++ ends_line sb.now used) }
{
    let (tail, head) = (sb.place(0), sb.place(used));
    write!(text, "ends tail={tail} head={head}\n")
}

/// Puts how many blocks the transactions take.
fn put_sizes(text: &mut String, least: u64, mean: u64, most: u64) -> Result<(), Memory>
    ensures { OnOk result (string_bytes text.new ≡ string_bytes text.old ++ sizes_line least mean most) }
{
    write!(text, "blocks least={least} mean={mean} most={most}\n")
}

/// Puts how many copies there are, and of how many homes.
fn put_copies(text: &mut String, copies: u64, homes: usize) -> Result<(), Memory>
    ensures { OnOk result (string_bytes text.new ≡ string_bytes text.old ++ copies_line copies homes) }
{
    write!(text, "copies total={copies} homes={homes}\n")
}

/// Puts how often a home is written.
fn put_home(text: &mut String, home: u64, copies: u64) -> Result<(), Memory>
    ensures { OnOk result (string_bytes text.new ≡ string_bytes text.old ++ written_line (home, copies)) }
{
    write!(text, "home number={home} copies={copies}\n")
}

/// Puts the same of each of these.
fn put_homes(text: &mut String, rows: &[(u64, u64)]) -> Result<(), Memory>
    ensures { OnOk result (string_bytes text.new ≡ string_bytes text.old ++ written_lines rows.now) }
{
    for row in rows {
        put_home(text, row.0, row.1)?;
    }
    Ok(())
}

/// Puts how many revokes there are.
fn put_revoked(text: &mut String, revokes: u128) -> Result<(), Memory>
    ensures { OnOk result (string_bytes text.new ≡ string_bytes text.old ++ revokes_line revokes) }
{
    write!(text, "revokes total={revokes}\n")
}

/// Puts when the first and the last transaction were committed.
fn put_times(alloc: Global, text: &mut String, first: u64, last: u64) -> Result<(), Memory>
    ensures { OnOk result (string_bytes text.new ≡ string_bytes text.old ++ times_line first last) }
{
    let (first, last) = (date(alloc, first)?, date(alloc, last)?);
    write!(text, "commits first={first} last={last}\n")?;
    Ok(())
}

/// The date of a second since 1970.
fn date(alloc: Global, sec: u64) -> Result<String, Memory>
    ensures { IfOk result (λ text. string_bytes text ≡ date_text sec) }
{
    let mut text = String::new(alloc);
    put_date(&mut text, sec)?;
    Ok(text)
}

/// Puts what is said of some transactions beside their room and ends, and their picture where that is wanted.
fn put_contents(
    alloc: Global,
    text: &mut String,
    sb: &Super,
    tally: LogTotals,
    drawn: bool,
) -> Result<(), Memory>
    requires some { 0 < tally.count }
    ensures { OnOk result ((sum : Summary) → IsTallyOf sum tally
        → string_bytes text.new ≡ string_bytes text.old ++ contents_drawn drawn sb.now sum) }
{
    let LogTotals {
        count,
        least,
        most,
        first,
        last,
        sizes,
        contents,
    } = tally;
    let Contents {
        blocks,
        copies,
        revokes,
        homes,
    } = contents;
    put_sizes(text, least, u64::from(blocks) / count, most)?;
    put_copies(text, copies, homes.len())?;
    let rows = foremost_of(alloc, homes)?;
    put_homes(text, &rows)?;
    put_revoked(text, revokes)?;
    put_times(alloc, text, first, last)?;
    put_picture_where(drawn, text, sb, &sizes, blocks, &rows)?;
    Ok(())
}

/// Puts the text of a log that has to be recovered, with its picture where that is wanted.
pub(crate) fn put_summary(
    alloc: Global,
    text: &mut String,
    sb: &Super,
    tally: LogTotals,
    drawn: bool,
) -> Result<(), Memory>
    ensures { OnOk result ((sum : Summary) → IsTallyOf sum tally
        → string_bytes text.new ≡ string_bytes text.old ++ glance_text drawn sb.now sum) }
{
    put_room(text, sb, tally.count, u64::from(tally.contents.blocks))?;
    put_ends(text, sb, tally.contents.blocks)?;
    if tally.count == 0 {
        return Ok(());
    }
    put_contents(alloc, text, sb, tally, drawn)?;
    Ok(())
}

/// Puts the text of a clean journal.
pub(crate) fn put_clean_summary(text: &mut String, sb: &Super) -> Result<(), Memory>
    ensures { OnOk result (string_bytes text.new ≡ string_bytes text.old ++ clean_said sb.now) }
{
    put_room(text, sb, 0, 0)?;
    put_clean(text, sb)?;
    Ok(())
}
