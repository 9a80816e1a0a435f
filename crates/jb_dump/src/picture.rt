//! A log as a picture in text, within 80 columns.
ghost use Rattle.std.specs.Prelude.{◌≡◌, ◌<◌, ◌≤◌, ◌^◌, ◌++◌, nat_eq, nat_lt, if◌then◌else◌, string_bytes, OnOk};
ghost use Rattle.jb_super.specs.Geometry.{place};
ghost use Rattle.jb_dump.specs.Picture.{bar_column, begun_in as begun_within, bare_text};
ghost use Rattle.jb_dump.specs.Picture.{column_blocks as blocks_of_column};
ghost use Rattle.jb_dump.specs.Picture.{column_count as count_of_columns, column_of as column_with};
ghost use Rattle.jb_dump.specs.Picture.{column_place as place_of_column, column_text, columns_upto, copies_column};
ghost use Rattle.jb_dump.specs.Picture.{home_bar, home_bars, index_at as index_of_place, legend_line, mark_column};
ghost use Rattle.jb_dump.specs.Picture.{mark_text, most_copies as copies_of_first, picture_text, picture_where};
ghost use Rattle.jb_dump.specs.Summary.{sum_of};

use jb_block::Memory;
use jb_super::Super;

/// How many columns the bar of a log has at most.
const LOG_COLUMNS: u32 = 64;

/// How many columns stand for the most copies that a home has.
const COPIES_COLUMNS: u32 = 30;

/// How many blocks a column of the bar stands for.
fn column_blocks(sb: &Super) -> u32
    ensures value { result ≡ blocks_of_column sb.now }
    ensures some { 0 < result }
{
    (sb.usable() + (LOG_COLUMNS - 1)) / LOG_COLUMNS
}

/// The column that stands for the block at a place.
fn column_of(sb: &Super, at: u64) -> u64
    ensures { result ≡ column_with sb.now at }
{
    at.saturating_sub(u64::from(sb.first())) / u64::from(column_blocks(sb))
}

/// How many columns there are.
fn column_count(sb: &Super) -> u32
    ensures { result ≡ count_of_columns sb.now }
{
    (sb.usable() - 1) / column_blocks(sb) + 1
}

/// The place of the first block that a column stands for.
fn column_place(sb: &Super, column: u32) -> u64
    ensures { result ≡ place_of_column sb.now column }
{
    u64::from(sb.first()) + u64::from(column) * u64::from(column_blocks(sb))
}

/// The index in the log of the block at a place.
fn index_at(sb: &Super, at: u64) -> u64
    ensures { result ≡ index_of_place sb.now at }
{
    let start = u64::from(sb.start());
    if at < start {
        (at + u64::from(sb.usable())).saturating_sub(start)
    } else {
        at - start
    }
}

/// One where the log's block of an index is in a column, and else none.
fn one_in(sb: &Super, column: u32, i: u32) -> u64
    ensures value { result ≡ (if nat_eq (column_with sb.now (place sb.now i)) column then 1 else 0) }
    ensures most { result ≤ 1 }
{
    if column_of(sb, sb.place(i)) == u64::from(column) {
        1
    } else {
        0
    }
}

/// How many transactions begin in a column, of those of these sizes.
fn begun_in(sb: &Super, sizes: &[u32], column: u32) -> u64
    ensures { sum_of sizes.now < 2 ^ 32 → result ≡ begun_within sb.now column 0 sizes.now }
{
    let (mut at, mut begun) = (0u32, 0u64);
    for size in sizes {
        begun += one_in(sb, column, at);
        at = at.wrapping_add(*size);
    }
    begun
}

/// What stands for a column in which no transaction begins, and whose first block is used or not.
fn block_mark(used: bool) -> &'static str
    ensures { result.now ≡ bare_text used }
{
    if used { "-" } else { "." }
}

/// Puts a column in which so many transactions begin, and whose first block is used or not.
fn put_column(text: &mut String, begun: u64, used: bool) -> Result<(), Memory>
    ensures { OnOk result (string_bytes text.new ≡ string_bytes text.old ++ column_text begun used) }
{
    if begun == 0 {
        text.push_str(block_mark(used))?;
        return Ok(());
    }
    if begun > 9 {
        text.push_str("+")?;
        return Ok(());
    }
    write!(text, "{begun}")
}

/// Puts the bar of a log with transactions of these sizes, which take this many blocks.
fn put_bar(text: &mut String, sb: &Super, sizes: &[u32], used: u32) -> Result<(), Memory>
    ensures { OnOk result (sum_of sizes.now < 2 ^ 32 → string_bytes text.new
        ≡ string_bytes text.old ++ columns_upto (bar_column sb.now sizes.now used) (count_of_columns sb.now)) }
{
    for column in 0..column_count(sb) {
        let is_used = index_at(sb, column_place(sb, column)) < u64::from(used);
        put_column(text, begun_in(sb, sizes, column), is_used)?;
    }
    Ok(())
}

/// What stands below a column.
fn mark(tail: bool, head: bool) -> &'static str
    ensures { result.now ≡ mark_text tail head }
{
    match (tail, head) {
        (true, true) => "B",
        (true, false) => "T",
        (false, true) => "H",
        (false, false) => " ",
    }
}

/// Puts what stands below the bar.
fn put_marks(text: &mut String, sb: &Super, used: u32) -> Result<(), Memory>
    ensures { OnOk result (string_bytes text.new
        ≡ string_bytes text.old ++ columns_upto (mark_column sb.now used) (count_of_columns sb.now)) }
{
    let (tail, head) = (column_of(sb, sb.place(0)), column_of(sb, sb.place(used)));
    for column in 0..column_count(sb) {
        let at = u64::from(column);
        text.push_str(mark(tail == at, head == at))?;
    }
    Ok(())
}

/// Puts what the characters of a bar mean.
fn put_legend(text: &mut String, blocks: u32) -> Result<(), Memory>
    ensures { OnOk result (string_bytes text.new ≡ string_bytes text.old ++ legend_line blocks) }
{
    write!(
        text,
        "blocks in a column: {blocks}; . free, - used, 1-9 transactions begin, + more\n"
    )
}

/// A column of a home's bar.
fn copies_mark(most: u64, copies: u64, column: u32) -> &'static str
    ensures { result.now ≡ copies_column most copies column }
{
    let (column, most) = (u128::from(column), u128::from(most));
    if column * most < u128::from(COPIES_COLUMNS) * u128::from(copies) {
        "#"
    } else {
        " "
    }
}

/// Puts the columns of a home's bar.
fn put_copies(text: &mut String, most: u64, copies: u64) -> Result<(), Memory>
    ensures { OnOk result (string_bytes text.new
        ≡ string_bytes text.old ++ columns_upto (copies_column most copies) 30) }
{
    for column in 0..COPIES_COLUMNS {
        text.push_str(copies_mark(most, copies, column))?;
    }
    Ok(())
}

/// Puts the bar of a home, with how often it is written.
fn put_home_bar(text: &mut String, most: u64, home: u64, copies: u64) -> Result<(), Memory>
    ensures { OnOk result (string_bytes text.new ≡ string_bytes text.old ++ home_bar most home copies) }
{
    text.push_str("|")?;
    put_copies(text, most, copies)?;
    write!(text, "| home {home}: {copies}\n")?;
    Ok(())
}

/// How often the first of some homes is written.
fn most_copies(rows: &[(u64, u64)]) -> u64
    ensures { result ≡ copies_of_first rows.now }
{
    match rows.first() {
        Some(row) => row.1,
        None => 0,
    }
}

/// Puts the bars of the homes that are written most.
fn put_home_bars(text: &mut String, rows: &[(u64, u64)]) -> Result<(), Memory>
    ensures { OnOk result (string_bytes text.new
        ≡ string_bytes text.old ++ home_bars (copies_of_first rows.now) rows.now) }
{
    let most = most_copies(rows);
    for row in rows {
        put_home_bar(text, most, row.0, row.1)?;
    }
    Ok(())
}

/// Puts the picture of a log with transactions of these sizes, which take this many blocks and write these homes most.
fn put_picture(
    text: &mut String,
    sb: &Super,
    sizes: &[u32],
    used: u32,
    rows: &[(u64, u64)],
) -> Result<(), Memory>
    ensures { OnOk result (sum_of sizes.now < 2 ^ 32 → string_bytes text.new
        ≡ string_bytes text.old ++ picture_text sb.now sizes.now used rows.now) }
{
    put_legend(text, column_blocks(sb))?;
    text.push_str("|")?;
    put_bar(text, sb, sizes, used)?;
    text.push_str("|\n|")?;
    put_marks(text, sb, used)?;
    text.push_str("|\nT is the tail, H the head, B both\n")?;
    put_home_bars(text, rows)?;
    Ok(())
}

/// Puts that where it is wanted, and else nothing.
pub(crate) fn put_picture_where(
    wanted: bool,
    text: &mut String,
    sb: &Super,
    sizes: &[u32],
    used: u32,
    rows: &[(u64, u64)],
) -> Result<(), Memory>
    ensures { OnOk result (sum_of sizes.now < 2 ^ 32 → string_bytes text.new
        ≡ string_bytes text.old ++ picture_where wanted sb.now sizes.now used rows.now) }
{
    if wanted {
        put_picture(text, sb, sizes, used, rows)?;
    }
    Ok(())
}
