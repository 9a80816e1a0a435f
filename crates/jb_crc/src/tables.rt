//! The tables of remainders. Each is written out, and its contract says what it has.

ghost use Rattle.std.specs.Prelude.{◌≡◌};
ghost use Rattle.jb_crc.specs.Table.{table};

mod values;

use values::{TABLE_1, TABLE_2, TABLE_3, TABLE_4, TABLE_5, TABLE_6, TABLE_7, TABLE_8};

/// What each byte adds to a checksum where it is the last.
#[inline]
pub(crate) fn table_1() -> &'static [u32; 256]
    ensures { result.now ≡ table 1 }
{
    &TABLE_1
}

/// What each byte adds where it is the last but one.
#[inline]
pub(crate) fn table_2() -> &'static [u32; 256]
    ensures { result.now ≡ table 2 }
{
    &TABLE_2
}

/// What each byte adds where it is the last but two.
#[inline]
pub(crate) fn table_3() -> &'static [u32; 256]
    ensures { result.now ≡ table 3 }
{
    &TABLE_3
}

/// What each byte adds where it is the last but three.
#[inline]
pub(crate) fn table_4() -> &'static [u32; 256]
    ensures { result.now ≡ table 4 }
{
    &TABLE_4
}

/// What each byte adds where it is the last but four.
#[inline]
pub(crate) fn table_5() -> &'static [u32; 256]
    ensures { result.now ≡ table 5 }
{
    &TABLE_5
}

/// What each byte adds where it is the last but five.
#[inline]
pub(crate) fn table_6() -> &'static [u32; 256]
    ensures { result.now ≡ table 6 }
{
    &TABLE_6
}

/// What each byte adds where it is the last but six.
#[inline]
pub(crate) fn table_7() -> &'static [u32; 256]
    ensures { result.now ≡ table 7 }
{
    &TABLE_7
}

/// What each byte adds where it is the last but seven.
#[inline]
pub(crate) fn table_8() -> &'static [u32; 256]
    ensures { result.now ≡ table 8 }
{
    &TABLE_8
}
