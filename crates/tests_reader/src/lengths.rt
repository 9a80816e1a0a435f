//! Journals that are as long as the handles of a program need.

use crate::checks::By;
use jb_block::{BlockSize, Width};
use jb_length::{credits_within, least_journal};
use tests_support::{Test, check_in};

/// Credits, and the shortest journal for them.
struct Row {
    name: &'static str,
    size: BlockSize,
    width: Width,
    credits: u32,
    least: Option<u32>,
}

static ROWS: [Row; 6] = [
    Row {
        name: "the shortest",
        size: BlockSize::OneKib,
        width: Width::Narrow,
        credits: 1,
        least: Some(9),
    },
    Row {
        name: "four blocks",
        size: BlockSize::OneKib,
        width: Width::Narrow,
        credits: 2,
        least: Some(17),
    },
    Row {
        name: "a full descriptor",
        size: BlockSize::OneKib,
        width: Width::Narrow,
        credits: 124,
        least: Some(505),
    },
    Row {
        name: "two descriptors",
        size: BlockSize::OneKib,
        width: Width::Narrow,
        credits: 125,
        least: Some(513),
    },
    Row {
        name: "wide",
        size: BlockSize::FourKib,
        width: Width::Wide,
        credits: 400,
        least: Some(1613),
    },
    Row {
        name: "too many",
        size: BlockSize::FourKib,
        width: Width::Wide,
        credits: 1 << 31,
        least: None,
    },
];

/// Whether a journal of this many blocks takes the handles of a row.
fn takes(row: &Row, journal: u32) -> bool {
    credits_within(row.size, row.width, journal) >= Some(row.credits)
}

/// Checks a row.
fn check_length(test: &impl Test, row: &Row) {
    let journal = least_journal(row.size, row.width, row.credits);
    check_in(
        test,
        journal == row.least,
        row.name,
        "the shortest journal",
        0,
    );
    if let Some(least) = journal {
        check_in(
            test,
            takes(row, least),
            row.name,
            "a journal of",
            u64::from(least),
        );
        let less = least.saturating_sub(1);
        check_in(
            test,
            !takes(row, less),
            row.name,
            "a journal of",
            u64::from(less),
        );
    }
}

#[test]
fn journals_are_as_long_as_handles_need(rt: HostRuntime) {
    for row in &ROWS {
        check_length(&By(&rt, rt.alloc()), row);
    }
}
