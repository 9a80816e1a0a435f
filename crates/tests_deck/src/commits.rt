//! Batches that are committed while the log has room, and that are refused.

use crate::cases::{Case, check_cases};
use crate::checks::By;
use crate::images::{BLOCKS, HOMES, MAGIC, Row, Stands};
use crate::rounds::{SIX, SIX_HOME, SIX_HOMES, SIX_WORDS};
use crate::scripts::{Refusal, Step};
use jb_block::Width;
use jb_deck::FreeFault;

const NARROW: Width = Width::Narrow;

const NAMED: Row = (
    0,
    0x30,
    [0x0001_0203, 0x0405_0607, 0x0809_0A0B, 0x0C0D_0E0F],
);

const TWO: &str = "h w0 w1 w2 w3\nh w6 w7 w8 w9\n";

const TWELVE: &str = "h w0 w1 w2 w3 w4 w5\nh w6 w7 w8 w9 w10 w11\n";

/// The escaped copy at home, and an empty log.
const ESCAPED: Stands = (
    &[
        (0, 0x10, [33, 1, 3, 0]),
        (HOMES + 5, 0, [MAGIC, 0x0102_0304, 0, 0]),
    ],
    &[],
);

/// Each block of the log is worked out by its words.
static BY_BLOCKS: [Case; 4] = [
    Case {
        name: "nothing is committed",
        image: &[],
        steps: &[
            Step::Refuses(1, (16, 8, NARROW), "h w1\n", Refusal::WrongTicket(0)),
            Step::Refuses(1, (16, 8, NARROW), "", Refusal::WrongTicket(0)),
            Step::Refuses(1, (16, 7, NARROW), "h w1\n", Refusal::WrongTicket(0)),
            Step::Refuses(0, (16, 7, NARROW), "h w1\n", Refusal::OtherShape),
            Step::Refuses(0, (16, 9, NARROW), "", Refusal::OtherShape),
            Step::Refuses(0, (15, 8, NARROW), "h w1\n", Refusal::OtherShape),
            Step::Refuses(0, (17, 8, NARROW), "h w16\n", Refusal::OtherShape),
            Step::Refuses(0, (16, 8, Width::Wide), "h w1\n", Refusal::OtherShape),
            Step::Commits("", &[]),
            Step::Ends(&[], 2),
            Step::Idle,
        ],
        groups: &[],
        rows: (&[], &[]),
        recovered: (0, 0, 0, 2),
        after: (&[], &[]),
    },
    Case {
        name: "an escaped copy and a freed home",
        image: &[NAMED],
        steps: &[
            Step::Commits("h w5=c03b399801020304 r7\n", &[(0, 1, 2, 4)]),
            Step::Word(7, Some(false)),
            Step::Word(6, None),
            Step::Word(5, Some(true)),
            Step::Word(16, None),
            Step::Writes(5, 1024, Err(FreeFault::NotFree)),
            Step::Writes(16, 1024, Err(FreeFault::NotFree)),
            Step::Writes(5, 1023, Err(FreeFault::NotFree)),
            Step::Writes(7, 1023, Err(FreeFault::Length)),
            Step::Ends(&[(0, 1, 2, 4)], 3),
        ],
        groups: &[],
        rows: (
            &[
                (0, 0x10, [33, 1, 2, 1]),
                (1, 0, [MAGIC, 5, 2, 20]),
                (1, 0x10, [7, 0, 0, 0]),
                (2, 0, [MAGIC, 1, 2, 5]),
                (2, 0x10, [9, 0x0001_0203, 0x0405_0607, 0x0809_0A0B]),
                (2, 0x20, [0x0C0D_0E0F, 0, 0, 0]),
                (3, 0, [0, 0x0102_0304, 0, 0]),
                (4, 0, [MAGIC, 2, 2, 0]),
                (4, 0x30, [1, 2, 3, 0]),
            ],
            &[],
        ),
        recovered: (1, 1, 0, 4),
        after: ESCAPED,
    },
    Case {
        name: "the same with block numbers of 64 bits",
        image: &[NAMED, (0, 0x20, [0, 0, 2, 0])],
        steps: &[Step::Commits("h w5=c03b399801020304 r7\n", &[(0, 1, 2, 4)])],
        groups: &[],
        rows: (
            &[
                (0, 0x10, [33, 1, 2, 1]),
                (0, 0x20, [0, 0, 3, 0]),
                (1, 0, [MAGIC, 5, 2, 24]),
                (1, 0x10, [0, 7, 0, 0]),
                (2, 0, [MAGIC, 1, 2, 5]),
                (2, 0x10, [9, 0, 0x0001_0203, 0x0405_0607]),
                (2, 0x20, [0x0809_0A0B, 0x0C0D_0E0F, 0, 0]),
                (3, 0, [0, 0x0102_0304, 0, 0]),
                (4, 0, [MAGIC, 2, 2, 0]),
                (4, 0x30, [1, 2, 3, 0]),
            ],
            &[],
        ),
        recovered: (1, 1, 0, 4),
        after: ESCAPED,
    },
    Case {
        name: "two copies",
        image: &[NAMED],
        steps: &[Step::Commits("h w5=0d w6=0e\n", &[(0, 1, 2, 4)])],
        groups: &[],
        rows: (
            &[
                (0, 0x10, [33, 1, 2, 1]),
                (1, 0, [MAGIC, 1, 2, 5]),
                (1, 0x10, [0, 0x0001_0203, 0x0405_0607, 0x0809_0A0B]),
                (1, 0x20, [0x0C0D_0E0F, 6, 10, 0]),
                (2, 0, [0x0D00_0000, 0, 0, 0]),
                (3, 0, [0x0E00_0000, 0, 0, 0]),
                (4, 0, [MAGIC, 2, 2, 0]),
                (4, 0x30, [1, 2, 3, 0]),
            ],
            &[],
        ),
        recovered: (1, 2, 0, 4),
        after: (&[(0, 0x10, [33, 1, 3, 0])], &[(5, 0x0D), (6, 0x0E)]),
    },
];

/// The blocks of the log are those of groups.
static BY_GROUPS: [Case; 3] = [
    Case {
        name: "two groups of three handles, and the last word of each home",
        image: &[],
        steps: &[
            Step::Commits(
                "h w1=01 w2=02 w3=03 r9\nh w3=13 r2\nh w9=09 w8=08 w7=07 w6=06 w4=04\n",
                &[(0, 2, 2, 5), (2, 3, 3, 7)],
            ),
            Step::Word(2, Some(false)),
            Step::Word(9, Some(true)),
        ],
        groups: &[
            (1, 2, &[2, 9], &[1, 3], &[0x01, 0x13]),
            (6, 3, &[], &[4, 6, 7, 8, 9], &[0x04, 0x06, 0x07, 0x08, 0x09]),
        ],
        rows: (&[(0, 0x10, [33, 1, 2, 1])], &[]),
        recovered: (2, 7, 0, 5),
        after: (
            &[(0, 0x10, [33, 1, 4, 0])],
            &[
                (1, 0x01),
                (3, 0x13),
                (4, 0x04),
                (6, 0x06),
                (7, 0x07),
                (8, 0x08),
                (9, 0x09),
            ],
        ),
    },
    Case {
        name: "the last number",
        image: &[(0, 0x10, [33, 1, 4294967294, 0])],
        steps: &[
            Step::Refuses(1, (16, 7, NARROW), TWO, Refusal::WrongTicket(0)),
            Step::Refuses(0, (16, 7, NARROW), TWO, Refusal::OtherShape),
            Step::Refuses(0, (16, 8, NARROW), TWELVE, Refusal::NumbersSpent),
            Step::Commits(SIX, &[(0, 1, 4294967295, 8)]),
            Step::Ends(&[(0, 1, 4294967295, 8)], 4294967296),
            Step::Refuses(1, (16, 8, NARROW), "h\n", Refusal::NumbersSpent),
            Step::Commits("", &[]),
            Step::Checkpoints(4294967295, 6),
            Step::Idle,
            Step::Refuses(1, (16, 8, NARROW), SIX, Refusal::NumbersSpent),
        ],
        groups: &[(1, 4294967295, &[], SIX_HOMES, SIX_WORDS)],
        rows: (&[(0, 0x10, [33, 1, 4294967295, 0])], SIX_HOME),
        recovered: (0, 0, 0, 4294967296),
        after: (&[], &[]),
    },
    Case {
        name: "handles without changes",
        image: &[],
        steps: &[
            Step::Commits("h\nh\n", &[(0, 2, 2, 1)]),
            Step::Commits("h\n", &[(2, 3, 3, 1)]),
            Step::Checkpoints(2, 0),
        ],
        groups: &[(1, 2, &[], &[], &[]), (2, 3, &[], &[], &[])],
        rows: (&[(0, 0x10, [33, 1, 3, 2])], &[]),
        recovered: (1, 0, 0, 5),
        after: (&[(0, 0x10, [33, 1, 4, 0])], &[]),
    },
];

#[test]
fn blocks_are_written_as_worked_by_hand(rt: HostRuntime) {
    check_cases(&By(&rt, rt.alloc()), BLOCKS, &BY_BLOCKS)
}

#[test]
fn batches_are_committed_as_worked_by_hand(rt: HostRuntime) {
    check_cases(&By(&rt, rt.alloc()), BLOCKS, &BY_GROUPS)
}
