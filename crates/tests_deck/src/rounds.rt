//! Batches that make room in the log and go round it.

use crate::cases::{Case, check_cases};
use crate::checks::By;
use crate::images::{BLOCKS, HOMES, Stands};
use crate::scripts::Step;
use tests_support::Bench;

/// A handle of six copies, which takes eight log blocks.
pub const SIX: &str = "h w0=0a w1=0b w2=0c w3=0d w4=0e w5=0f\n";

/// Its copies in the log: their homes, and the first word of each.
pub const SIX_HOMES: &[u32] = &[0, 1, 2, 3, 4, 5];

pub const SIX_WORDS: &[u32] = &[0x0A, 0x0B, 0x0C, 0x0D, 0x0E, 0x0F];

/// The homes that they go to.
pub const SIX_HOME: &[(u64, u32)] = &[
    (0, 0x0A),
    (1, 0x0B),
    (2, 0x0C),
    (3, 0x0D),
    (4, 0x0E),
    (5, 0x0F),
];

/// The superblock's row of a log that begins at place 9 with number 3, and the homes that six copies went to.
const ROUND: Stands = (&[(0, 0x10, [33, 1, 3, 9])], SIX_HOME);

/// Twenty homes whose copies are zeros, and twenty more.
const TWENTY: &[u32] = &[
    0, 1, 2, 3, 4, 5, 6, 7, 8, 9, 10, 11, 12, 13, 14, 15, 16, 17, 18, 19,
];

const MORE: &[u32] = &[
    20, 21, 22, 23, 24, 25, 26, 27, 28, 29, 30, 31, 32, 33, 34, 35, 36, 37, 38, 39,
];

/// The first twenty homes as one handle, and the next twenty as another.
const TWENTIES: &str = "h w0 w1 w2 w3 w4 w5 w6 w7 w8 w9 w10 w11 w12 w13 w14 w15 w16 w17 w18 w19\n\
     h w20 w21 w22 w23 w24 w25 w26 w27 w28 w29 w30 w31 w32 w33 w34 w35 w36 w37 w38 w39\n";

/// Groups that fill the log, begin it anew, and go round its end.
static ROUNDS: [Case; 3] = [
    Case {
        name: "four groups of eight blocks fill the log",
        image: &[],
        steps: &[
            Step::Commits(SIX, &[(0, 1, 2, 8)]),
            Step::Commits(SIX, &[(1, 2, 3, 8)]),
            Step::Commits(SIX, &[(2, 3, 4, 8)]),
            Step::Commits(SIX, &[(3, 4, 5, 8)]),
        ],
        groups: &[
            (1, 2, &[], SIX_HOMES, SIX_WORDS),
            (9, 3, &[], SIX_HOMES, SIX_WORDS),
            (17, 4, &[], SIX_HOMES, SIX_WORDS),
            (25, 5, &[], SIX_HOMES, SIX_WORDS),
        ],
        rows: (&[(0, 0x10, [33, 1, 2, 1])], &[]),
        recovered: (4, 24, 0, 7),
        after: (&[(0, 0x10, [33, 1, 6, 0])], SIX_HOME),
    },
    Case {
        name: "the fifth group stands where the first was",
        image: &[],
        steps: &[
            Step::Commits(SIX, &[(0, 1, 2, 8)]),
            Step::Commits(SIX, &[(1, 2, 3, 8)]),
            Step::Commits(SIX, &[(2, 3, 4, 8)]),
            Step::Commits(SIX, &[(3, 4, 5, 8)]),
            Step::Commits("h w0=1a\n", &[(4, 5, 6, 3)]),
            Step::Ends(
                &[
                    (0, 1, 2, 8),
                    (1, 2, 3, 8),
                    (2, 3, 4, 8),
                    (3, 4, 5, 8),
                    (4, 5, 6, 3),
                ],
                7,
            ),
        ],
        groups: &[
            (1, 2, &[], SIX_HOMES, SIX_WORDS),
            (9, 3, &[], SIX_HOMES, SIX_WORDS),
            (17, 4, &[], SIX_HOMES, SIX_WORDS),
            (25, 5, &[], SIX_HOMES, SIX_WORDS),
            (1, 6, &[], &[0], &[0x1A]),
        ],
        rows: ROUND,
        recovered: (4, 19, 0, 8),
        after: (&[(0, 0x10, [33, 1, 7, 0])], &[(0, 0x1A)]),
    },
    Case {
        name: "a group that goes round the end of the log",
        image: &[],
        steps: &[
            Step::Commits(SIX, &[(0, 1, 2, 8)]),
            Step::Commits(SIX, &[(1, 2, 3, 8)]),
            Step::Commits(SIX, &[(2, 3, 4, 8)]),
            Step::Commits("h w0=1a w1=1b w2=1c\n", &[(3, 4, 5, 5)]),
            Step::Commits("h w0=2a w1=2b w2=2c w3=2d\n", &[(4, 5, 6, 6)]),
        ],
        groups: &[
            (1, 2, &[], SIX_HOMES, SIX_WORDS),
            (9, 3, &[], SIX_HOMES, SIX_WORDS),
            (17, 4, &[], SIX_HOMES, SIX_WORDS),
            (25, 5, &[], &[0, 1, 2], &[0x1A, 0x1B, 0x1C]),
            (30, 6, &[], &[0, 1, 2, 3], &[0x2A, 0x2B, 0x2C, 0x2D]),
        ],
        rows: ROUND,
        recovered: (4, 19, 0, 8),
        after: (
            &[(0, 0x10, [33, 1, 7, 0])],
            &[(0, 0x2A), (1, 0x2B), (2, 0x2C), (3, 0x2D)],
        ),
    },
];

/// Goes round the log, before forty homes.
static FORTY: [Case; 1] = [Case {
    name: "two groups of which only one has room",
    image: &[(0, 0x48, [32, 0, 0, 0])],
    steps: &[
        Step::Commits(TWENTIES, &[(0, 1, 2, 22), (1, 2, 3, 22)]),
        Step::Word(19, None),
        Step::Word(20, Some(true)),
    ],
    groups: &[(1, 2, &[], TWENTY, &[0; 20]), (23, 3, &[], MORE, &[0; 20])],
    rows: (
        &[(0, 0x10, [33, 1, 3, 23]), (HOMES + 5, 0, [0, 0, 0, 0])],
        &[],
    ),
    recovered: (1, 20, 0, 5),
    after: (&[(0, 0x10, [33, 1, 4, 0])], &[]),
}];

fn check_rounds(test: &impl Bench) {
    check_cases(test, BLOCKS, &ROUNDS)
}

fn check_forty(test: &impl Bench) {
    check_cases(test, HOMES + 40, &FORTY)
}

fn check_both(test: &impl Bench) {
    check_rounds(test);
    check_forty(test)
}

#[test]
fn batches_fill_the_log_and_go_round_it_as_worked_by_hand(rt: HostRuntime) {
    check_both(&By(&rt, rt.alloc()))
}
