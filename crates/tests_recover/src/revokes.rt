//! Small images with revoke blocks, what their recovery reports, and what it leaves.

use crate::cases::{Case, check_cases};
use crate::checks::By;
use crate::logs::{COUNT_ABOVE, REVOKED_LATER};
use crate::small::{Counts, HOMES, MAGIC};

static CASES: [Case; 12] = [
    // Block numbers of 64 bits, and a count that ends in the first entry.
    Case {
        name: "wide, no entry",
        rows: &[
            (0, 2, [0, 0, 3, 0]),
            (1, 0, [MAGIC, 5, 2, 22]),
            (1, 1, [5, 0, 0, 0]),
            (2, 0, [MAGIC, 1, 2, 5]),
            (2, 1, [8, 0, 0, 0]),
            (3, 0, [1, 2, 3, 4]),
            (4, 0, [MAGIC, 2, 2, 0]),
        ],
        cut: 0,
        told: Counts(1, 1, 0, 4),
        after: &[(0, 1, [33, 1, 3, 0]), (HOMES + 5, 0, [1, 2, 3, 4])],
    },
    Case {
        name: "wide, an entry",
        rows: &[
            (0, 2, [0, 0, 3, 0]),
            (1, 0, [MAGIC, 5, 2, 24]),
            (1, 1, [0, 5, 0, 0]),
            (2, 0, [MAGIC, 1, 2, 5]),
            (2, 1, [8, 0, 0, 0]),
            (3, 0, [1, 2, 3, 4]),
            (4, 0, [MAGIC, 2, 2, 0]),
        ],
        cut: 0,
        told: Counts(1, 0, 1, 4),
        after: &[(0, 1, [33, 1, 3, 0])],
    },
    // Home 5 is copied and then revoked, in one transaction.
    Case {
        name: "revoked at once",
        rows: &[
            (1, 0, [MAGIC, 1, 2, 5]),
            (1, 1, [8, 0, 0, 0]),
            (2, 0, [1, 2, 3, 4]),
            (3, 0, [MAGIC, 5, 2, 20]),
            (3, 1, [5, 0, 0, 0]),
            (4, 0, [MAGIC, 2, 2, 0]),
        ],
        cut: 0,
        told: Counts(1, 0, 1, 4),
        after: &[(0, 1, [33, 1, 3, 0])],
    },
    // The same of the first home that is not there.
    Case {
        name: "outside, revoked at once",
        rows: &[
            (1, 0, [MAGIC, 1, 2, 16]),
            (1, 1, [8, 0, 0, 0]),
            (2, 0, [1, 2, 3, 4]),
            (3, 0, [MAGIC, 5, 2, 20]),
            (3, 1, [16, 0, 0, 0]),
            (4, 0, [MAGIC, 2, 2, 0]),
        ],
        cut: 0,
        told: Counts(1, 0, 1, 4),
        after: &[(0, 1, [33, 1, 3, 0])],
    },
    Case {
        name: "revoked later",
        rows: &REVOKED_LATER,
        cut: 0,
        told: Counts(2, 0, 1, 5),
        after: &[(0, 1, [33, 1, 4, 0])],
    },
    Case {
        name: "not yet revoked",
        rows: &REVOKED_LATER,
        cut: 1,
        told: Counts(1, 1, 0, 4),
        after: &[(0, 1, [33, 1, 3, 0]), (HOMES + 5, 0, [1, 2, 3, 4])],
    },
    // Home 5 is revoked, and copied in a later transaction.
    Case {
        name: "revoked earlier",
        rows: &[
            (1, 0, [MAGIC, 5, 2, 20]),
            (1, 1, [5, 0, 0, 0]),
            (2, 0, [MAGIC, 2, 2, 0]),
            (3, 0, [MAGIC, 1, 3, 5]),
            (3, 1, [8, 0, 0, 0]),
            (4, 0, [1, 2, 3, 4]),
            (5, 0, [MAGIC, 2, 3, 0]),
        ],
        cut: 0,
        told: Counts(2, 1, 0, 5),
        after: &[(0, 1, [33, 1, 4, 0]), (HOMES + 5, 0, [1, 2, 3, 4])],
    },
    // Home 5 is copied, revoked in a later transaction, and again in one that is not committed.
    Case {
        name: "revoked again",
        rows: &[
            (1, 0, [MAGIC, 1, 2, 5]),
            (1, 1, [8, 0, 0, 0]),
            (2, 0, [1, 2, 3, 4]),
            (3, 0, [MAGIC, 2, 2, 0]),
            (4, 0, [MAGIC, 5, 3, 20]),
            (4, 1, [5, 0, 0, 0]),
            (5, 0, [MAGIC, 2, 3, 0]),
            (6, 0, [MAGIC, 5, 4, 20]),
            (6, 1, [5, 0, 0, 0]),
        ],
        cut: 0,
        told: Counts(2, 0, 1, 5),
        after: &[(0, 1, [33, 1, 4, 0])],
    },
    // Home 5 is revoked, copied in a later transaction, and revoked again in one that is not committed.
    Case {
        name: "revoked earlier, and not yet again",
        rows: &[
            (1, 0, [MAGIC, 5, 2, 20]),
            (1, 1, [5, 0, 0, 0]),
            (2, 0, [MAGIC, 2, 2, 0]),
            (3, 0, [MAGIC, 1, 3, 5]),
            (3, 1, [8, 0, 0, 0]),
            (4, 0, [1, 2, 3, 4]),
            (5, 0, [MAGIC, 2, 3, 0]),
            (6, 0, [MAGIC, 5, 4, 20]),
            (6, 1, [5, 0, 0, 0]),
        ],
        cut: 0,
        told: Counts(2, 1, 0, 5),
        after: &[(0, 1, [33, 1, 4, 0]), (HOMES + 5, 0, [1, 2, 3, 4])],
    },
    Case {
        name: "count above, not committed",
        rows: &COUNT_ABOVE,
        cut: 1,
        told: Counts(0, 0, 0, 3),
        after: &[(0, 1, [33, 1, 2, 0])],
    },
    // A count below the first entry.
    Case {
        name: "count below",
        rows: &[
            (1, 0, [MAGIC, 5, 2, 15]),
            (1, 1, [7, 0, 0, 0]),
            (2, 0, [MAGIC, 1, 2, 7]),
            (2, 1, [2, 0, 10, 0]),
            (3, 0, [77, 77, 77, 77]),
            (4, 0, [70, 70, 70, 70]),
            (5, 0, [MAGIC, 2, 2, 0]),
        ],
        cut: 0,
        told: Counts(1, 2, 0, 4),
        after: &[
            (0, 1, [33, 1, 3, 0]),
            (HOMES, 0, [70, 70, 70, 70]),
            (HOMES + 7, 0, [77, 77, 77, 77]),
        ],
    },
    // A count in the middle of the second entry.
    Case {
        name: "count in the midst",
        rows: &[
            (1, 0, [MAGIC, 5, 2, 22]),
            (1, 1, [7, 0, 0, 0]),
            (2, 0, [MAGIC, 1, 2, 7]),
            (2, 1, [2, 0, 10, 0]),
            (3, 0, [77, 77, 77, 77]),
            (4, 0, [70, 70, 70, 70]),
            (5, 0, [MAGIC, 2, 2, 0]),
        ],
        cut: 0,
        told: Counts(1, 1, 1, 4),
        after: &[(0, 1, [33, 1, 3, 0]), (HOMES, 0, [70, 70, 70, 70])],
    },
];

#[test]
fn small_images_with_revokes(rt: HostRuntime) {
    check_cases(&By(&rt, rt.alloc()), &CASES)
}
