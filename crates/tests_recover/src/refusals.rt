//! Small images that recovery refuses and does not change.

use crate::checks::By;
use crate::images::Row;
use crate::logs::{BAD_BEHIND, COUNT_ABOVE, OUTSIDE, OUTSIDE_SECOND, cut_off};
use crate::small::{MAGIC, check_recovery};
use jb_recover::RecoverFault;
use tests_support::Bench;

/// A name, a small image with these rows but for this many of the last ones, and why it is refused.
type Refused = (&'static str, &'static [Row], usize, RecoverFault);

const OUT: RecoverFault = RecoverFault::HomeOutOfRange(16, 2);

static REFUSED: [Refused; 6] = [
    ("count above", &COUNT_ABOVE, 0, RecoverFault::BadRevoke(1)),
    ("outside", &OUTSIDE, 3, OUT),
    ("outside, not yet revoked", &OUTSIDE, 1, OUT),
    ("outside, second", &OUTSIDE_SECOND, 0, OUT),
    // A copy of home 2^32 + 5, in a journal with 64-bit block numbers.
    (
        "wide, outside",
        &[
            (0, 2, [0, 0, 3, 0]),
            (1, 0, [MAGIC, 1, 2, 5]),
            (1, 1, [8, 1, 0, 0]),
            (2, 0, [1, 2, 3, 4]),
            (3, 0, [MAGIC, 2, 2, 0]),
        ],
        0,
        RecoverFault::HomeOutOfRange(4_294_967_301, 2),
    ),
    ("a bad count", &BAD_BEHIND, 0, RecoverFault::BadRevoke(4)),
];

/// Checks that an image is refused and stays as it was.
fn check_refused(test: &impl Bench, of: &Refused) {
    let (row, rows, cut, fault) = *of;
    check_recovery(test, row, cut_off(rows, cut), Err(fault), &[])
}

#[test]
fn small_images_that_are_refused(rt: HostRuntime) {
    for of in &REFUSED {
        check_refused(&By(&rt, rt.alloc()), of);
    }
}
