//! What the handles of a batch do to homes.

use crate::lives::Does;
use crate::model::Touch;
use tests_support::{Bench, Must, Test};

/// A further thing that a handle does.
pub fn push_touch(test: &impl Test, touches: &mut Vec<Touch>, touch: Touch) {
    touches.push(touch).must(test, "memory");
}

/// What a handle does to these homes: it copies contents to each from this number on, or frees it.
fn push_touches(
    test: &impl Test,
    touches: &mut Vec<Touch>,
    handle: usize,
    homes: &[u32],
    from: Option<u32>,
) {
    for home in homes {
        let copy = match from {
            Some(from) => Some(from.saturating_add(*home)),
            None => None,
        };
        push_touch(test, touches, (handle, *home as usize, copy));
    }
}

/// What a handle of a script does to homes.
fn push_does(test: &impl Test, touches: &mut Vec<Touch>, handle: usize, does: Does) {
    let (copies, from, frees) = does;
    push_touches(test, touches, handle, copies, Some(from));
    push_touches(test, touches, handle, frees, None)
}

/// What the handles of a script do to homes.
pub fn touches_of(test: &impl Bench, handles: &[Does]) -> Vec<Touch> {
    let mut touches = Vec::new(test.alloc());
    for (handle, does) in handles.iter().enumerate() {
        push_does(test, &mut touches, handle, *does);
    }
    touches
}
