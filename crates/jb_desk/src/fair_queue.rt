//! The line in which handles are begun.

use std::array;
use std::sync::{Condvar, Mutex, Wait};

/// The line of those that are about to begin a handle, in the order in which they came.
#[derive(Drop)]
pub(crate) struct FairQueue {
    line: Mutex<Line>,
    /// the line has moved on; each is for the places of one remainder, so that the one whose turn it is, is woken, and
    /// few others
    moved: [Condvar; 16],
}

/// How far a line has come.
#[derive(Drop)]
struct Line {
    /// how many came
    came: u64,
    /// how many of these have gone on: the place of the one whose turn it is
    gone: u64,
    /// how many handles were settled when one last waited for room in vain
    in_vain: Option<u64>,
}

impl FairQueue {
    /// A line in which nobody waits.
    pub(crate) fn new() -> FairQueue {
        FairQueue {
            line: Mutex::new(Line {
                came: 0,
                gone: 0,
                in_vain: None,
            }),
            moved: array::from_fn(|_| Condvar::new()),
        }
    }

    /// Whether nobody waits in the line.
    pub(crate) fn is_empty<R: Wait>(&self, rt: &R) -> bool {
        let line = self.line.lock(rt);
        line.gone == line.came
    }

    /// How many wait in the line, with the one whose turn it is.
    pub(crate) fn waiting<R: Wait>(&self, rt: &R) -> u64 {
        let line = self.line.lock(rt);
        line.came.wrapping_sub(line.gone)
    }

    /// Waits until all that came before have gone on; says how many handles were settled when one last waited for room
    /// in vain.
    pub(crate) fn wait<R: Wait>(&self, rt: &R) -> Option<u64> {
        let mut line = self.line.lock(rt);
        let place = line.came;
        line.came = place.wrapping_add(1);
        let line = self
            .moved_to(place)
            .wait_while(rt, line, |line| line.gone != place);
        line.in_vain
    }

    /// The one whose turn it was goes on.
    pub(crate) fn pass<R: Wait>(&self, rt: &R, in_vain: Option<u64>) {
        let mut line = self.line.lock(rt);
        line.gone = line.gone.wrapping_add(1);
        line.in_vain = in_vain;
        let next = line.gone;
        drop(line);
        self.moved_to(next).notify_all();
    }

    /// What the one at this place waits on.
    fn moved_to(&self, place: u64) -> &Condvar {
        &self.moved[place as usize % self.moved.len()]
    }
}
