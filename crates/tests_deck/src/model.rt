//! What the homes hold after the first handles, worked out plainly: no log, no disk, sixteen homes.

use std::alloc::Global;
use tests_support::{Must, Test};

/// The number of what each home holds; 0 is a block of zeros.
pub type Homes = [u32; 16];

/// What a handle of a batch, by its index, does to a home: it copies these contents to it, or frees it. A batch is a
/// list of these in the order of its handles.
pub type Touch = (usize, usize, Option<u32>);

/// The last word of a group on a home.
#[derive(Clone, Copy)]
enum Mark {
    Nothing,
    Copy(u32),
    Free,
}

type Marks = [Mark; 16];

/// A live group: how many log blocks it takes, and its words.
#[derive(Clone, Copy)]
struct Piece {
    blocks: u64,
    marks: Marks,
}

/// A journal: what the home blocks hold themselves, its live groups, and how many log blocks there are for them.
#[derive(Drop)]
pub struct Model {
    own: Homes,
    live: Vec<Piece>,
    usable: u64,
}

impl Model {
    /// Nothing is live.
    pub fn new(alloc: Global, own: Homes, usable: u64) -> Model {
        Model {
            own,
            live: Vec::new(alloc),
            usable,
        }
    }

    /// What the homes hold, as recovery would leave them.
    pub fn standing(&self) -> Homes {
        let mut homes = self.own;
        for (home, contents) in homes.iter_mut().enumerate() {
            if let Mark::Copy(copy) = self.last_mark(home) {
                *contents = copy;
            }
        }
        homes
    }

    /// The last word on a home.
    fn last_mark(&self, home: usize) -> Mark {
        let mut last = Mark::Nothing;
        for piece in &self.live {
            match mark_at(&piece.marks, home) {
                Mark::Nothing => {}
                mark => last = mark,
            }
        }
        last
    }

    /// Whether the last word on a home is that it is free.
    pub fn is_free(&self, home: usize) -> bool {
        matches!(self.last_mark(home), Mark::Free)
    }

    /// What a home holds itself from now on.
    pub fn write(&mut self, home: usize, contents: u32) {
        if let Some(own) = self.own.get_mut(home) {
            *own = contents;
        }
    }

    /// The handles from `low` up to `high` become the newest live group. The oldest ones make room for it.
    pub fn commit(&mut self, test: &impl Test, touches: &[Touch], low: usize, high: usize) {
        let marks = marks_of(touches, low, high);
        let blocks = blocks_of(&marks);
        self.make_room(blocks);
        self.live.push(Piece { blocks, marks }).must(test, "memory");
    }

    /// The oldest groups go home until this many further blocks fit.
    fn make_room(&mut self, blocks: u64) {
        for _ in 0..self.live.len() {
            if self.live_blocks().saturating_add(blocks) > self.usable {
                self.checkpoint();
            }
        }
    }

    fn live_blocks(&self) -> u64 {
        let mut blocks: u64 = 0;
        for piece in &self.live {
            blocks = blocks.saturating_add(piece.blocks);
        }
        blocks
    }

    /// The copies of the oldest live group go home, but to a home that a later one frees; whether there is one.
    pub fn checkpoint(&mut self) -> bool {
        if self.live.is_empty() {
            return false;
        }
        let oldest = self.live.remove(0);
        self.take_home(&oldest.marks);
        true
    }

    /// Copies go home, but to a home that a live group frees.
    fn take_home(&mut self, marks: &Marks) {
        for (home, mark) in marks.iter().enumerate() {
            if let Mark::Copy(copy) = *mark {
                if !self.is_freed(home) {
                    self.write(home, copy);
                }
            }
        }
    }

    /// Whether a live group frees the home.
    fn is_freed(&self, home: usize) -> bool {
        for piece in &self.live {
            if let Mark::Free = mark_at(&piece.marks, home) {
                return true;
            }
        }
        false
    }
}

fn mark_at(marks: &Marks, home: usize) -> Mark {
    marks.get(home).copied().unwrap_or(Mark::Nothing)
}

/// The last word on each home of the handles from `low` up to `high`.
fn marks_of(touches: &[Touch], low: usize, high: usize) -> Marks {
    let mut marks = [Mark::Nothing; 16];
    for (handle, home, copy) in touches {
        if low <= *handle && *handle < high && *home < 16 {
            marks[*home] = match copy {
                Some(contents) => Mark::Copy(*contents),
                None => Mark::Free,
            };
        }
    }
    marks
}

/// How many log blocks a group takes: its copies with a descriptor, a revoke block and a commit block.
fn blocks_of(marks: &Marks) -> u64 {
    let mut copies: u64 = 0;
    let mut frees: u64 = 0;
    for mark in marks {
        match mark {
            Mark::Nothing => {}
            Mark::Copy(_) => copies = copies.saturating_add(1),
            Mark::Free => frees = 1,
        }
    }
    let descriptor = if copies > 0 { 1 } else { 0 };
    copies
        .saturating_add(descriptor)
        .saturating_add(frees)
        .saturating_add(1)
}
