//! What the workers leave is put together.
ghost use Rattle.std.specs.Prelude.{map};
ghost use Rattle.jb_cost.specs.Pieces.{joined};
ghost use Rattle.jb_desk.specs.Seats.{made_left};

use crate::threads::{Ends, Threaded, WorkerResult};
use jb_desk::{Desk, Left, Origin, Sights};
use jb_disk::{Clock, Disk};
use std::sync::Wait;

/// What all threads leave.
#[derive(Drop)]
pub(crate) struct ThreadResults<T, D: Disk, H: Origin> {
    /// What their seats left.
    pub lefts: Vec<Left<H>>,
    /// What they have seen of the handles that stopped and of the journal.
    pub seen: Sights<D, H>,
    /// What the workers answered that were called, in the order of their places.
    pub answers: Vec<T>,
}

impl<T: Drop, D: Disk, H: Origin> ThreadResults<T, D, H> {
    ghost use Rattle.std.specs.Prelude.{◌≡◌, ◌+◌, ◌≤◌, ◌<◌, ◌++◌, [], All, option_to_list, vec_len, vec_capacity};
    ghost use Rattle.jb_book.specs.Marks.{SeesMore};
    ghost use Rattle.jb_journal.specs.Gather.{IsFree, IsGatheredFrom, answers_of};
    ghost use Rattle.jb_journal.specs.Run.{HasAllSeen, stops_left_by, stops_of_worked};

    /// Nothing but what is seen by now, with this room for what comes.
    fn new(lefts: Vec<Left<H>>, answers: Vec<T>, seen: Sights<D, H>) -> ThreadResults<T, D, H>
        requires { lefts.items ≡ [] }
        ensures { (result.lefts ≡ lefts) × (result.answers ≡ answers) }
    {
        ThreadResults {
            lefts,
            seen,
            answers,
        }
    }

    /// Adds what a seat left, where there was one.
    fn add_left(&mut self, left: Option<Left<H>>)
        requires { vec_len self.old.lefts < vec_capacity self.old.lefts }
        ensures stops { joined (map made_left self.new.lefts.items) ≡ joined (map made_left self.old.lefts.items)
            ++ stops_left_by left }
        ensures room { (vec_capacity self.new.lefts ≡ vec_capacity self.old.lefts)
            × (vec_len self.new.lefts ≤ vec_len self.old.lefts + 1) }
        ensures rest { (self.new.answers ≡ self.old.answers) × (self.new.seen ≡ self.old.seen) }
    {
        if let Some(left) = left {
            self.lefts.push_reserved(left);
        }
    }

    /// Adds what a worker answered, where it was called.
    fn add_answer(&mut self, answer: Option<T>)
        requires { vec_len self.old.answers < vec_capacity self.old.answers }
        ensures answers { self.new.answers.items ≡ self.old.answers.items ++ option_to_list answer }
        ensures room { (vec_capacity self.new.answers ≡ vec_capacity self.old.answers)
            × (vec_len self.new.answers ≤ vec_len self.old.answers + 1) }
        ensures rest { (self.new.lefts ≡ self.old.lefts) × (self.new.seen ≡ self.old.seen) }
    {
        if let Some(answer) = answer {
            self.answers.push_reserved(answer);
        }
    }

    /// Adds what a worker leaves.
    fn add<C: Clock>(&mut self, desk: &Desk<D, C, H>, worked: WorkerResult<T, D, H>)
        requires lefts { vec_len self.old.lefts < vec_capacity self.old.lefts }
        requires answers { vec_len self.old.answers < vec_capacity self.old.answers }
        ensures answers { self.new.answers.items ≡ self.old.answers.items ++ answers_of worked }
        ensures stops { joined (map made_left self.new.lefts.items) ≡ joined (map made_left self.old.lefts.items)
            ++ stops_of_worked worked }
        ensures seen { SeesMore self.old.seen self.new.seen × HasAllSeen self.new.seen worked }
        ensures lefts_room { (vec_capacity self.new.lefts ≡ vec_capacity self.old.lefts)
            × (vec_len self.new.lefts ≤ vec_len self.old.lefts + 1) }
        ensures answers_room { (vec_capacity self.new.answers ≡ vec_capacity self.old.answers)
            × (vec_len self.new.answers ≤ vec_len self.old.answers + 1) }
    {
        let WorkerResult {
            left,
            mut seen,
            answer,
        } = worked;
        desk.inform(&mut self.seen, &mut seen);
        self.add_left(left);
        self.add_answer(answer);
    }

    /// Adds what all workers leave.
    fn add_all<C: Clock>(&mut self, desk: &Desk<D, C, H>, workers: Vec<WorkerResult<T, D, H>>)
        requires lefts { vec_len self.old.lefts + vec_len workers ≤ vec_capacity self.old.lefts }
        requires answers { IsFree (vec_len workers) self.old.answers }
        ensures answers { self.new.answers.items ≡ joined (map answers_of workers.items) }
        ensures stops { joined (map made_left self.new.lefts.items) ≡ joined (map made_left self.old.lefts.items)
            ++ joined (map stops_of_worked workers.items) }
        ensures seen { All (HasAllSeen self.new.seen) workers.items }
    {
        for worked in workers {
            self.add(desk, worked);
        }
    }

    /// Puts together what the threads of a run leave, in room that was taken before; says how they ended, too.
    pub(crate) fn of<C: Clock, R: Wait>(
        rt: &R,
        desk: &Desk<D, C, H>,
        lefts: Vec<Left<H>>,
        answers: Vec<T>,
        ran: Threaded<T, D, H>,
    ) -> (ThreadResults<T, D, H>, Ends)
        requires lefts { IsFree (vec_len ran.workers + 1) lefts }
        requires answers { IsFree (vec_len ran.workers) answers }
        ensures gathered { IsGatheredFrom ran result.0 }
        ensures ends { result.1 ≡ ran.ends }
    {
        let Threaded {
            workers,
            committer,
            ends,
        } = ran;
        let mut gathered = ThreadResults::new(lefts, answers, desk.sights(rt));
        gathered.add_left(committer);
        gathered.add_all(desk, workers);
        (gathered, ends)
    }
}
