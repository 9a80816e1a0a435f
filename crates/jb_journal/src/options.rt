//! How a journal is run.
ghost use Rattle.std.specs.Prelude.{◌≡◌, true};
ghost use Rattle.std.specs.Duration.{as_nanos};
ghost use Rattle.jb_journal.specs.declared.options.Commits.TheVariants.{Meanwhile};

use jb_desk::Delay;

/// When what the workers have stopped is committed.
#[derive(Clone, Copy, Debug, PartialEq, Eq)]
pub enum Commits {
    /// While they are at work: each of them has a thread of its own, and so has what commits. Where the system does not
    /// make these threads, no worker is called, and the answer is `NoThread`.
    Meanwhile,
    /// The same where the system makes the threads. Otherwise the workers run one after the other, and what they
    /// stopped is committed after them. For workers that wait for no commit: a [wait](crate::Client::wait) requires
    /// `Meanwhile`.
    MeanwhileOrAfter,
    /// Once all workers have ended, with threads or without. For workers that wait for no commit, likewise. A handle
    /// that finds no room in the log is refused (`Full`).
    After,
}

/// How a journal is run.
#[derive(Clone, Copy, Debug, PartialEq, Eq)]
pub struct Options {
    /// How many workers there are, from 1 to 64.
    pub workers: usize,
    /// Whether committed transactions are written home meanwhile (`jbd2_log_do_checkpoint`). Otherwise a commit writes
    /// the oldest ones home where it needs their room, and the last ones are left to recovery.
    pub checkpoint: bool,
    /// How many blocks of the log have to be in use until committed transactions are written home, while workers or
    /// their commits are at work; with 0 each is as soon as it is committed. A level that leaves room for some
    /// transactions of the most blocks lets a home that changes often be written less often, and a commit still finds
    /// room. At the end all are written home (tested). Without `checkpoint` it means nothing.
    pub level: u32,
    /// How long each commit is put off, so that it takes more handles. It is not once as many wait as the delay names,
    /// where a handle waits for room in the log, or where all workers have ended.
    pub delay: Delay,
    /// When commits are made.
    pub commits: Commits,
}

impl Options {
    /// This many workers, a thread each; what they stop is committed meanwhile, no commit is put off, and each
    /// committed transaction is written home at once.
    pub fn new(workers: usize) -> Options
        ensures threads { (result.workers ≡ workers) × (result.checkpoint ≡ true) × (result.level ≡ 0) }
        ensures delay { (as_nanos result.delay.time ≡ 0) × (result.delay.handles ≡ 0) }
        ensures commits { result.commits ≡ Meanwhile }
    {
        Options {
            workers,
            checkpoint: true,
            level: 0,
            delay: Delay::none(),
            commits: Commits::Meanwhile,
        }
    }
}
