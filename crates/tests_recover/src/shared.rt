//! Numbers that threads put under one lock, and what another lock has seen of them.
ghost use Rattle.std.specs.Prelude.{◌≡◌};
ghost use Rattle.jb_board.specs.History.{history_id};

use jb_board::{Appender, History, NewHistory, OwnEntries, Place};
use std::alloc::Global;
use std::marker::Brand;
use std::sync::{Mutex, Wait};
use std::thread;
use std::thread::Threads;

/// The numbers under the first lock, which the history has.
#[derive(Drop)]
struct Put<L: Place> {
    numbers: Vec<u64>,
    appender: Appender<u64, L>,
    ghost same: { numbers.items ≡ appender },
}

impl<L: Place> Put<L> {
    /// One more number. Nothing where there is no memory.
    fn put(&mut self, history: &History<u64, L>, made: &mut OwnEntries<u64, L>, number: u64) {
        let Put {
            numbers,
            appender,
            ..
        } = self;
        if numbers.push(number).is_ok() {
            history.add(appender, made, &number);
        }
    }
}

/// How many numbers two threads have put.
fn both_put<R: Threads + Wait + Sync, L: Place + Send + Sync>(
    rt: &R,
    alloc: Global,
    opened: NewHistory<u64>,
) -> usize
    requires { history_id opened ≡ L.history }
{
    let (history, appender) = opened.named::<L>();
    let put = Mutex::new(Put {
        numbers: Vec::new(alloc),
        appender,
    });
    let (one, other) = thread::join(
        rt,
        || put_all(rt, &history, &put),
        || put_all(rt, &history, &put),
    );
    let mut all = one;
    history.join(&mut all, other);
    let Put {
        numbers,
        mut appender,
        ..
    } = put.into_inner();
    let mut prefix = history.show(&mut appender);
    let mut early = history.show(&mut appender);
    history.learn(&mut early, &mut prefix);
    history.check(&mut appender, early);
    history.audit(&mut appender, all);
    numbers.len()
}

/// Puts a hundred numbers.
fn put_all<R: Wait, L: Place>(
    rt: &R,
    history: &History<u64, L>,
    put: &Mutex<Put<L>>,
) -> OwnEntries<u64, L> {
    let mut made = history.enter();
    for number in 0..100 {
        put.lock(rt).put(history, &mut made, number);
    }
    made
}

#[test]
fn two_threads_put_into_one_history(rt: HostRuntime) {
    let opened = NewHistory::new(rt.alloc()).expect(&rt, "memory");
    let found = both_put::<HostRuntime, Brand>(&rt, rt.alloc(), opened);
    assert!(rt; found == 200, "{found} numbers of 200")
}
