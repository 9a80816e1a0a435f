//! One worker tells another what it has waited for, and the other reads it.
use crate::checks::{By, Host};
use crate::journals::{CLOCK, formatted, homes};
use jb_journal::{BlockSize, Disk, Options, run};
use proof_clients::{Found, TellingWorkers, two_workers};
use tests_support::{Must, Test, check, check_at, fail};

/// Checks what the two workers have done.
fn check_done(test: &impl Test, answers: &[Found]) {
    let is_first = matches!(answers.first(), Some(Found::Wrote(0)));
    check(test, is_first, "what the first worker writes");
    let Some(Found::Read(0, bytes)) = answers.get(1) else {
        return fail(test, "the second worker has read nothing");
    };
    check(test, *bytes == [7; 1024], "what the second worker reads");
}

/// Checks what the two workers have done, and what is kept of it.
fn check_told(rt: &impl Host) {
    let test = By(rt, rt.alloc());
    let disk = formatted(&test, BlockSize::OneKib);
    let ran = two_workers(rt, disk, CLOCK, [7; 1024]).must(&test, "the journal is not run");
    check_done(&test, &ran.answers);
    check(&test, homes(&test, &ran.disk)[3] == 7, "the home");
}

/// Checks that both workers have failed.
fn check_failed(test: &impl Test, answers: &[Found]) {
    check(test, answers.len() == 2, "how many workers answer");
    for (at, found) in answers.iter().enumerate() {
        let has_failed = matches!(found, Found::Failed);
        check_at(test, has_failed, "the answer of worker", at as u64);
    }
}

/// Checks what the two workers answer where a block has another size than the one that is written.
fn check_refused<D: Disk + Drop + Send>(rt: &impl Host, disk: D) {
    let test = By(rt, rt.alloc());
    let telling = TellingWorkers::new([7; 1024]);
    let ran = run(rt, disk, CLOCK, Options::new(2), &telling).must(&test, "the journal is not run");
    check_failed(&test, &ran.answers);
    check(&test, ran.handles == 0, "how many handles have stopped");
}

fn check_larger(rt: &impl Host) {
    check_refused(rt, formatted(&By(rt, rt.alloc()), BlockSize::TwoKib))
}

#[test]
fn what_one_worker_waited_for_another_reads(rt: HostRuntime) {
    check_told(&rt)
}

#[test]
fn a_worker_that_is_refused_tells_the_other_one(rt: HostRuntime) {
    check_larger(&rt)
}
