//! Certificates: their texts, and what is said of them.

use crate::checks::By;
use crate::plans::check_printed;
use crate::texts::{FOUR_HANDLES, GROWING, check_said, check_told, queue_of};
use crate::verdicts::{cert_with, check_verdicts};
use jb_commands::{AnswerForm, fault_answer};
use jb_price::{Cert, CertFault, laws, read_cert};
use jb_queue::read_queue;
use std::alloc::Global;
use tests_support::{Must, Test, check_at};

const SYNTAX_1: &str = "jb: certificate: Syntax 1\n";

const SYNTAX_2: &str = "jb: certificate: Syntax 2\n";

const SYNTAX_3: &str = "jb: certificate: Syntax 3\n";

const SYNTAX_4: &str = "jb: certificate: Syntax 4\n";

/// A certificate that is none, and what is said of it.
struct Unread(&'static str, &'static str);

/// Such certificates of GROWING.
static UNREAD: [Unread; 8] = [
    Unread("", SYNTAX_1),
    Unread("prices 0 04\ncut 0 1\ntotal 4\n", SYNTAX_1),
    Unread("prices 0 4 6 6 9\n", SYNTAX_2),
    Unread("prices 0 4 6 6 9\ncut 0 1  4\ntotal 9\n", SYNTAX_2),
    Unread("prices 0 4 6 6 9\ncut none\ntotal 9\n", SYNTAX_3),
    Unread(
        "prices 0 4 6 6 9\ncut 0 1 4\ntotal 18446744073709551616\n",
        SYNTAX_3,
    ),
    Unread("prices 0 4 6 6 9\ncut 0 1 4\ntotal 9\n\n", SYNTAX_4),
    Unread(
        "prices 0 4 6 6\ncut 0 1 4\ntotal 9\n",
        "jb: certificate: Length\n",
    ),
];

/// Checks what is said of a certificate that is none.
fn check_none(test: &impl Test, alloc: Global, wanted: &Unread, row: u64) {
    let Unread(text, said) = wanted;
    let queue = queue_of(test, alloc, GROWING.as_bytes());
    check_said(test, alloc, &queue, text, (2, "", said), row)
}

/// Checks what is said of certificates that are none.
fn check_unread(test: &impl Test, alloc: Global) {
    for (row, wanted) in UNREAD.iter().enumerate() {
        check_none(test, alloc, wanted, row as u64)
    }
}

/// Checks what is said of a queue that is none.
fn check_no_queue(test: &impl Test, alloc: Global) {
    let fault = read_queue(alloc, b"bs 1024\nlimit 6\nh x\n").err();
    let answer = fault_answer(alloc, AnswerForm::Text, fault.must(test, "a queue")).must(
        test, "memory",
    );
    let told = (2, "", "jb: queue line 3: OpWord\n");
    check_told(test, &answer, told, "what is said of queue", 0)
}

/// The prices of a certificate, the bounds and the total of its cut, if it has one, and its text.
struct Text(
    &'static [Option<u64>],
    Option<(&'static [usize], u64)>,
    &'static str,
);

/// Certificates with a cut, without one, and with the largest price.
static TEXTS: [Text; 3] = [
    Text(
        &[Some(0), Some(4), Some(6), Some(6), Some(9)],
        Some((&[0, 1, 4], 9)),
        FOUR_HANDLES,
    ),
    Text(&[Some(0), None], None, "prices 0 none\ncut none\n"),
    Text(
        &[Some(u64::MAX)],
        Some((&[0], 0)),
        "prices 18446744073709551615\ncut 0\ntotal 0\n",
    ),
];

/// Checks that a certificate is what is read of this text.
fn check_read(test: &impl Test, alloc: Global, cert: &Cert, text: &str, row: u64) {
    let handles = cert.prices.len().saturating_sub(1);
    let read = read_cert(alloc, text.as_bytes(), handles).must(test, "a certificate is refused");
    check_at(test, read == *cert, "what is read of certificate", row)
}

/// Checks the text of a certificate, which is read of it also where its last LF is missing.
fn check_text(test: &impl Test, alloc: Global, wanted: &Text, row: u64) {
    let Text(prices, cut, text) = wanted;
    let cert = cert_with(test, alloc, prices, *cut);
    check_printed(test, alloc, &cert, text, row);
    check_read(test, alloc, &cert, text, row);
    check_read(test, alloc, &cert, text.trim_end(), row)
}

/// Checks the texts of certificates.
fn check_texts(test: &impl Test, alloc: Global) {
    for (row, wanted) in TEXTS.iter().enumerate() {
        check_text(test, alloc, wanted, row as u64)
    }
}

/// The line that a prefix of `FOUR_HANDLES` breaks, by the prefix's length: 0 to 33 bytes.
static BROKEN_LINES: [u64; 34] = [
    1, 1, 1, 1, 1, 1, 1, 1, 2, 1, 2, 1, 2, 1, 2, 1, 2, 2, 2, 2, 2, 2, 3, 2, 3, 2, 3, 3, 3, 3, 3, 3,
    3, 3,
];

/// A text that is no certificate of no handle, and the first line that breaks the form.
struct Faulty(&'static str, CertFault);

static FAULTY: [Faulty; 26] = [
    Faulty("", CertFault::Syntax(1)),
    Faulty("\n", CertFault::Syntax(1)),
    Faulty("prices\ncut 0\ntotal 0\n", CertFault::Syntax(1)),
    Faulty("prices \ncut 0\ntotal 0\n", CertFault::Syntax(1)),
    Faulty("prices 00\ncut 0\ntotal 0\n", CertFault::Syntax(1)),
    Faulty("prices 0  4\ncut 0 1\ntotal 4\n", CertFault::Syntax(1)),
    Faulty("prices 0 \ncut 0\ntotal 0\n", CertFault::Syntax(1)),
    Faulty("prices 0\r\ncut 0\ntotal 0\n", CertFault::Syntax(1)),
    Faulty(
        "prices 18446744073709551616\ncut 0\ntotal 0\n",
        CertFault::Syntax(1),
    ),
    Faulty("prices 0 None\ncut none\n", CertFault::Syntax(1)),
    Faulty("prices 0 +4\ncut 0 1\ntotal 4\n", CertFault::Syntax(1)),
    Faulty("prices 0\n", CertFault::Syntax(2)),
    Faulty("prices 0\n\n", CertFault::Syntax(2)),
    Faulty("prices 0\ncut\ntotal 0\n", CertFault::Syntax(2)),
    Faulty("prices 0\ncut none 0\n", CertFault::Syntax(2)),
    Faulty("prices 0\ncut 0 none\ntotal 0\n", CertFault::Syntax(2)),
    Faulty("prices 0\ncut 0\n", CertFault::Syntax(3)),
    Faulty("prices 0\ncut 0\ntotal 00\n", CertFault::Syntax(3)),
    Faulty("prices 0\ncut 0\ntotal none\n", CertFault::Syntax(3)),
    Faulty("prices 0\ncut none\ntotal 0\n", CertFault::Syntax(3)),
    Faulty("prices 0\ncut none\n\n", CertFault::Syntax(3)),
    Faulty("prices 0\ncut 0\ntotal 0\n\n", CertFault::Syntax(4)),
    Faulty("prices 0\ncut 0\ntotal 00\nmore", CertFault::Syntax(3)),
    Faulty("prices 0\ncut 0\ntotal 0\nmore", CertFault::Syntax(4)),
    Faulty("prices 0 4\ncut 0\ntotal 00\n", CertFault::Syntax(3)),
    Faulty("prices 0 4\ncut 0\ntotal 0\n", CertFault::Length),
];

/// The fault of a text that is no certificate of this many handles.
fn fault_of(alloc: Global, text: &[u8], handles: usize) -> Option<CertFault> {
    read_cert(alloc, text, handles).err()
}

/// Checks the fault of each prefix of a certificate's text.
fn check_prefixes(test: &impl Test, alloc: Global) {
    for (end, line) in BROKEN_LINES.iter().enumerate() {
        let front = FOUR_HANDLES.as_bytes().get(..end);
        let front = front.must(test, "a short text");
        let is_told = fault_of(alloc, front, 4) == Some(CertFault::Syntax(*line));
        check_at(test, is_told, "the line broken by length", end as u64)
    }
}

/// Checks the fault of each text that is none.
fn check_faults(test: &impl Test, alloc: Global) {
    for (row, faulty) in FAULTY.iter().enumerate() {
        let is_told = fault_of(alloc, faulty.0.as_bytes(), 0) == Some(faulty.1);
        check_at(test, is_told, "the fault of row", row as u64)
    }
}

fn check_certificates(test: &impl Test, alloc: Global) {
    laws::read_back();
    laws::planned();
    check_verdicts(test, alloc);
    check_unread(test, alloc);
    check_no_queue(test, alloc);
    check_texts(test, alloc);
    check_prefixes(test, alloc);
    check_faults(test, alloc)
}

#[test]
fn certificates_are_read_printed_and_judged(rt: HostRuntime) {
    check_certificates(&By(&rt), rt.alloc())
}
