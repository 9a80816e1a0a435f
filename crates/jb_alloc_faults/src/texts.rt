//! Calls that read and write texts and blocks.

use crate::met::{Met, tried};
use jb_block::{Memory, Width, put32};
use jb_price::{Cert, CertFault, print_cert, read_cert};
use jb_queue::{Cause, QueueFault, QueueLines, read_lines, read_queue};
use jb_revoke::{RevokeFault, read_revokes};
use jb_tags::read_tags;
use std::alloc::Global;
use std::fs::File;
use std::rt::Files;

/// Three handles that fit into one group.
pub const THREE: &[u8] = b"bs 1024\nlimit 7\nh w1 w2 w3\nh w3 w4 w5\nh w1 w2\n";

/// Their certificate.
pub const CERTIFICATE: &str = "prices 0 5 7 7\ncut 0 3\ntotal 7\n";

/// The rows of texts and blocks, by their names.
pub fn row(rt: &impl Files<File = File>, alloc: Global, name: &str) -> Option<Met> {
    if name == "read_lines" {
        return lines_row(rt, alloc);
    }
    let cert = read_cert(alloc, CERTIFICATE.as_bytes(), 3).ok()?;
    tried(rt, || is_read(alloc, name, &cert))
}

/// Whether the call of this name reads or writes what it must.
fn is_read(alloc: Global, name: &str, cert: &Cert) -> Result<bool, Memory> {
    match name {
        "read_queue" => is_queue(alloc),
        "read_cert" => is_cert(alloc, cert),
        "print_cert" => is_printed(alloc, cert),
        "read_tags" => is_of_zeros(alloc),
        "read_revokes" => is_of_five(alloc),
        _ => Ok(false),
    }
}

/// Whether a certificate is printed as it was read.
fn is_printed(alloc: Global, cert: &Cert) -> Result<bool, Memory> {
    Ok(&*print_cert(alloc, cert)? == CERTIFICATE)
}

/// The text for a first call, and that for a second one.
fn two_texts(alloc: Global) -> Result<Vec<Vec<u8>>, Memory> {
    let mut texts = Vec::new(alloc);
    for _ in 0..2 {
        texts.push(THREE.to_vec(alloc)?)?;
    }
    Ok(texts)
}

/// The row of a text that is read without its handles.
fn lines_row(rt: &impl Files<File = File>, alloc: Global) -> Option<Met> {
    let mut texts = two_texts(alloc).ok()?;
    tried(rt, || match texts.pop() {
        Some(text) => is_of_eight(alloc, text),
        None => Ok(false),
    })
}

/// Memory ran out, where a text has no fault before the line that is named.
fn ran_out(fault: QueueFault) -> Result<bool, Memory> {
    match fault.cause {
        Cause::Memory if 3 <= fault.line && fault.line <= 5 => Err(Memory),
        _ => Ok(false),
    }
}

/// Whether a text has the three handles.
fn is_queue(alloc: Global) -> Result<bool, Memory> {
    match read_queue(alloc, THREE) {
        Ok(queue) => Ok(queue.handles.len() == 3 && queue.limit == 7),
        Err(fault) => ran_out(fault),
    }
}

/// Whether a text that is read without its handles, and its handles then, have eight words.
fn is_of_eight(alloc: Global, text: Vec<u8>) -> Result<bool, Memory> {
    match read_lines(alloc, text) {
        Ok(queue) => Ok(words_of(alloc, &queue)? == 8),
        Err(fault) => ran_out(fault),
    }
}

/// How many words the handles of a text have, read one after the other.
fn words_of(alloc: Global, queue: &QueueLines) -> Result<usize, Memory> {
    let mut reader = queue.reader();
    let mut words = 0usize;
    for _handle in 0..queue.len() {
        match reader.read(alloc, 0)? {
            Some(handle) => words = words.saturating_add(handle.len()),
            None => return Ok(words),
        }
    }
    Ok(words)
}

/// Whether a certificate is read as it was before.
fn is_cert(alloc: Global, cert: &Cert) -> Result<bool, Memory> {
    match read_cert(alloc, CERTIFICATE.as_bytes(), 3) {
        Ok(again) => Ok(again == *cert),
        Err(CertFault::Memory) => Err(Memory),
        Err(_) => Ok(false),
    }
}

/// Whether the tags of a block of zeros are those of home block 0.
fn is_of_zeros(alloc: Global) -> Result<bool, Memory> {
    let tags = read_tags(alloc, &[0; 1024], Width::Narrow)?;
    let of_block_0 = tags.iter().all(|tag| tag.home == 0 && tag.flags == 0);
    Ok(tags.len() == 42 && of_block_0)
}

/// Whether a revoke block has five homes, the numbers of which are 0.
fn is_of_five(alloc: Global) -> Result<bool, Memory> {
    let mut block = [0u8; 1024];
    put32(&mut block, 12, 36);
    match read_revokes(alloc, &block, Width::Narrow) {
        Ok(homes) => Ok(homes.as_slice() == [0; 5].as_slice()),
        Err(RevokeFault::Memory) => Err(Memory),
        Err(_) => Ok(false),
    }
}
