ghost use Rattle.std.specs.Prelude.{◌≡◌, [], IfOk, OnOk, IfErr, IsSome, Some, None, Ok, option_map};
ghost use Rattle.jb_text.specs.Parts.{lines, words, read_first, number_of};
ghost use Rattle.jb_price.specs.Claims.{read_of, claim_of, claim_in, cut_of, price_in_word};
ghost use Rattle.jb_price.specs.Claims.{prices_in, cut_in, total_in, after_each, on_line};
ghost use Rattle.jb_price.specs.Claims.{with_total, first_price, BeginsWithPrice, Refuses};

use crate::certificate::{Cert, CertAnswer};
use crate::fault::CertFault;
use jb_text::{next_line, next_word, number};
use std::alloc::Global;

/// Reads the text of a certificate for a queue of this many handles. The LF of its last line may be missing.
///
/// # Errors
///
/// `Syntax` with the first line that breaks the form; otherwise `Length` where there is not one price more than
/// handles; or `Memory`, once the first price was read.
pub fn read_cert(alloc: Global, text: &[u8], handles: usize) -> Result<Cert, CertFault>
    ensures ok { IfOk result (λ cert. read_of handles text.now ≡ Ok (claim_of cert)) }
    ensures err { IfErr result (Refuses (BeginsWithPrice text.now) (read_of handles text.now)) }
{
    let cert = read_lines(alloc, text)?;
    if cert.prices.len().checked_sub(1) != Some(handles) {
        return Err(CertFault::Length);
    }
    Ok(cert)
}

/// The certificate that the lines of a text say.
fn read_lines(alloc: Global, text: &[u8]) -> Result<Cert, CertFault>
    ensures ok { IfOk result (λ cert. claim_in (lines text.now) ≡ Ok (claim_of cert)) }
    ensures err { IfErr result (Refuses (BeginsWithPrice text.now) (claim_in (lines text.now))) }
{
    let Some((line, text)) = next_line(text) else {
        return Err(CertFault::Syntax(1));
    };
    let prices = read_prices(alloc, line)?;
    let Some((line, text)) = next_line(text) else {
        return Err(CertFault::Syntax(2));
    };
    let answer = match read_cut(alloc, line)? {
        Some(bounds) => read_total(bounds, text)?,
        None => read_end(text)?,
    };
    Ok(Cert { prices, answer })
}

/// The prices of the first line.
fn read_prices(alloc: Global, line: &[u8]) -> Result<Vec<Option<u64>>, CertFault>
    ensures ok { IfOk result (λ prices. prices_in line.now ≡ Some prices.items) }
    ensures begun { OnOk result (IsSome (first_price line.now)) }
    ensures err { IfErr result (Refuses (IsSome (first_price line.now)) (on_line 1 (prices_in line.now))) }
{
    match line.strip_prefix(b"prices ") {
        Some(text) => price_list(alloc, text),
        None => Err(CertFault::Syntax(1)),
    }
}

/// The prices that words say.
fn price_list(alloc: Global, text: &[u8]) -> Result<Vec<Option<u64>>, CertFault>
    ensures ok { IfOk result (λ prices. after_each price_in_word [] (words text.now) ≡ Some prices.items) }
    ensures begun { OnOk result (IsSome (read_first price_in_word (words text.now))) }
    ensures err { IfErr result (Refuses (IsSome (read_first price_in_word (words text.now)))
        (on_line 1 (after_each price_in_word [] (words text.now)))) }
{
    let mut prices = Vec::new(alloc);
    let mut rest = Some(text);
    while let Some(text) = rest {
        let (word, behind) = next_word(text);
        let Some(price) = price_of(word) else {
            return Err(CertFault::Syntax(1));
        };
        let Ok(()) = prices.push(price) else {
            return Err(CertFault::Memory);
        };
        rest = behind;
    }
    Ok(prices)
}

/// The price that a word says.
fn price_of(word: &[u8]) -> Option<Option<u64>>
    ensures { result ≡ price_in_word word.now }
{
    if word == b"none".as_slice() {
        return Some(None);
    }
    Some(Some(number(word)?))
}

/// The bounds of the second line, or `None` where it says that there is no cut.
fn read_cut(alloc: Global, line: &[u8]) -> Result<Option<Vec<usize>>, CertFault>
    ensures ok { IfOk result (λ cut. cut_in line.now ≡ Some (option_map (λ bounds. bounds.items) cut)) }
    ensures err { IfErr result (Refuses (Unit {0}) (on_line 2 (cut_in line.now))) }
{
    match line.strip_prefix(b"cut ") {
        Some(text) if text == b"none".as_slice() => Ok(None),
        Some(text) => Ok(Some(bound_list(alloc, text)?)),
        None => Err(CertFault::Syntax(2)),
    }
}

/// The bounds that words say.
fn bound_list(alloc: Global, text: &[u8]) -> Result<Vec<usize>, CertFault>
    ensures ok { IfOk result (λ bounds. after_each number_of [] (words text.now) ≡ Some bounds.items) }
    ensures err { IfErr result (Refuses (Unit {0}) (on_line 2 (after_each number_of [] (words text.now)))) }
{
    let mut bounds = Vec::new(alloc);
    let mut rest = Some(text);
    while let Some(text) = rest {
        let (word, behind) = next_word(text);
        let Some(bound) = number(word) else {
            return Err(CertFault::Syntax(2));
        };
        let Ok(()) = bounds.push(bound as usize) else {
            return Err(CertFault::Memory);
        };
        rest = behind;
    }
    Ok(bounds)
}

/// The cut of these bounds, with the total of the third line, after which no line is left.
fn read_total(bounds: Vec<usize>, text: &[u8]) -> Result<CertAnswer, CertFault>
    ensures ok { IfOk result (λ answer. with_total (Some bounds.items) (lines text.now) ≡ Ok (cut_of answer)) }
    ensures err { IfErr result (Refuses ⊥ (with_total (Some bounds.items) (lines text.now))) }
{
    let Some((line, rest)) = next_line(text) else {
        return Err(CertFault::Syntax(3));
    };
    let Some(total) = total_of(line) else {
        return Err(CertFault::Syntax(3));
    };
    match next_line(rest) {
        Some(_) => Err(CertFault::Syntax(4)),
        None => Ok(CertAnswer::Cut { bounds, total }),
    }
}

/// The total that a line says.
fn total_of(line: &[u8]) -> Option<u64>
    ensures { result ≡ total_in line.now }
{
    number(line.strip_prefix(b"total ")?)
}

/// The answer that there is no cut, after which no line is left.
fn read_end(text: &[u8]) -> Result<CertAnswer, CertFault>
    ensures ok { IfOk result (λ answer. with_total None (lines text.now) ≡ Ok (cut_of answer)) }
    ensures err { IfErr result (Refuses ⊥ (with_total None (lines text.now))) }
{
    match next_line(text) {
        Some(_) => Err(CertFault::Syntax(3)),
        None => Ok(CertAnswer::NoCut),
    }
}
