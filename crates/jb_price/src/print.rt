ghost use Rattle.std.specs.Prelude.{◌≡◌, ◌++◌, ◌∷◌, map, codes, decimal, string_bytes, IfOk, OnOk};
ghost use Rattle.jb_text.specs.Parts.{spaced};
ghost use Rattle.jb_price.specs.Certificate.{cert_text, prices_line, answer_lines, price_text};

use crate::certificate::{Cert, CertAnswer};
use jb_block::Memory;
use std::alloc::Global;

/// The text of a certificate: a line of prices, a line of the cut's bounds, and a line of its total, or `cut none`.
/// Each line ends with an LF.
///
/// # Errors
///
/// `Memory` where there is none for the text.
pub fn print_cert(alloc: Global, cert: &Cert) -> Result<String, Memory>
    ensures { IfOk result (λ text. string_bytes text ≡ cert_text cert.now) }
{
    let mut text = String::new(alloc);
    push_prices(&mut text, &cert.prices)?;
    push_answer(&mut text, &cert.answer)?;
    Ok(text)
}

/// Adds the line of the prices to the text.
fn push_prices(text: &mut String, prices: &[Option<u64>]) -> Result<(), Memory>
    ensures { OnOk result (string_bytes text.new ≡ string_bytes text.old ++ prices_line prices.now) }
{
    text.push_str("prices")?;
    for price in prices {
        push_price(text, *price)?;
    }
    text.push_str("\n")
}

/// Adds a space and a price to the text.
fn push_price(text: &mut String, price: Option<u64>) -> Result<(), Memory>
    ensures { OnOk result (string_bytes text.new ≡ string_bytes text.old ++ (32 ∷ price_text price)) }
{
    match price {
        Some(blocks) => write!(text, " {blocks}"),
        None => text.push_str(" none"),
    }
}

/// Adds the line of the cut to the text, and that of its total.
fn push_answer(text: &mut String, answer: &CertAnswer) -> Result<(), Memory>
    ensures { OnOk result (string_bytes text.new ≡ string_bytes text.old ++ answer_lines answer.now) }
{
    match answer {
        CertAnswer::Cut { bounds, total } => {
            push_bounds(text, bounds)?;
            write!(text, "\ntotal {total}\n")
        }
        CertAnswer::NoCut => text.push_str("cut none\n"),
    }
}

/// Adds the line of a cut to the text, without the LF at its end.
fn push_bounds(text: &mut String, bounds: &[usize]) -> Result<(), Memory>
    ensures { OnOk result (string_bytes text.new ≡ string_bytes text.old
        ++ (codes "cut" ++ spaced (map decimal bounds.now))) }
{
    text.push_str("cut")?;
    for bound in bounds {
        write!(text, " {bound}")?;
    }
    Ok(())
}
