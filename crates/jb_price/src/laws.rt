//! Laws over the definitions alone. Their functions do nothing: the law is the contract.

ghost use Rattle.std.specs.Prelude.{◌≡◌, ◌↔◌, ◌+◌, ℕ, List, length, Ok, Err};
ghost use Rattle.jb_price.specs.declared.certificate.Cert.{Cert};
ghost use Rattle.jb_price.specs.Certificate.{cert_text};
ghost use Rattle.jb_price.specs.Claims.{Claim, read_of, claim_of};
ghost use Rattle.jb_price.specs.Grammar.{SpellsClaim};
ghost use Rattle.jb_price.specs.Faults.{FirstCertFault};
ghost use Rattle.jb_price.specs.declared.fault.CertFault.{CertFault};
ghost use Rattle.jb_price.specs.ReadBack.{HasText};
ghost use Rattle.jb_price.specs.Verdict.{PlannedIsAccepted};

/// The text of a certificate is read back as the same certificate, for one handle fewer than it has
/// prices. It has at least one price, and a cut that it claims has at least one bound.
#[tactic(auto, using(crate::proofs::ReadBack::read_back))]
pub fn read_back()
    /// The text of a certificate that has a price for each number of handles, as it is printed, is read back as the
    /// same claim.
    ensures { (cert : Cert) (handles : ℕ) → HasText cert → length cert.prices.items ≡ handles + 1
        → read_of handles (cert_text cert) ≡ Ok (claim_of cert) }
{}

/// A certificate's text is read to exactly the claim that it spells by the grammar: a line of prices, a line of
/// bounds and one of their total, or `cut none`; the last LF may be missing. Any other text has a fault.
pub fn spelled()
    ensures { (handles : ℕ) (text : List ℕ) (claim : Claim) → (read_of handles text ≡ Ok claim)
        ↔ SpellsClaim handles text claim }
{}

/// The fault of a certificate's text is its first one by the grammar: the lines before it are of the form. It is line 1
/// that is no line of prices; line 2 that is neither `cut none` nor a line of bounds; line 3 that is no total, or that
/// comes after `cut none`; a fourth line; or, of a text of the form, that there is not one price more than handles.
pub fn first_fault()
    /// The fault of a certificate's text is the first one by the grammar.
    ensures { (handles : ℕ) (text : List ℕ) (fault : CertFault) → (read_of handles text ≡ Err fault)
        ↔ FirstCertFault handles text fault }
{}

/// A least cut, or the answer that none fits, is accepted with prices that are least
/// totals: such a certificate has none of the six faults, so every certificate of a plan is accepted.
pub fn planned()
    /// The certificate of a plan is accepted.
    ensures { PlannedIsAccepted }
{}
