//! Examples of what a verdict says of a certificate, for the three handles of the examples of cuts.
ghost use Rattle.std.specs.Prelude.{◌≡◌, ℕ, List, Option};
ghost use Rattle.std.proofs.Common.{Vec, Global};
ghost use Rattle.jb_plan.specs.Costs.{cost_in};
ghost use Rattle.jb_price.specs.Verdict.{Says};
ghost use Rattle.jb_price.specs.declared.certificate.CertAnswer.{CertAnswer};
ghost use Rattle.jb_price.specs.declared.certificate.CertAnswer.TheVariants.{Cut, NoCut};
ghost use Rattle.jb_price.specs.declared.verdict.Verdict.{Verdict};
ghost use Rattle.jb_price.specs.declared.verdict.Verdict.TheVariants.{Accepted};
ghost use Rattle.proof_clients.specs.Examples.{three, six, four, best, greedy, prices, high_prices};
ghost use Rattle.proof_clients.specs.Examples.{four_prices};

/// The certificate with the best cut, its total and the right prices is accepted, by no other verdict; so is that no
/// cut fits groups of four. Not accepted are: the greedy cut with its own total;
/// the best cut with a total of one block less, also with prices that have this at their end; prices that a group
/// undercuts, as the last is a block too high or none, whatever the answer; that no cut fits groups of six.
///
/// Of `PlannedIsAccepted`.
pub fn says()
    ensures meets { (bounds : Vec ℕ Global) → bounds.items ≡ best
        → Says (cost_in six three) 6 3 prices (Cut bounds 9) Accepted }
    ensures meets_none { Says (cost_in four three) 4 3 four_prices NoCut Accepted }
    ensures not_otherwise { (bounds : Vec ℕ Global) (verdict : Verdict) → bounds.items ≡ best
        → Says (cost_in six three) 6 3 prices (Cut bounds 9) verdict → verdict ≡ Accepted }
    ensures not_greedy { (bounds : Vec ℕ Global) → bounds.items ≡ greedy
        → Says (cost_in six three) 6 3 prices (Cut bounds 11) Accepted → ⊥ }
    ensures not_total { (bounds : Vec ℕ Global) (ps : List (Option ℕ)) → bounds.items ≡ best
        → Says (cost_in six three) 6 3 ps (Cut bounds 8) Accepted → ⊥ }
    ensures not_high { (answer : CertAnswer)
        → Says (cost_in six three) 6 3 high_prices answer Accepted → ⊥ }
    ensures not_undercut { (answer : CertAnswer)
        → Says (cost_in six three) 6 3 four_prices answer Accepted → ⊥ }
    ensures not_none { Says (cost_in six three) 6 3 prices NoCut Accepted → ⊥ }
{}
