//! Examples of cuts and prices: three handles, of which the second one shares no home with the first, and two with the
//! third.
ghost use Rattle.std.specs.Prelude.{◌≡◌, ℕ, List, [], ◌∷◌, length, Option};
ghost use Rattle.std.proofs.Common.{Vec, Global};
ghost use Rattle.jb_cost.specs.Cut.{ArePrices};
ghost use Rattle.jb_plan.specs.Batch.{gathered};
ghost use Rattle.jb_plan.specs.Costs.{HasCut, cost_in};
ghost use Rattle.jb_plan.specs.Prepare.{IsPlanned, planned};
ghost use Rattle.jb_plan.specs.NoCut.{IsRefused};
ghost use Rattle.jb_plan.specs.declared.prepared.PrepareFault.TheVariants as fault;
ghost use Rattle.jb_book.specs.Account.{Account, CanTake, taken_all};
ghost use Rattle.jb_book.specs.Calls.{Does, Took};
ghost use Rattle.jb_price.specs.Verdict.{IsRight};
ghost use Rattle.jb_price.specs.declared.certificate.CertAnswer.TheVariants.{Cut, NoCut};
ghost use Rattle.proof_clients.specs.Examples.{three, six, four, batch, best, greedy, prices, low_prices, high_prices};
ghost use Rattle.proof_clients.specs.Examples.{four_prices, late_prices, short_prices, first_two};

/// The handles have a cut into groups of six log blocks at most, and none into groups of four: the third one alone
/// takes five. A book takes them where they are its queue, all at once, and not without the last one.
pub fn has_cut()
    ensures meets { HasCut six three }
    ensures not_within_four { HasCut four three → ⊥ }
    ensures meets_whole { (old : Account) → CanTake old → old.shadow.queue ≡ three → old.shape ≡ six
        → Does (Took (gathered old.shadow.taken three six) best) [] old (taken_all old) }
    ensures not_without_last { (old new : Account) (cut : List ℕ) → old.shadow.queue ≡ three
        → Does (Took (gathered old.shadow.taken first_two old.shape) cut) [] old new → ⊥ }
{}

/// Of groups of at most six log blocks, the first handle alone and the other two take the fewest. Not planned are: a
/// cut that takes as many handles as fit, the first two, and more blocks; a total of one block less; a group over the
/// limit; a cut without the last handle; prices the last of which is one block less.
pub fn is_planned()
    ensures meets { IsPlanned (planned (batch six) best 9 prices) }
    ensures not_greedy { IsPlanned (planned (batch six) greedy 11 prices) → ⊥ }
    ensures not_total { IsPlanned (planned (batch six) best 8 prices) → ⊥ }
    ensures not_over { IsPlanned (planned (batch six) (0 ∷ 3 ∷ []) 7 prices) → ⊥ }
    ensures not_all { IsPlanned (planned (batch six) (0 ∷ 2 ∷ []) 6 prices) → ⊥ }
    ensures not_priced { IsPlanned (planned (batch six) best 9 low_prices) → ⊥ }
{}

/// The handles are refused with groups of at most four log blocks, where the first two have prices and all three have
/// none. Not refused is what has a cut, whatever the prices; nor are prices right that have a number for all three.
pub fn is_refused()
    ensures meets { (ps : Vec (Option ℕ) Global) → ps.items ≡ four_prices → IsRefused (batch four) (fault.NoCut ps) }
    ensures not_with_a_cut { (ps : Vec (Option ℕ) Global) → IsRefused (batch six) (fault.NoCut ps) → ⊥ }
    ensures not_priced { (ps : Vec (Option ℕ) Global) → ps.items ≡ late_prices
        → IsRefused (batch four) (fault.NoCut ps) → ⊥ }
{}

/// Prices are the least totals of the first handles. They are not with a last one that is a block less or a block more,
/// with none at the end where a cut fits, or with one price less.
pub fn are_prices()
    ensures meets { ArePrices (cost_in six three) 6 3 prices }
    ensures not_less { ArePrices (cost_in six three) 6 3 low_prices → ⊥ }
    ensures not_more { ArePrices (cost_in six three) 6 3 high_prices → ⊥ }
    ensures not_none { ArePrices (cost_in six three) 6 3 four_prices → ⊥ }
    ensures not_fewer { ArePrices (cost_in six three) 6 3 short_prices → ⊥ }
{}

/// The answer of a certificate is right that claims the cut with the fewest blocks and its total; so is that no cut
/// fits groups of at most four blocks. Not right are: the greedy cut with its own total; the best cut with a total of
/// one block less; a group over the limit; that no cut fits groups of six; and any cut into groups of four.
pub fn is_right()
    ensures meets { (bounds : Vec ℕ Global) → bounds.items ≡ best → IsRight (cost_in six three) 6 3 (Cut bounds 9) }
    ensures meets_none { IsRight (cost_in four three) 4 3 NoCut }
    ensures not_greedy { (bounds : Vec ℕ Global) → bounds.items ≡ greedy
        → IsRight (cost_in six three) 6 3 (Cut bounds 11) → ⊥ }
    ensures not_total { (bounds : Vec ℕ Global) → bounds.items ≡ best
        → IsRight (cost_in six three) 6 3 (Cut bounds 8) → ⊥ }
    ensures not_over { (bounds : Vec ℕ Global) → bounds.items ≡ (0 ∷ 3 ∷ [])
        → IsRight (cost_in six three) 6 3 (Cut bounds 7) → ⊥ }
    ensures not_none { IsRight (cost_in six three) 6 3 NoCut → ⊥ }
    ensures not_four { (bounds : Vec ℕ Global) (total : ℕ) → IsRight (cost_in four three) 4 3 (Cut bounds total) → ⊥ }
{}
