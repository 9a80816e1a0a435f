//! Laws over the definitions alone. Their functions do nothing: the law is the contract.
ghost use Rattle.std.specs.Prelude.{◌≡◌, ℕ, List};
ghost use Rattle.std.specs.FinMap as map;
ghost use Rattle.jb_handle.specs.LastOp.{last_word, words_by};
ghost use Rattle.jb_handle.specs.declared.op.Op.{Op as OpValue};

/// The words after any list of changes hold, at each home block, what its last change left: a write
/// cancels an earlier revoke, and a revoke drops an earlier copy.
#[tactic(auto, using(crate::proofs::LastOp::word_by_last))]
pub fn last_change_counts()
    /// After any list of changes each block has the word of the last change on it.
    ensures { (ops : List OpValue) (home : ℕ) → map.get (words_by ops) home ≡ last_word ops home }
{}
