//! The words of a handle of the queue are put into a handle of the journal.
ghost use Rattle.std.specs.Prelude.{◌≡◌, IfErr, OnOk};
ghost use Rattle.std.specs.FinMap as map;
ghost use Rattle.jb_handle.specs.Handle.{holder, changes_of};
ghost use Rattle.jb_tool.specs.Faults.{not_touched};
ghost use Rattle.jb_tool.specs.RefusedHandle.{IsRefusedFor};

use jb_handle::{Handle, TouchFault, Words};

/// Puts these words into a handle, by rising home. Nothing is said of a handle that had some.
///
/// # Errors
/// Why a word was refused; those before it are put.
pub(crate) fn put_words<S>(handle: &mut Handle<S>, words: &Words) -> Result<(), TouchFault>
    ensures seat { holder handle.new ≡ holder handle.old }
    ensures ok { (changes_of handle.old).words ≡ map.empty → OnOk result ((changes_of handle.new).words ≡ words.now) }
    ensures refused { (changes_of handle.old).words ≡ map.empty
        → IfErr result (λ fault. IsRefusedFor (changes_of handle.old).shape words.now (not_touched fault)) }
{
    for (home, word) in words.entries() {
        handle.put(*home, word)?;
    }
    Ok(())
}
