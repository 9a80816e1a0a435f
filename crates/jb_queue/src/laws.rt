//! Laws over the definitions alone. Their functions do nothing: the law is the contract.
ghost use Rattle.std.specs.Prelude.{◌≡◌, ◌↔◌, ℕ, List, Ok, Err};
ghost use Rattle.jb_queue.specs.Queue.{Queue, queue_of};
ghost use Rattle.jb_queue.specs.Grammar.{Spells};
ghost use Rattle.jb_queue.specs.Faults.{FirstFault};
ghost use Rattle.jb_queue.specs.declared.fault.QueueFault.{QueueFault};

/// A queue text is read to exactly the queue that it spells by the grammar: numbers are decimals without leading
/// zeros, bytes are hexadecimal digits, words follow single spaces, lines are separated by LF, and the last word
/// of a handle on a block counts. Any other text has a fault.
pub fn spelled()
    /// The definition gives a queue exactly where the text spells it by the grammar.
    ensures { (text : List ℕ) (queue : Queue) → (queue_of text ≡ Ok queue) ↔ Spells text queue }
{}

/// The fault of a queue text is its first one by the grammar: the lines before it are of the form, and so are the words
/// before it on its line. It is line 1 that gives no block size; line 2 that gives no limit; a further line that is
/// not `h` and does not begin with `h` and a space; a word that, up to its first `=`, names no home block; or a
/// word whose `=` is not followed by the hexadecimal text of a block's bytes.
pub fn first_fault()
    /// The fault of a text that is refused is the first one by the grammar, and the cause says what its line or word
    /// lacks.
    ensures { (text : List ℕ) (fault : QueueFault) → (queue_of text ≡ Err fault) ↔ FirstFault text fault }
{}
