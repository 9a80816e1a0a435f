//! Examples of what is said of the calls of a book.
ghost use Rattle.std.specs.Prelude.{◌≡◌, ◌≤◌, false, [], ◌∷◌};
ghost use Rattle.std.proofs.Common.{Vec, Global};
ghost use Rattle.jb_deck.specs.declared.done.Entry.{Entry};
ghost use Rattle.jb_book.specs.Account.{Account, IsNewBook};
ghost use Rattle.jb_book.specs.Calls.{KeepsWhole};
ghost use Rattle.jb_book.specs.CallsToBook.{IsLed};
ghost use Rattle.proof_clients.specs.Examples.{six, wrote};
ghost use Rattle.proof_clients.specs.ExampleMarks.{first, entry};
ghost use Rattle.proof_clients.specs.ExampleCalls.{HasCounted, two_handled, stopped_two, settled_one};

/// Of two handles that were taken as two groups, of which the first is settled, each is whole and once in the settled
/// group or in the one that is out.
/// Not so where the queue has the second one as well, where two handles stopped and the queue has the first alone or
/// both in the other order, where both got the ticket 1, or where the trail has both handles in its one entry, or an
/// entry more.
///
/// Of `EveryRun`.
pub fn keeps_whole()
    ensures meets { (a : Account) → HasCounted [] (entry 7 0 1 ∷ []) a → KeepsWhole six settled_one a }
    ensures meets_queued { (a : Account) → HasCounted two_handled [] a → KeepsWhole six (stopped_two 0) a }
    ensures not_twice { (a : Account) → HasCounted (wrote [] 1 (2 ∷ []) ∷ []) (entry 7 0 1 ∷ []) a
        → KeepsWhole six settled_one a → ⊥ }
    ensures not_lost { (a : Account) → HasCounted (wrote [] 0 (1 ∷ []) ∷ []) [] a
        → KeepsWhole six (stopped_two 0) a → ⊥ }
    ensures not_order { (a : Account) → HasCounted (wrote [] 1 (2 ∷ []) ∷ wrote [] 0 (1 ∷ []) ∷ []) [] a
        → KeepsWhole six (stopped_two 0) a → ⊥ }
    ensures not_ticket { (a : Account) → KeepsWhole six (stopped_two 1) a → ⊥ }
    ensures not_both { (a : Account) → HasCounted [] (entry 7 0 2 ∷ []) a → KeepsWhole six settled_one a → ⊥ }
    ensures not_another { (a : Account) → HasCounted [] (entry 7 0 1 ∷ entry 8 1 2 ∷ []) a
        → KeepsWhole six settled_one a → ⊥ }
{}

/// No call has led to a new book, whose history has no handle. No calls lead to a book that has given two tickets and
/// whose history has one handle.
///
/// Of `IsLed`.
pub fn is_led()
    ensures meets { (a : Account) → IsNewBook six 9 a → IsLed [] a }
    ensures not_counted { (any : Vec Entry Global) (a : Account) → a.usable ≤ 2147483646 → a.aborted ≡ false
        → a.shadow.next ≡ 2 → IsLed (first ∷ []) a → ⊥ }
{}
