//! Examples of what threads see of one another and of the journal: the order of stops, and what a wait shows.
ghost use Rattle.std.specs.Prelude.{◌≡◌, ℕ, List, [], ◌∷◌};
ghost use Rattle.jb_disk.specs.Image.{Image};
ghost use Rattle.jb_deck.specs.Deck.{OpenDeck};
ghost use Rattle.jb_book.specs.Marks.{SeesStop, Shows};
ghost use Rattle.jb_book.specs.SinceMark.{IsGiven};
ghost use Rattle.proof_clients.specs.Examples.{wrote_from};
ghost use Rattle.proof_clients.specs.ExampleMarks.{first, second, third, one_each};
ghost use Rattle.proof_clients.specs.ExampleMarks.{one_entry, two_entries, with_entries};

/// Two handles had been seen to stop, and a third one stops: its ticket is 2, and the history goes on with its words.
/// Not so with a ticket of one that was seen, with a history that has lost one of these, with a ticket at which nothing
/// is, or with the words of another handle.
pub fn sees_stop()
    ensures meets { SeesStop (first ∷ second ∷ []) (first ∷ second ∷ third ∷ []) 2 third }
    ensures not_lower { SeesStop (first ∷ second ∷ []) (first ∷ second ∷ third ∷ []) 1 second → ⊥ }
    ensures not_lost { SeesStop (first ∷ second ∷ []) (first ∷ third ∷ third ∷ []) 2 third → ⊥ }
    ensures not_elsewhere { SeesStop (first ∷ second ∷ []) (first ∷ second ∷ third ∷ []) 3 third → ⊥ }
    ensures not_other_words { SeesStop (first ∷ second ∷ []) (first ∷ second ∷ third ∷ []) 2 first → ⊥ }
{}

/// A mark whose trail has the handle 0 in the transaction 7 and the handles 1 and 2 in the transaction 8 shows these
/// numbers. It shows no other number of a handle, and none of the handle 3; without a mark nothing is shown.
pub fn shows()
    ensures meets_first { (m : OpenDeck Image) → Shows (with_entries two_entries m ∷ []) 0 7 }
    ensures meets { (m : OpenDeck Image) → Shows (with_entries two_entries m ∷ []) 2 8 }
    ensures not_number { (m : OpenDeck Image) → Shows (with_entries two_entries m ∷ []) 2 7 → ⊥ }
    ensures not_settled { (m : OpenDeck Image) (number : ℕ) → Shows (with_entries two_entries m ∷ []) 3 number → ⊥ }
    ensures not_unseen { (marks : List (OpenDeck Image)) (ticket number : ℕ) → marks ≡ []
        → Shows marks ticket number → ⊥ }
{}

/// A journal was given the handle 1, with its words, where it was given three and has settled those of both entries.
/// It was not given it with the words of another one, nor as a settled one where only the first entry is settled, nor
/// where it was given the first handle alone.
pub fn is_given()
    ensures meets { (d : OpenDeck Image) → IsGiven one_each (with_entries two_entries d) 1 second }
    ensures not_other_words { (d : OpenDeck Image) → IsGiven one_each (with_entries two_entries d) 1 third → ⊥ }
    ensures not_settled { (d : OpenDeck Image) → IsGiven one_each (with_entries one_entry d) 1 second → ⊥ }
    ensures not_given { (d : OpenDeck Image)
        → IsGiven (wrote_from [] 0 ((1 ∷ []) ∷ [])) (with_entries two_entries d) 1 second → ⊥ }
{}
