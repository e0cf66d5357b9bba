//! The laws of looks.
ghost use Rattle.std.specs.Prelude.{◌≡◌, ℕ, ◌≤◌, List, ◌++◌, Some};
ghost use Rattle.std.specs.List.{All, AllPairs};
ghost use Rattle.hb_look.specs.Looks.{Found, LookMade, IsRun, after, reach};
ghost use Rattle.hb_look.specs.Stands.{LooksStandFor};
ghost use Rattle.hb_look.specs.Reader.{Reader, IsLater, HasCause, IsInOrder, ReaderStandsFor, IsFresh};
ghost use Rattle.hb_look.specs.Answers.{with_look, IsFoundAt};

/// What stands for a log stands for each log that it begins.
pub fn stands_for_more()
    ensures looks { (log more : List (List ℕ)) (looks : List LookMade)
        → LooksStandFor log looks → LooksStandFor (log ++ more) looks }
    ensures reader { (log more : List (List ℕ)) (reader : Reader)
        → ReaderStandsFor log reader → ReaderStandsFor (log ++ more) reader }
    ensures fresh { (log : List (List ℕ)) (reader : Reader) → IsFresh reader
        → ReaderStandsFor log reader }
{}

/// No look goes back. A look that has its cause goes on from each look before it, whatever the
/// reader; and a run of looks that stand for a log never comes to a place before one where it was.
pub fn no_look_goes_back()
    ensures in_order { (position moment : ℕ) (old new : Reader) (found : Found)
        → IsInOrder old → IsLater old new → HasCause old.capacity position old new found
        → new.looks ≡ with_look old.looks old.capacity position moment (Some found)
        → IsInOrder new }
    ensures run { (log : List (List ℕ)) (start : ℕ) (looks : List LookMade)
        → IsRun start looks → LooksStandFor log looks
        → AllPairs (λ earlier later. after earlier ≤ later.position) looks }
    ensures reach { (log : List (List ℕ)) (start : ℕ) (looks : List LookMade)
        → IsRun start looks → LooksStandFor log looks
        → All (λ look. (start ≤ look.position) × (after look ≤ reach start looks)) looks }
{}

/// At each position of a ring there is one thing to find.
pub fn one_finding()
    ensures each { (log : List (List ℕ)) (cap position : ℕ)
        → (found : Found) × IsFoundAt log cap position found }
    ensures one { (log : List (List ℕ)) (cap position : ℕ) (a b : Found)
        → IsFoundAt log cap position a → IsFoundAt log cap position b → a ≡ b }
{}
