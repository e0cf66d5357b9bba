//! The law of selectors' texts.

ghost use Rattle.std.specs.Prelude.{◌≡◌, ℕ, List};
ghost use Rattle.hb_labels.specs.declared.operator.Requirement.{Requirement};
ghost use Rattle.hb_labels.specs.Selectors.{SpellsSelector};

/// A text spells one selector at most.
pub fn one_selector()
    ensures one { (text : List ℕ) (a b : List Requirement) → SpellsSelector text a
        → SpellsSelector text b → a ≡ b }
{}
