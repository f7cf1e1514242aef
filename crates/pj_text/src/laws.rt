//! What holds of every text and every change.

ghost use Rattle.std.specs.Prelude.{◌≡◌, ℕ, List};
ghost use Rattle.pj_change.specs.declared.change.Change.{Change};
ghost use Rattle.pj_change.specs.Parts.{spelling};

/// A text spells at most one change. That a change has one spelling is clear from the type of `spelling`.
pub fn one_reading()
    ensures { (text : List ℕ) (a b : Change) → text ≡ spelling a → text ≡ spelling b → a ≡ b }
{}
