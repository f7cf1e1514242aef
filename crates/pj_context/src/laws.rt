//! What a list of changes gives for the check of a change that would follow it.

ghost use Rattle.std.specs.Prelude.{◌≡◌, ◌↔◌, false, IsTrue, List, None};
ghost use Rattle.std.specs.List.{list_all};
ghost use Rattle.pj_change.specs.declared.change.Record.{Record};
ghost use Rattle.pj_change.specs.Context.{first_broken};
ghost use Rattle.pj_change.specs.Lawful.{Follows, is_held, needs_of};
ghost use Rattle.pj_context.specs.Needs.{AreNeeds};

/// A list that holds the needs of a change has the records that `check` asks for.
pub fn needs_are_found()
    ensures { (list : List Record) (c : Record) → IsTrue (list_all (is_held list) c.change.needs) → AreNeeds c (needs_of list c) }
{}

/// A change that a list lacks, and whose needs it holds, may follow it exactly where no hunk's context is broken.
pub fn unbroken_follows()
    ensures { (list : List Record) (c : Record) → is_held list c.name ≡ false → IsTrue (list_all (is_held list) c.change.needs)
        → (first_broken c (needs_of list c) ≡ None) ↔ Follows list c }
{}
