//! That there is what the machine answers with: of each lawful list of changes a graph, a walk and a print, and after each legal
//! journal one answer to each command.
//!
//! Contract: the module `laws` alone. Of `inverse` it is said where the change does not list its own name among its needs: such
//! a change would have no inverse and no first hunk without one, and nothing of a hash says that there is none.
//! Cost: none; nothing runs.
//! Used by: what is said of the machine.
#![tactic(auto)]

pub mod laws;
