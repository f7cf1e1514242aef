//! That the changes of a large run may follow one another.
//!
//! Contract: the module `laws` alone: a change of a large run may follow whatever list holds its needs and not itself, where in
//! the list the name of a change of the run is that of no other change.
//! Cost: none; nothing runs.
//! Used by: what is said of large runs.
#![tactic(auto)]

pub mod laws;
