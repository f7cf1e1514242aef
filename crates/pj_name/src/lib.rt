//! Names of changes: a change is named by the SHA-256 digest of its text.
//!
//! Contract: `name_of` is that digest; `Name::read` gives a name exactly for 64 lower-case hex digits, and `hex` writes them.
//! Names are ordered by the first byte that differs.
//! Cost: the digest takes time linear in the text, the others a fixed time; none takes memory. Two names are compared as numbers of
//! eight bytes, and byte by byte where these are equal.
//! Used by: `pj_change`, all libraries above that but `pj_layout`, `pj_marks` and `pj_session`, and most programs above it.

#![tactic(auto)]

mod digest;
mod digits;
mod name;
mod order;

pub use digest::name_of;
pub use name::Name;

#[cfg(test)]
mod tests;
