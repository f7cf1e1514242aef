//! A session over a store that was opened, and what it and its restoring leave of one repository.
//!
//! Contract: `keep_session` is a session in which each accepted request is in each image of the disk before its reply is given;
//! at each moment each image stores the list of before, and behind it a prefix of what was accepted. The definitions `HasKept`
//! and `HasLeftOff` say what the journal, the streams and the disk are once a repository was restored by one pass and spoken to
//! by a second one, or was not restored.
//! Cost: that of `pj_stored`.
//! Used by: no crate yet.
#![tactic(auto)]

mod session;
mod stop;

pub use session::keep_session;
pub use stop::Stop;
