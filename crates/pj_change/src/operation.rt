//! What can be done to a channel: apply a change, pull from another channel, or take changes out.

use crate::change::Record;
use pj_name::Name;
use std::sync::Arc;

/// An operation on a channel.
#[derive(Drop)]
pub enum Operation<C> {
    /// The change is applied.
    Apply(Arc<Record>),
    /// What it lacks of the other channel is added.
    Pull(C),
    /// The change of this name is taken out.
    Unrecord(Name),
    /// The change of this name is taken out with all that reach it by needs.
    Uproot(Name),
}
