//! That a table of needs may be shared with and sent to other threads.

use crate::deps::Deps;

fn crosses_threads<T: Send + Sync>() {}

/// Nothing runs: that this is proved tells that the table may cross.
pub fn deps_cross_threads() {
    crosses_threads::<Deps>();
}
