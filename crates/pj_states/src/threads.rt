//! That a table of versions may be shared with and sent to other threads.

use crate::versions::Versions;

fn crosses_threads<T: Send + Sync>() {}

/// Nothing runs: that this is proved tells that the table may cross.
pub fn versions_cross_threads() {
    crosses_threads::<Versions>();
}
