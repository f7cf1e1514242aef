//! That rows of edges may be shared with and sent to other threads.

use crate::edges::EdgeRows;

fn crosses_threads<T: Send + Sync>() {}

/// Nothing runs: that this is proved tells that the table may cross.
pub fn edges_cross_threads() {
    crosses_threads::<EdgeRows>();
}
