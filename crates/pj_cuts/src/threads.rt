//! That a table of cuts may be shared with and sent to other threads.

use crate::cuts::Cuts;

fn crosses_threads<T: Send + Sync>() {}

/// Nothing runs: that this is proved tells that the table may cross.
pub fn cuts_cross_threads() {
    crosses_threads::<Cuts>();
}
