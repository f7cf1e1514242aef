//! Types whose values are moved to and shared with other threads.

use crate::calls::maps::{Place, Row};
use pj_change::{Graph, Record, Walk};
use pj_pmap::PMap;

fn crosses_threads<T: Send + Sync>() {}

/// Nothing runs: that this is proved tells that each of them may cross.
pub fn cross_threads() {
    crosses_threads::<Record>();
    crosses_threads::<Graph>();
    crosses_threads::<Walk>();
    crosses_threads::<PMap<Place, Row>>();
}
