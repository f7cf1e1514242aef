//! Pairs of a leaf that stand together, and which of them come next after a key.

ghost use Rattle.std.specs.Prelude.{◌≡◌, ◌<◌, false, length, map, None, Some, MatchOption};
ghost use Rattle.pj_pmap.specs.Pairs.{shown_pair, IsRising, first_of, rest_after, starts_above};

use crate::leaf::place;
use crate::share::Share;

/// The first pair, if there is one.
pub fn first_pair<K: Ord + Share, V: Share>(run: &[(K, V)]) -> Option<(&K, &V)>
    ensures { MatchOption result (first_of (map (shown_pair V.shown) run.now) ≡ None) (λ p. first_of (map (shown_pair V.shown) run.now) ≡ Some (p.0.now, V.shown p.1.now)) }
{
    if run.is_empty() {
        return None;
    }
    let pair = &run[0];
    Some((&pair.0, &pair.1))
}

/// The pairs of the run whose keys are above this one, where the first is not; else none. The key is mostly that of the first.
pub fn run_above<'a, K: Ord + Share, V: Share>(run: &'a [(K, V)], key: &K) -> &'a [(K, V)]
    requires { IsRising K.cmp (map (shown_pair V.shown) run.now) }
    ensures within { 0 < length result.now → starts_above K.cmp key.now (map (shown_pair V.shown) run.now) ≡ false }
    ensures rest { 0 < length result.now → rest_after K.cmp key.now (map (shown_pair V.shown) run.now) ≡ map (shown_pair V.shown) result.now }
{
    if run.len() < 2 || key.cmp(&run[0].0).is_lt() {
        return &[];
    }
    if key.cmp(&run[1].0).is_lt() {
        return &run[1..];
    }
    let place = place(run, key);
    &run[place.end..]
}
