//! What is timed: putting pairs into maps, looking them up and taking them out.

ghost use Rattle.std.specs.Prelude.{◌≡◌};

use crate::map::key::{Key, Number, key_of};
use pj_pmap::{Memory, PMap, Steps};
use std::alloc::Global;
use std::sync::ledger::Ledger;

/// A map from keys to numbers.
pub type Map = PMap<Key, Number>;

/// As many maps as asked, each with the keys of the numbers from 0 up to `pairs`.
pub fn build<L: Ledger>(
    alloc: Global,
    count: u32,
    pairs: u64,
    steps: &mut Steps<L>,
) -> Result<Vec<Map>, Memory> {
    let mut maps = Vec::new(alloc);
    for _ in 0..count {
        let mut map = PMap::empty();
        for number in 0..pairs {
            map = map.with(alloc, key_of(number), Number { number }, steps)?;
        }
        maps.push(map)?;
    }
    Ok(maps)
}

/// How many keys of the numbers from `start` up to `end` the maps have.
pub fn look_up(maps: &[Map], start: u64, end: u64) -> u64 {
    let mut found = 0u64;
    for map in maps {
        for number in start..end {
            if let Some(kept) = map.get(&key_of(number)) {
                found = found.wrapping_add(u64::from(kept.number == number));
            }
        }
    }
    found
}

/// Puts the keys of the numbers from `start` up to `end` into each map.
pub fn put<L: Ledger>(
    alloc: Global,
    maps: &mut [Map],
    start: u64,
    end: u64,
    steps: &mut Steps<L>,
) -> Result<(), Memory> {
    for map in maps {
        for number in start..end {
            *map = map.with(alloc, key_of(number), Number { number }, steps)?;
        }
    }
    Ok(())
}

/// Takes them out again.
pub fn take_out<L: Ledger>(
    alloc: Global,
    maps: &mut [Map],
    start: u64,
    end: u64,
    steps: &mut Steps<L>,
) -> Result<(), Memory> {
    for map in maps {
        for number in start..end {
            *map = map.without(alloc, &key_of(number), steps)?;
        }
    }
    Ok(())
}
