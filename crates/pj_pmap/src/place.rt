//! Where a part of a map stands that is taken out to be changed, and is put back then.

ghost use Rattle.std.specs.Prelude.{◌≡◌, Some, IfOk};
ghost use Rattle.std.specs.Arc.{arc_value};

use pj_memory::Memory;
use std::alloc::Global;
use std::sync::Arc;

/// The memory in which a part stood that was taken out, if no other map has it.
#[derive(Drop)]
pub struct Place<N: Drop> {
    free: Option<Arc<Option<N>>>,
}

impl<N: Drop> Place<N> {
    /// No place: what is put there gets memory of its own.
    pub fn none() -> Place<N> {
        Place { free: None }
    }

    /// This place.
    pub fn of(free: Arc<Option<N>>) -> Place<N> {
        Place { free: Some(free) }
    }
}

/// A part for one owner, and the place for it.
#[derive(Drop)]
pub struct Taken<N: Drop> {
    pub node: N,
    pub place: Place<N>,
}

/// The part, put into its place if that is there, and else into memory of its own.
pub fn placed<N: Drop>(alloc: Global, place: Place<N>, node: N) -> Result<Arc<Option<N>>, Memory>
    ensures { IfOk result (λ arc. arc_value arc ≡ Some node) }
{
    let Some(mut free) = place.free else {
        return Ok(Arc::new(alloc, Some(node))?);
    };
    let Some(held) = Arc::get_mut(&mut free) else {
        return Ok(Arc::new(alloc, Some(node))?);
    };
    *held = Some(node);
    Ok(free)
}
