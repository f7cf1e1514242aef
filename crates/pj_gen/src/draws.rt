//! The numbers that are drawn: those of a linear congruential generator.
ghost use Rattle.std.specs.Prelude.{◌≡◌, ◌<◌, ◌≤◌};
ghost use Rattle.pj_gen.specs.Draws.{drawn, pick, draws_from};

/// The factor of the generator.
const FACTOR: u64 = 6_364_136_223_846_793_005;

/// What the generator adds.
const ADDEND: u64 = 1_442_695_040_888_963_407;

/// What is drawn for a change.
#[derive(Clone, Copy)]
pub(crate) struct Draws {
    /// The number of a file, below 8.
    pub(crate) file: u8,
    /// A place in it, below 64.
    pub(crate) place: u8,
    /// What the change does, below 4.
    pub(crate) kind: u8,
}

/// Draws a number below `count`.
#[tactic(auto, using(crate::proofs::OneDraw::one_draw))]
fn draw(number: &mut u64, count: u64) -> u8
    requires some { 0 < count }
    requires few { count ≤ 256 }
    ensures number { number.new ≡ drawn number.old }
    ensures drawn { result ≡ pick count (drawn number.old) }
{
    *number = FACTOR.wrapping_mul(*number).wrapping_add(ADDEND);
    ((*number >> 33) % count) as u8
}

/// Draws what a change does: its file, its place and its kind, in this order.
pub(crate) fn draw_change(number: &mut u64) -> Draws
    ensures number { number.new ≡ drawn (drawn (drawn number.old)) }
    ensures draws { result ≡ draws_from number.old }
{
    let file = draw(number, 8);
    let place = draw(number, 64);
    let kind = draw(number, 4);
    Draws { file, place, kind }
}
