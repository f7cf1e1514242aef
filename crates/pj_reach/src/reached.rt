//! What the closure of a graph gives, and what may be asked of it.

use pj_bits::BitMatrix;
use std::marker::Model;

/// The strong classes of a graph, and the strict order between different classes.
#[derive(Drop)]
pub struct Reached {
    size: u32,
    classes: u32,
    class_of: Vec<u32>,
    cyclic: Vec<bool>,
    before: BitMatrix,
}

impl Model for Reached {
    ghost use Rattle.pj_reach.specs.Closure.{Closure};

    ghost Value = { Closure };

    ghost view = { λ r. record { class_of = r.class_of.items; cyclic = r.cyclic.items; before = r.before } };

    ghost use Rattle.pj_reach.specs.Kept.{IsKept};

    ghost invariant = { λ r. IsKept r.size r.classes r.class_of.items r.cyclic.items r.before };
}

impl Reached {
    ghost use Rattle.std.specs.Prelude.{◌≡◌, ◌<◌};
    ghost use Rattle.pj_bits.specs.Matrix.{size as size_of};
    ghost use Rattle.pj_reach.specs.Kept.{IsKept};
    ghost use Rattle.pj_reach.specs.Closure.{classes as classes_in, class_at, is_cyclic, size as size_in};

    /// The parts put together.
    pub(crate) fn of(
        size: u32,
        classes: u32,
        class_of: Vec<u32>,
        cyclic: Vec<bool>,
        before: BitMatrix,
    ) -> Reached
        requires { IsKept size classes class_of.items cyclic.items before }
        ensures { result ≡ record { class_of = class_of.items; cyclic = cyclic.items; before = before } }
    {
        Reached {
            size,
            classes,
            class_of,
            cyclic,
            before,
        }
    }

    /// How many numbers there are.
    pub fn size(&self) -> u32
        ensures { result ≡ size_in self.now }
    {
        self.size
    }

    /// How many classes there are.
    pub fn classes(&self) -> u32
        ensures { result ≡ classes_in self.now }
    {
        self.classes
    }

    /// The class of a number.
    pub fn class_of(&self, at: u32) -> u32
        requires { at < size_in self.now }
        ensures class { result ≡ class_at self.now at }
        ensures below { result < classes_in self.now }
    {
        self.class_of[at as usize]
    }

    /// Whether a class has two members or more, or one that reaches itself.
    pub fn cyclic(&self, class: u32) -> bool
        requires { class < classes_in self.now }
        ensures { result ≡ is_cyclic self.now class }
    {
        self.cyclic[class as usize]
    }

    /// The order: the bit in row `a` and column `b` says whether the class `a` is before the class `b`.
    pub fn before(&self) -> &BitMatrix
        ensures rows { result.now ≡ self.now.before }
        ensures size { size_of result.now ≡ classes_in self.now }
    {
        &self.before
    }
}
