//! The classes of a file as marked text: single vertices, cycles and tangles.

use crate::marker::Marker;
use crate::members::members;
use crate::texts::Texts;
use pj_reach::{Memory, Reached};
use std::alloc::Global;
use std::marker::Model;

/// The classes of a file, with the text of their vertices. Contracts see their list.
#[derive(Drop)]
pub struct Classes<'a, T: Texts> {
    reached: &'a Reached,
    texts: &'a T,
    /// The vertices of each class, by rising number.
    members: Vec<Vec<u32>>,
}

impl<'a, T: Texts> Model for Classes<'a, T> {
    ghost use Rattle.std.specs.Prelude.{List, map, ◌≤◌};
    ghost use Rattle.pj_change.specs.MarkedText.{Class};
    ghost use Rattle.pj_reach.specs.Closure.{size as size_of};
    ghost use Rattle.pj_marks.specs.Classes.{classes_of};
    ghost use Rattle.pj_marks.specs.Grouped.{IsGrouped};

    ghost Value = { List Class };

    ghost view = { λ c. classes_of (T.piece c.texts.now) c.reached.now };

    ghost invariant = { λ c. (size_of c.reached.now ≤ T.size c.texts.now) × IsGrouped c.reached.now (size_of c.reached.now) (map (λ class. class.items) c.members.items) };
}

impl<'a, T: Texts> Classes<'a, T> {
    ghost use Rattle.std.specs.Prelude.{◌≡◌, ◌<◌, ◌≤◌, codes, length, map, All, IfOk, OnOk};
    ghost use Rattle.pj_change.specs.MarkedText.{class_at, put_class, put_apart, put_group};
    ghost use Rattle.pj_reach.specs.Closure.{size};
    ghost use Rattle.pj_marks.specs.Classes.{classes_of};

    /// The classes that were reached, where these are the texts of their vertices.
    pub fn new(alloc: Global, reached: &'a Reached, texts: &'a T) -> Result<Classes<'a, T>, Memory>
        requires { size reached.now ≤ T.size texts.now }
        ensures { IfOk result (λ classes. classes ≡ classes_of (T.piece texts.now) reached.now) }
    {
        let members = members(alloc, reached)?;
        Ok(Classes {
            reached,
            texts,
            members,
        })
    }

    /// A class: its one vertex, or a cycle of its vertices.
    pub fn put_class(&self, class: u32, marker: &mut Marker) -> Result<(), Memory>
        requires { class < length self.now }
        ensures { OnOk result (marker.new ≡ put_class (class_at self.now class) marker.old) }
    {
        let members = self.members[class as usize].as_slice();
        marker.put_class(self.texts, members, self.reached.cyclic(class))
    }

    /// Classes with the lines of the marker of this number between them.
    fn put_classes_apart(
        &self,
        number: u64,
        classes: &[u32],
        marker: &mut Marker,
    ) -> Result<(), Memory>
        requires { All (λ x. x < length self.now) classes.now }
        ensures { OnOk result (marker.new ≡ put_apart number (map (λ x. put_class (class_at self.now x)) classes.now) marker.old) }
    {
        if let [first, others @ ..] = classes {
            self.put_class(*first, marker)?;
            for &class in others {
                marker.separate(number)?;
                self.put_class(class, marker)?;
            }
        }
        Ok(())
    }

    /// The classes of a tangle.
    pub fn put_tangle(&self, classes: &[u32], marker: &mut Marker) -> Result<(), Memory>
        requires { All (λ x. x < length self.now) classes.now }
        ensures { OnOk result (marker.new ≡ put_group (codes " tangle") (map (λ x. put_class (class_at self.now x)) classes.now) marker.old) }
    {
        let number = marker.start(b" tangle")?;
        self.put_classes_apart(number, classes, marker)?;
        marker.end(number)
    }
}
