//! The marked text of a layout and of its parts.

use crate::classes::Classes;
use crate::marker::Marker;
use crate::texts::Texts;
use pj_layout::Layout;
use pj_reach::Memory;

impl<'a, T: Texts> Classes<'a, T> {
    ghost use Rattle.std.specs.Prelude.{◌≡◌, [], length, map, All, OnOk};
    ghost use Rattle.pj_change.specs.MarkedText.{put_each, put_apart, put_group, put_shape};
    ghost use Rattle.pj_layout.specs.Shapes.{shape};
    ghost use Rattle.pj_marks.specs.Names.{NamesBelow};

    /// Layouts one after the other.
    #[cycle(put_layout)]
    fn put_series(&self, parts: &[Layout], marker: &mut Marker) -> Result<(), Memory>
        requires { All (λ part. NamesBelow (length self.now) (shape part)) parts.now }
        ensures { OnOk result (marker.new ≡ put_each (map (λ part. put_shape self.now (shape part)) parts.now) marker.old) }
    {
        for part in parts {
            self.put_layout(part, marker)?;
        }
        Ok(())
    }

    /// Layouts with the lines of the marker of this number between them.
    #[cycle(put_layout)]
    fn put_layouts_apart(
        &self,
        number: u64,
        parts: &[Layout],
        marker: &mut Marker,
    ) -> Result<(), Memory>
        requires { All (λ part. NamesBelow (length self.now) (shape part)) parts.now }
        ensures { OnOk result (marker.new ≡ put_apart number (map (λ part. put_shape self.now (shape part)) parts.now) marker.old) }
    {
        if let [first, others @ ..] = parts {
            self.put_layout(first, marker)?;
            for part in others {
                marker.separate(number)?;
                self.put_layout(part, marker)?;
            }
        }
        Ok(())
    }

    /// Layouts side by side.
    #[cycle(put_layout)]
    fn put_sides(&self, parts: &[Layout], marker: &mut Marker) -> Result<(), Memory>
        requires { All (λ part. NamesBelow (length self.now) (shape part)) parts.now }
        ensures { OnOk result (marker.new ≡ put_group [] (map (λ part. put_shape self.now (shape part)) parts.now) marker.old) }
    {
        let number = marker.start(b"")?;
        self.put_layouts_apart(number, parts, marker)?;
        marker.end(number)
    }

    /// A layout.
    #[cycle(put_layout)]
    pub fn put_layout(&self, layout: &Layout, marker: &mut Marker) -> Result<(), Memory>
        requires { NamesBelow (length self.now) (shape layout.now) }
        ensures { OnOk result (marker.new ≡ put_shape self.now (shape layout.now) marker.old) }
    {
        match layout {
            Layout::One(class) => self.put_class(*class, marker),
            Layout::Series(parts) => self.put_series(parts, marker),
            Layout::Sides(parts) => self.put_sides(parts, marker),
            Layout::Tangle(classes) => self.put_tangle(classes, marker),
        }
    }
}
