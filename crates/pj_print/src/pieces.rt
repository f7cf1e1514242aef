//! The bytes of a vertex.

ghost use Rattle.std.specs.Prelude.{◌≡◌, slice_range};
ghost use Rattle.pj_change.specs.FileText as file;

use pj_change::{Change, Hunk, Kind, Vertex, kind_at};

/// The bytes from the one position up to the other, as far as there are any.
fn part_of(bytes: &[u8], from: usize, upto: usize) -> &[u8]
    ensures { result.now ≡ slice_range bytes.now from upto }
{
    let upto = upto.min(bytes.len());
    let from = from.min(upto);
    &bytes[from..upto]
}

/// The bytes of a vertex of the change: those of its part of a block, and none where no text begins there.
pub fn bytes_of<'a>(owner: &'a Change, v: &Vertex) -> &'a [u8]
    ensures { result.now ≡ file.bytes_of owner.now.hunks v.now }
{
    let Some(Kind::Text { hunk, start, .. }) = kind_at(owner, v.start) else {
        return &[];
    };
    match owner.hunks.items().get(hunk as usize) {
        Some(Hunk::Insert { bytes, .. }) => {
            let (from, upto) = (v.start.saturating_sub(start), v.end.saturating_sub(start));
            part_of(bytes.items(), from as usize, upto as usize)
        }
        _ => &[],
    }
}
