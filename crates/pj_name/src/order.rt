//! The order of names.
ghost use Rattle.std.specs.Prelude.{◌≡◌, refl};
ghost use Rattle.std.specs.Ordering.{as_partial_cmp};
ghost use Rattle.pj_name.specs.Name.{name_cmp};
ghost use Rattle.pj_name.specs.Order.{head_of, name_cmp-total, name_partial_order, same_names_tie};

use crate::name::Name;
use std::cmp::Ordering;

/// The first eight bytes of a name as a number, the first byte the greatest.
fn head(name: &Name) -> u64
    ensures { result ≡ head_of name.now }
{
    let b = &name.bytes;
    u64::from_be_bytes([b[0], b[1], b[2], b[3], b[4], b[5], b[6], b[7]])
}

impl Ord for Name {
    ghost cmp = { name_cmp };

    ghost total = { name_cmp-total };

    ghost matches_partial_cmp = { λ x y. refl };

    ghost matches_eq = { same_names_tie };

    // Numbers are compared fastest, and names are digests, so their first eight bytes nearly always tell two apart.
    fn cmp(&self, other: &Name) -> Ordering {
        let (here, there) = (head(self), head(other));
        if here != there {
            return here.cmp(&there);
        }
        self.bytes.cmp(&other.bytes)
    }
}

impl PartialOrd for Name {
    ghost partial_cmp = { as_partial_cmp name_cmp };

    ghost laws = { name_partial_order };

    fn partial_cmp(&self, other: &Name) -> Option<Ordering> {
        Some(self.cmp(other))
    }
}
