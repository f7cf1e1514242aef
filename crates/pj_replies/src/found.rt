//! What stands at the beginning of bytes, where one of some values is looked for.
ghost use Rattle.std.specs.Prelude.{◌≡◌};
ghost use Rattle.pj_replies.specs.Finds.{first_of};

/// What stands at the beginning of bytes, where one of some values is looked for.
#[derive(Drop)]
pub enum Found<V> {
    /// This value. So many bytes spell it.
    Whole(V, usize),
    /// Less than a value.
    Part,
    /// No value, however the bytes go on.
    Apart,
}

impl<V: Drop> Found<V> {
    /// Where no value of the first kind stands, what of the second one does.
    pub fn or(self, other: Found<V>) -> Found<V>
        ensures { result ≡ first_of self other }
    {
        match self {
            Found::Whole(value, count) => Found::Whole(value, count),
            Found::Part => Found::Part,
            Found::Apart => other,
        }
    }
}
