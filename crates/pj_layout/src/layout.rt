//! What a layout can be: one class, a series, sides or a tangle.

/// A layout of classes. Each class is given by its number.
#[derive(Debug, Drop)]
pub enum Layout {
    /// One class.
    One(u32),
    /// Layouts one after the other; with none of them, the layout of no class.
    Series(Vec<Layout>),
    /// Two or more layouts side by side.
    Sides(Vec<Layout>),
    /// Two or more classes, one after the other.
    Tangle(Vec<u32>),
}
