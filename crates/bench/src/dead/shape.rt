//! The shapes of the graphs: a chain, a comb or a grid.

ghost use Rattle.std.specs.Prelude.{◌≡◌, ◌-◌};
ghost use Rattle.bench.specs.Boards as board;

/// How edges lead from a number to those up to three above it.
#[derive(Clone, Copy)]
pub enum Shape {
    /// To the next one.
    Chain,
    /// From an even one to the next even one, and to a tooth between them, from which no edge leads.
    Comb,
    /// Rows of three: to the next one of the row, and to the one below it.
    Grid,
}

impl Shape {
    /// The shape that a word names.
    pub fn named(word: &str) -> Option<Shape> {
        match word {
            "chain" => Some(Shape::Chain),
            "comb" => Some(Shape::Comb),
            "grid" => Some(Shape::Grid),
            _ => None,
        }
    }

    /// Whether an edge leads from a number to the one that is so far above it.
    pub fn joins(self, from: u32, by: u32) -> bool
        ensures { result ≡ board.joins self from by }
    {
        match self {
            Shape::Chain => by == 1,
            Shape::Comb => from % 2 == 0 && by <= 2,
            Shape::Grid => by == 3 || by == 1 && from % 3 != 2,
        }
    }
}
