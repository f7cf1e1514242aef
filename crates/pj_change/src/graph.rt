//! Graphs of sets of changes: vertices, edges, and their kinds, labels and statuses.

use crate::point::{Place, Point};
use pj_name::Name;
use std::marker::Model;

/// The status of a byte or a name in a set of changes.
#[derive(Clone, Copy, PartialEq, Eq)]
pub enum Status {
    Alive,
    Dead,
    /// In conflict: deleted, and not by all.
    Zombie,
}

/// What an edge says, in the order of their listing.
#[derive(Clone, Copy, PartialEq, Eq, PartialOrd, Ord)]
pub enum Label {
    /// The target is text that follows the source.
    Block,
    /// From a parent to a name, or from a name to its child.
    Folder,
    /// The source is before the target.
    Order,
}

/// What a vertex is.
#[derive(Clone, Copy, PartialEq, Eq)]
pub enum VertexKind {
    Name,
    /// An executable name.
    ExecName,
    /// A file's inode.
    File,
    /// A directory's inode.
    Dir,
    /// A run of bytes of one insertion.
    Text,
}

/// The positions of a change from `start` up to and without `end`.
#[derive(Clone, Copy, PartialEq, Eq)]
pub struct Vertex {
    pub change: Name,
    pub start: u32,
    pub end: u32,
    pub kind: VertexKind,
    pub status: Status,
}

/// An edge from the last point of a vertex, or the root, to the first point of a vertex.
#[derive(Clone, Copy, PartialEq, Eq)]
pub struct Edge {
    pub source: Place,
    pub target: Point,
    pub label: Label,
    pub status: Status,
    /// The change that says it.
    pub introducer: Name,
}

/// A list of vertices.
#[derive(Drop)]
pub struct Vertices {
    items: Vec<Vertex>,
}

impl Model for Vertices {
    ghost use Rattle.std.specs.Prelude.{List};
    ghost use Rattle.pj_change.specs.declared.graph.Vertex.{Vertex};

    ghost Value = { List Vertex };

    ghost view = { λ b. b.items.items };
}

impl Vertices {
    ghost use Rattle.std.specs.Prelude.{◌≡◌};

    /// The list of these vertices.
    pub fn of(items: Vec<Vertex>) -> Vertices
        ensures { result ≡ items.items }
    {
        Vertices { items }
    }

    /// Its vertices.
    pub fn items(&self) -> &[Vertex]
        ensures { result.now ≡ self.now }
    {
        self.items.as_slice()
    }
}

/// A list of edges.
#[derive(Drop)]
pub struct Edges {
    items: Vec<Edge>,
}

impl Model for Edges {
    ghost use Rattle.std.specs.Prelude.{List};
    ghost use Rattle.pj_change.specs.declared.graph.Edge.{Edge};

    ghost Value = { List Edge };

    ghost view = { λ b. b.items.items };
}

impl Edges {
    ghost use Rattle.std.specs.Prelude.{◌≡◌};

    /// The list of these edges.
    pub fn of(items: Vec<Edge>) -> Edges
        ensures { result ≡ items.items }
    {
        Edges { items }
    }

    /// Its edges.
    pub fn items(&self) -> &[Edge]
        ensures { result.now ≡ self.now }
    {
        self.items.as_slice()
    }
}

/// The graph of a set of changes.
#[derive(Drop)]
pub struct Graph {
    /// By their first points.
    pub vertices: Vertices,
    /// By source, target, label and introducer.
    pub edges: Edges,
}
