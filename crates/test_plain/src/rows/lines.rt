//! What a channel shows, a line for each item.

use pj_change::{
    Edge, Graph, Label, Names, Place, Point, Status, Step, StepKind, StepWord, Vertex, VertexKind,
    Walk,
};
use pj_name::Name;
use std::alloc::{AllocError, Global};

/// The line of each vertex of a graph, and then of each edge.
pub fn graph_lines(alloc: Global, graph: &Graph) -> Result<Vec<u8>, AllocError> {
    let mut lines = Vec::new(alloc);
    for vertex in graph.vertices.items() {
        put_vertex(alloc, &mut lines, vertex)?;
    }
    for edge in graph.edges.items() {
        put_edge(alloc, &mut lines, edge)?;
    }
    Ok(lines)
}

/// How many vertices a graph has, how many of them are zombies, and how many edges it has.
pub fn sizes_line(alloc: Global, graph: &Graph) -> Result<Vec<u8>, AllocError> {
    let vertices = graph.vertices.items();
    let mut zombies = 0usize;
    for vertex in vertices {
        if vertex.status == Status::Zombie {
            zombies = zombies.saturating_add(1);
        }
    }
    let mut line = Vec::new(alloc);
    put_sizes(
        alloc,
        &mut line,
        [vertices.len(), zombies, graph.edges.items().len()],
    )?;
    Ok(line)
}

fn put_sizes(alloc: Global, line: &mut Vec<u8>, sizes: [usize; 3]) -> Result<(), AllocError> {
    let [vertices, zombies, edges] = sizes;
    let text = format!(in alloc; "vertices {vertices} zombies {zombies} edges {edges}\n")?;
    line.extend_from_slice(text.as_bytes())
}

/// The line of each step of a walk: what it is, its word, its inode and its path.
pub fn walk_lines(alloc: Global, walk: &Walk) -> Result<Vec<u8>, AllocError> {
    let mut lines = Vec::new(alloc);
    for step in walk.items() {
        put_step(alloc, &mut lines, step)?;
    }
    Ok(lines)
}

/// The line of each name of a log.
pub fn log_lines(alloc: Global, log: &Names) -> Result<Vec<u8>, AllocError> {
    let mut lines = Vec::new(alloc);
    for name in log.items() {
        lines.extend_from_slice(&name.hex())?;
        lines.push(b'\n')?;
    }
    Ok(lines)
}

fn put_step(alloc: Global, lines: &mut Vec<u8>, step: &Step) -> Result<(), AllocError> {
    lines.extend_from_slice(entry_word(step.kind, step.exec))?;
    lines.extend_from_slice(step_word(step.word))?;
    put_point(alloc, lines, step.inode)?;
    lines.push(b' ')?;
    lines.extend_from_slice(step.path.items())?;
    lines.push(b'\n')?;
    Ok(())
}

fn put_vertex(alloc: Global, lines: &mut Vec<u8>, vertex: &Vertex) -> Result<(), AllocError> {
    let range = format!(in alloc; ".{}-{}", vertex.start, vertex.end)?;
    lines.extend_from_slice(b"vertex")?;
    put_name(lines, vertex.change)?;
    lines.extend_from_slice(range.as_bytes())?;
    lines.extend_from_slice(kind_word(vertex.kind))?;
    lines.extend_from_slice(status_word(vertex.status))?;
    lines.push(b'\n')?;
    Ok(())
}

fn put_edge(alloc: Global, lines: &mut Vec<u8>, edge: &Edge) -> Result<(), AllocError> {
    lines.extend_from_slice(b"edge")?;
    match edge.source {
        Place::Root => lines.extend_from_slice(b" root")?,
        Place::At(source) => put_point(alloc, lines, source)?,
    }
    put_point(alloc, lines, edge.target)?;
    lines.extend_from_slice(label_word(edge.label))?;
    lines.extend_from_slice(status_word(edge.status))?;
    put_name(lines, edge.introducer)?;
    lines.push(b'\n')?;
    Ok(())
}

fn put_point(alloc: Global, lines: &mut Vec<u8>, point: Point) -> Result<(), AllocError> {
    let offset = format!(in alloc; ".{}", point.offset)?;
    put_name(lines, point.change)?;
    lines.extend_from_slice(offset.as_bytes())
}

fn put_name(lines: &mut Vec<u8>, name: Name) -> Result<(), AllocError> {
    lines.push(b' ')?;
    lines.extend_from_slice(&name.hex())
}

fn kind_word(kind: VertexKind) -> &'static [u8] {
    match kind {
        VertexKind::Name => b" name",
        VertexKind::ExecName => b" xname",
        VertexKind::File => b" file",
        VertexKind::Dir => b" dir",
        VertexKind::Text => b" text",
    }
}

fn status_word(status: Status) -> &'static [u8] {
    match status {
        Status::Alive => b" alive",
        Status::Dead => b" dead",
        Status::Zombie => b" zombie",
    }
}

fn label_word(label: Label) -> &'static [u8] {
    match label {
        Label::Block => b" block",
        Label::Folder => b" folder",
        Label::Order => b" order",
    }
}

/// What an entry is. None but a file is executable.
fn entry_word(kind: StepKind, exec: bool) -> &'static [u8] {
    match (kind, exec) {
        (StepKind::Dir, false) => b"dir",
        (StepKind::File, false) => b"file",
        (StepKind::File, true) => b"exec",
        (StepKind::Same, false) => b"same",
        (StepKind::Dir, true) | (StepKind::Same, true) => b"none",
    }
}

fn step_word(word: StepWord) -> &'static [u8] {
    match word {
        StepWord::Alive => b" alive",
        StepWord::Zombie => b" zombie",
        StepWord::Orphan => b" orphan",
        StepWord::Adrift => b" adrift",
    }
}
