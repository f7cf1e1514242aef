//! The text of a lawful list of changes and the inodes of its files as a graph, read off the tables of the list.
//!
//! Contract: a [`SetView`] is a view in the sense of `pj_dead` over the tables of a lawful list: its graph is the one of the list, which
//! `laws` says is a view of the list. So the rows of that view are the pseudo rows of the list. A change more leaves each dead vertex of
//! that graph as it was in which no point lies at which dead text, or what stands beside it, can differ: with its last point, its dead
//! neighbours, and edges from live vertices with the same last points and to the same live vertices. [`touched_by`] finds, in the list
//! without the change alone, points of which one lies in each vertex with such a point, and the rows across the dead sets that have one
//! of them. With these [`rows_with`] gives the pseudo rows of the list with the change, for which the one without it may be given up
//! before; [`rows_without`] goes back. [`next_target`] gives, by a walk over rows of edges, the least point above another to which one
//! leads.
//! Cost: where a vertex ends, and which one has a point, are at most two searches of maps each. `outs` takes at most a search for each
//! edge and four besides, `ins` three for each edge and two besides, and a search less for each edge whose row lies in the leaf of the
//! one before it; only their lists take memory. `dead` asks for the status of a point, and for its vertex only where that is dead.
//! `first` goes once over the hunks of one change where no text has the point, as `ins` does where it comes to the inode of a file.
//! `touched_by` looks up each cut of the change; it asks for the end of each vertex that the change deletes or revives, or that a hunk
//! deletes which it is the first to contest, where such hunks that delete the same count once. It lists the edges that lead from each of
//! these vertices, and from each dead one that the change cuts where no change of the list does, and those that lead there where the
//! vertex begins with what changes. It asks for the status of each vertex to which these lead or from which they come, of both sides of
//! each such cut, and of each end of a row of the change that is a point of another one, but of none that is touched in any case. The
//! hunks that the change contests are handed to it. The pseudo rows that are taken away and made are those across the dead sets that have
//! such a point; where text is deleted that was dead before, its set is walked too, and its rows come out as they were.
//! Used by: `pj_tables`, `pj_unrecord`, `pj_output`.
#![tactic(auto)]

mod contested;
mod ends;
pub mod laws;
mod rows;
mod stretch;
mod touching;
mod view;

pub use contested::ContestedIn;
pub use ends::next_target;
pub use rows::{Touched, rows_with, rows_without, touched_by};
pub use view::SetView;
