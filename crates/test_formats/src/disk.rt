//! Logs over disks in memory: how files read, what is appended to them, and what is left where the disk stops or tears a write.
//!
//! A case is a line of words. A file and a string are said in hex, and a file of no byte as `none`.
//!
//! - `read FILE`: the list that the file stores, or what refuses it.
//! - `append FILE STRING ..`: how many bytes the file has once the strings are appended, and its list.
//! - `stop FILE STRING ..`: for each number of calls after which the disk stops, until none stops it, how many strings were
//!   acknowledged, and the list of the file after a crash that keeps what was synced, and after one that keeps all; and for
//!   both the list with one string more.
//! - `tear FILE STRING`: for each number of calls, how the files read that are left where the last of the calls is torn: cut
//!   at each of its bytes, or with other bytes from there on. They have the list of before, or with the string, or another.
//!
//! A string of at most 8 bytes is written in hex, and a longer one as its length.

mod cases;
mod listing;
mod runs;
mod torn;

pub use cases::answers;
