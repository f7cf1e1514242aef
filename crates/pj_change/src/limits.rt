//! The limits of a change, of its text, and of the layout of a file, each stated once.

/// The most bytes of a message or an author.
pub const MOST_LINE_BYTES: usize = 1_000;

/// The most bytes of the name of a file or a directory.
pub const MOST_NAME_BYTES: usize = 255;

/// The most references of a list, and the most numbers of needs under one `by`.
pub const MOST_LIST_MEMBERS: usize = 64;

/// The most needs of a change.
pub const MOST_NEEDS: usize = 256;

/// The most names that a change knows beside its needs.
pub const MOST_KNOWN_NAMES: usize = 1_024;

/// The most hunks of a change.
pub const MOST_HUNKS: usize = 4_096;

/// The most bytes of a text of version 1.
pub const MOST_BYTES_OF_VERSION_1: usize = 1_048_576;

/// The most bytes of a text of any version, and so the most positions of a change.
pub const MOST_TEXT_BYTES: usize = 16_777_216;

/// The depth of a layout, counted from 0, at which no set of classes is parted any more.
pub const DEEPEST_LAYOUT: u32 = 64;
