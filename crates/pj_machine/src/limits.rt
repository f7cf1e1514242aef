//! The limits of a repository.
ghost use Rattle.std.specs.Prelude.{◌≤◌};

/// The limits of a repository. None is above that of `Limits::FULL`.
#[derive(Clone, Copy, Debug, PartialEq, Eq)]
pub struct Limits {
    /// Changes in the store.
    pub changes: u32,
    /// Bytes of the texts in the store.
    pub bytes: u64,
    /// Channels.
    pub channels: u32,
    /// Entries of the journal.
    pub entries: u64,
    /// Live vertices of a printed file.
    pub live: u32,
    /// Bytes that one session takes.
    pub session: u64,
    pub ghost few_changes: { changes ≤ 65536 },
    pub ghost few_bytes: { bytes ≤ 1073741824 },
    pub ghost few_channels: { channels ≤ 4096 },
    pub ghost few_entries: { entries ≤ 4194304 },
    pub ghost few_live: { live ≤ 16384 },
    pub ghost short_session: { session ≤ 1073741824 },
}

impl Limits {
    /// The limits of the program.
    pub const FULL: Limits = Limits {
        changes: 65_536,
        bytes: 1_073_741_824,
        channels: 4_096,
        entries: 4_194_304,
        live: 16_384,
        session: 1_073_741_824,
    };
}
