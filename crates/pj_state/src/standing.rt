//! A channel of a repository.
ghost use Rattle.std.specs.Prelude.{◌≡◌, length, map, IfOk};
ghost use Rattle.std.specs.BTreeMap.{IsOrdered};
ghost use Rattle.pj_machine.specs.ChannelName.{channel_cmp};
ghost use Rattle.pj_state.specs.IsKept.{count};

use pj_change::Memory;
use pj_channel::Channel;
use pj_machine::{ChannelCount, ChannelName};
use std::alloc::Global;
use std::collections::BTreeMap;

/// A channel, and the number of the last entry that made or changed it, which is 0 where none did.
pub struct Standing {
    pub channel: Channel,
    pub last: u64,
}

/// Written out and not derived: whoever lets go of one cites this proof, and proves nothing anew of its parts.
impl Drop for Standing {
    fn drop(self) {
        let Standing {
            channel: _channel,
            last: _last,
        } = self;
    }
}

impl Standing {
    /// How many changes it has, under its name. Where the number has no room, memory is wanted.
    pub(crate) fn count(&self, name: ChannelName) -> Result<ChannelCount, Memory>
        ensures { IfOk result (λ c. (c.name ≡ name) × (c.changes ≡ length self.now.channel)) }
    {
        match u64::try_from(self.channel.len()) {
            Ok(changes) => Ok(ChannelCount { name, changes }),
            Err(_) => Err(Memory),
        }
    }
}

/// Each channel with how many changes it has, by the bytes of its name.
pub(crate) fn counts_of(
    alloc: Global,
    channels: &BTreeMap<ChannelName, Standing>,
) -> Result<Vec<ChannelCount>, Memory>
    ensures counts { IfOk result (λ counts. counts.items ≡ map count channels.now.entries) }
    ensures ordered { IsOrdered channel_cmp channels.now }
{
    let mut counts = Vec::new(alloc);
    for (name, standing) in channels {
        let count = standing.count(*name)?;
        counts.push(count)?;
    }
    Ok(counts)
}
