//! What is asked, and what is entered.
use crate::channel_name::ChannelName;
use crate::stored::Stored;
use pj_change::Bytes;
use pj_name::Name;

/// What a session asks.
#[derive(Drop)]
pub enum Command {
    /// Store the change of this text.
    Put(Bytes),
    /// Give the text of a change.
    Get(Name),
    /// Give the text of the change that undoes a change.
    Inverse(Name),
    /// Make a channel without changes.
    New(ChannelName),
    /// Make the second channel, with the changes of the first.
    Fork(ChannelName, ChannelName),
    /// Take a channel away.
    Drop(ChannelName),
    /// Apply a change to a channel.
    Apply(ChannelName, Name),
    /// Take a change out of a channel.
    Unrecord(ChannelName, Name),
    /// Take a change out of a channel with all that need it.
    Uproot(ChannelName, Name),
    /// Apply to the first channel what it lacks of the second.
    Pull(ChannelName, ChannelName),
    /// Give the graph of a channel.
    Graph(ChannelName),
    /// Print the files of a channel.
    Print(ChannelName),
    /// List the changes of a channel.
    Log(ChannelName),
    /// List the channels.
    Channels,
    /// List the entries of the journal.
    Journal,
    /// End the session. It has no reply and is no call.
    Quit,
}

/// What is entered in the journal.
#[derive(Drop)]
pub enum Write {
    /// The change is stored.
    Put(Stored),
    /// A channel without changes is made.
    New(ChannelName),
    /// The second channel is made, with the changes of the first.
    Fork(ChannelName, ChannelName),
    /// The channel is taken away.
    Drop(ChannelName),
    /// The change is applied to the channel.
    Apply(ChannelName, Name),
    /// The change is taken out of the channel.
    Unrecord(ChannelName, Name),
    /// The change is taken out of the channel with all that need it.
    Uproot(ChannelName, Name),
    /// What the first channel lacks of the second is applied to it.
    Pull(ChannelName, ChannelName),
}
