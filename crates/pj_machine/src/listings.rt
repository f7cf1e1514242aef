//! The bodies of `log` and of `channels`.
ghost use Rattle.std.specs.Prelude.{◌≡◌, ◌++◌, IfOk, OnOk};
ghost use Rattle.pj_machine.specs.Listings.{log_line, log_text, channel_line, channels_text};

use crate::channel_name::ChannelName;
use itoa::Buffer;
use pj_change::{Bytes, Memory};
use pj_name::Name;
use std::alloc::{AllocError, Global};

/// A channel, and how many changes it has.
#[derive(Clone, Copy)]
pub struct ChannelCount {
    pub name: ChannelName,
    pub changes: u64,
}

/// Appends a line with a name.
fn put_name(out: &mut Vec<u8>, name: Name) -> Result<(), AllocError>
    ensures { OnOk result (out.new.items ≡ out.old.items ++ log_line name) }
{
    out.extend_from_slice(&name.hex())?;
    out.extend_from_slice(b"\n")
}

/// Appends a line with a channel and how many changes it has.
fn put_channel(out: &mut Vec<u8>, channel: &ChannelCount) -> Result<(), AllocError>
    ensures { OnOk result (out.new.items ≡ out.old.items ++ channel_line channel.now) }
{
    let mut buffer = Buffer::new();
    out.extend_from_slice(channel.name.bytes())?;
    out.push(b' ')?;
    out.extend_from_slice(buffer.format(channel.changes).as_bytes())?;
    out.extend_from_slice(b"\n")
}

/// Appends a line for each name.
fn put_names(out: &mut Vec<u8>, names: &[Name]) -> Result<(), AllocError>
    ensures { OnOk result (out.new.items ≡ out.old.items ++ log_text names.now) }
{
    for name in names {
        put_name(out, *name)?;
    }
    Ok(())
}

/// Appends a line for each channel.
fn put_channels(out: &mut Vec<u8>, channels: &[ChannelCount]) -> Result<(), AllocError>
    ensures { OnOk result (out.new.items ≡ out.old.items ++ channels_text channels.now) }
{
    for channel in channels {
        put_channel(out, channel)?;
    }
    Ok(())
}

/// The body of `log`: a line for each change of the channel, with its name, in the order of the channel's list.
///
/// # Errors
/// `Memory` where there was no memory for it.
pub fn log_body(alloc: Global, names: &[Name]) -> Result<Bytes, Memory>
    ensures { IfOk result (λ body. body ≡ log_text names.now) }
{
    let mut text = Vec::new(alloc);
    put_names(&mut text, names)?;
    Ok(Bytes::of(text))
}

/// The body of `channels`: a line for each channel, with its name and how many changes it has, in the order given.
///
/// # Errors
/// `Memory` where there was no memory for it.
pub fn channels_body(alloc: Global, channels: &[ChannelCount]) -> Result<Bytes, Memory>
    ensures { IfOk result (λ body. body ≡ channels_text channels.now) }
{
    let mut text = Vec::new(alloc);
    put_channels(&mut text, channels)?;
    Ok(Bytes::of(text))
}
