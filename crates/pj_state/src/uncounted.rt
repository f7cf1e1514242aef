//! The calls that change a channel, where nobody counts their steps.
ghost use Rattle.std.specs.Prelude.{◌≡◌, ◌++◌, ◌<◌, IfOk};
ghost use Rattle.std.specs.Arc.{arc_value};
ghost use Rattle.pj_change.specs.Apply.{IsApplyAnswer};
ghost use Rattle.pj_change.specs.Sets.{HaveOneText};
ghost use Rattle.pj_change.specs.Union as joined;
ghost use Rattle.pj_change.specs.Unrecord.{IsUnrecordAnswer};
ghost use Rattle.pj_change.specs.Uprooting.{IsUprootAnswer};

use pj_change::{Applied, ApplyRefusal, Memory, Record, UnrecordRefusal, UprootRefusal};
use pj_channel::Channel;
use pj_name::Name;
use pj_pmap::Steps;
use std::alloc::Global;
use std::marker::Brand;
use std::sync::Arc;
use std::sync::ledger::{Blank, Ledger};

fn apply_with<L: Ledger>(
    alloc: Global,
    channel: &Channel,
    record: &Arc<Record>,
    blank: Blank,
) -> Result<Applied<Channel>, ApplyRefusal>
    requires name { blank.name ≡ L.name }
    requires parts { blank.parts ≡ L.parts }
    requires some { 0 < blank.parts }
    ensures { IsApplyAnswer channel.now (arc_value record.now) result }
{
    let mut steps = Steps::<L>::new(blank);
    channel.apply(alloc, record, &mut steps)
}

/// The channel with the change at its end.
pub(crate) fn apply(
    alloc: Global,
    channel: &Channel,
    record: &Arc<Record>,
) -> Result<Applied<Channel>, ApplyRefusal>
    ensures { IsApplyAnswer channel.now (arc_value record.now) result }
{
    apply_with::<Brand>(alloc, channel, record, Blank::new(1))
}

fn unrecord_with<L: Ledger>(
    alloc: Global,
    channel: &Channel,
    name: Name,
    blank: Blank,
) -> Result<Channel, UnrecordRefusal>
    requires name { blank.name ≡ L.name }
    requires parts { blank.parts ≡ L.parts }
    requires some { 0 < blank.parts }
    ensures { IsUnrecordAnswer channel.now name result }
{
    let mut steps = Steps::<L>::new(blank);
    channel.unrecord(alloc, name, &mut steps)
}

/// The channel without the change of this name.
pub(crate) fn unrecord(
    alloc: Global,
    channel: &Channel,
    name: Name,
) -> Result<Channel, UnrecordRefusal>
    ensures { IsUnrecordAnswer channel.now name result }
{
    unrecord_with::<Brand>(alloc, channel, name, Blank::new(1))
}

fn uproot_with<L: Ledger>(
    alloc: Global,
    channel: &Channel,
    name: Name,
    blank: Blank,
) -> Result<Channel, UprootRefusal>
    requires name { blank.name ≡ L.name }
    requires parts { blank.parts ≡ L.parts }
    requires some { 0 < blank.parts }
    ensures { IsUprootAnswer channel.now name result }
{
    let mut steps = Steps::<L>::new(blank);
    channel.uproot(alloc, name, &mut steps)
}

/// The channel without the change of this name and all that reach it by needs.
pub(crate) fn uproot(alloc: Global, channel: &Channel, name: Name) -> Result<Channel, UprootRefusal>
    ensures { IsUprootAnswer channel.now name result }
{
    uproot_with::<Brand>(alloc, channel, name, Blank::new(1))
}

fn pull_with<L: Ledger>(
    alloc: Global,
    channel: &Channel,
    other: &Channel,
    blank: Blank,
) -> Result<Channel, Memory>
    requires name { blank.name ≡ L.name }
    requires parts { blank.parts ≡ L.parts }
    requires some { 0 < blank.parts }
    requires one_text { HaveOneText (channel.now ++ other.now) }
    ensures { IfOk result (λ c. c ≡ joined.union channel.now other.now) }
{
    let mut steps = Steps::<L>::new(blank);
    channel.pull(alloc, other, &mut steps)
}

/// The channel's changes, and then those of the other one that it lacks, in the other's order.
pub(crate) fn pull(alloc: Global, channel: &Channel, other: &Channel) -> Result<Channel, Memory>
    requires { HaveOneText (channel.now ++ other.now) }
    ensures { IfOk result (λ c. c ≡ joined.union channel.now other.now) }
{
    pull_with::<Brand>(alloc, channel, other, Blank::new(1))
}
