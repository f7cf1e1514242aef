//! Changes that keep the rules of a text, and records of them with their texts and names.

ghost use Rattle.std.specs.Prelude.{◌≡◌};
ghost use Rattle.pj_change.specs.Text.{parts, text_of};
ghost use Rattle.pj_change.specs.Rules.{IsChange};
ghost use Rattle.pj_name.specs.Name.{name_of as text_name};

use crate::lists::{Bytes, Hunks, Names};
use crate::rules::keep_rules;
use pj_name::{Name, name_of};

/// A change, which keeps the rules of its text.
#[derive(Drop)]
pub struct Change {
    /// The version of the text: 1 or 2.
    pub version: u8,
    /// A line of 0 to 1,000 bytes.
    pub message: Bytes,
    /// A line of 0 to 1,000 bytes.
    pub author: Bytes,
    /// Seconds, as the author gave them.
    pub time: u32,
    /// The changes that have to be there before it: 0 to 256 names, rising.
    pub needs: Names,
    /// Further changes that its author knew of: 0 to 1,024 names, rising, none of them a need.
    pub knows: Names,
    /// 0 to 4,096 hunks.
    pub hunks: Hunks,
    pub ghost keeps: { IsChange (parts version message author time needs knows hunks) },
}

impl Change {
    ghost use Rattle.std.specs.Prelude.{◌↔◌, IsSome, IfSome};
    ghost use Rattle.pj_change.specs.Parts.{parts_of};

    /// The change of these parts, None exactly where they break a rule. It takes no memory.
    pub fn of(
        version: u8,
        message: Bytes,
        author: Bytes,
        time: u32,
        needs: Names,
        knows: Names,
        hunks: Hunks,
    ) -> Option<Change>
        ensures change { IsSome result ↔ IsChange (parts version message author time needs knows hunks) }
        ensures parts { IfSome result (λ c. parts_of c ≡ parts version message author time needs knows hunks) }
    {
        if keep_rules(
            version,
            message.items(),
            author.items(),
            time,
            needs.items(),
            knows.items(),
            hunks.items(),
        ) {
            Some(Change {
                version,
                message,
                author,
                time,
                needs,
                knows,
                hunks,
            })
        } else {
            None
        }
    }
}

/// A change with its text and its name.
#[derive(Drop)]
pub struct Record {
    /// The digest of the text.
    pub name: Name,
    /// What spells the change.
    pub text: Bytes,
    pub change: Change,
    pub ghost spelled: { text ≡ text_of (parts change.version change.message change.author change.time
        change.needs change.knows change.hunks) },
    pub ghost named: { name ≡ text_name text },
}

impl Record {
    ghost use Rattle.pj_change.specs.Parts.{spelling};

    /// The record of a change and its text.
    pub fn of(text: Bytes, change: Change) -> Record
        requires { text ≡ spelling change }
        ensures text { result.text ≡ text }
        ensures change { result.change ≡ change }
    {
        let name = name_of(text.items());
        Record { name, text, change }
    }
}
