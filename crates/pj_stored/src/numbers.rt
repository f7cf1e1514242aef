//! What the types of a reply say of its numbers.
ghost use Rattle.pj_wire.specs.Replies.{IsReply, IsReason};

use pj_machine::{Numbered, Refusal, Reply};

/// The number that a refusal says has 64 bits. It does nothing.
fn has_small_number(refusal: Refusal)
    ensures { IsReason refusal }
{}

/// The numbers that a reply says have 64 bits. It does nothing.
pub(crate) fn has_small_numbers(numbered: &Numbered)
    ensures { IsReply numbered.now }
{
    let Numbered::At { place, reply } = numbered else {
        return;
    };
    let _place = *place;
    match reply {
        Reply::Body(body) => {
            let _length = body.items().len();
        }
        Reply::No(refusal) => has_small_number(*refusal),
        _ => {}
    }
}
