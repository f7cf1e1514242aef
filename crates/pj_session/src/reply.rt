//! Replies are written.
ghost use Rattle.std.specs.Prelude.{◌≡◌, [], ◌∷◌, ◌++◌, MatchOption};
ghost use Rattle.pj_io.specs.Told.{Where};
ghost use Rattle.pj_io.specs.Causes.{HasCause};
ghost use Rattle.pj_io.specs.Sink.{GivesAll};
ghost use Rattle.pj_wire.specs.Replies.{reply_bytes, tail_of, IsReply};

use pj_change::Bytes;
use pj_io::{Sink, WriteFault, give_all};
use pj_machine::{Numbered, Reply};
use pj_wire::head;

/// The body of a reply that has one.
fn body_of(numbered: &Numbered) -> Option<&Bytes>
    ensures { MatchOption result (tail_of numbered.now ≡ []) (λ body. tail_of numbered.now ≡ body.now ++ 10 ∷ []) }
{
    match numbered {
        Numbered::At { place: _, reply } => match reply {
            Reply::Body(body) => Some(body),
            _ => None,
        },
        Numbered::NoMemory => None,
    }
}

/// Writes a body, and a newline behind it.
fn write_body<D: Sink>(sink: &mut D, body: &[u8]) -> Result<(), WriteFault>
    ensures bytes { Where (D.meaning.tells sink.old)
        (GivesAll (D.meaning.written sink.old) (D.meaning.written sink.new) (body.now ++ 10 ∷ []) result) }
    ensures told { D.meaning.tells sink.new ≡ D.meaning.tells sink.old }
    ensures label { Where (D.meaning.tells sink.old) (D.meaning.label sink.new ≡ D.meaning.label sink.old) }
    ensures cause { HasCause (D.meaning.faults sink.old) (D.meaning.faults sink.new) result }
{
    let Ok(()) = give_all(sink, body) else {
        return Err(WriteFault);
    };
    give_all(sink, b"\n")
}

/// Writes one reply.
///
/// # Errors
/// `WriteFault` only where the sink's count of faults rose; then a front of the reply was written.
pub(crate) fn write_reply<D: Sink>(sink: &mut D, numbered: &Numbered) -> Result<(), WriteFault>
    ensures bytes { Where (D.meaning.tells sink.old)
        (GivesAll (D.meaning.written sink.old) (D.meaning.written sink.new) (reply_bytes numbered.now) result) }
    ensures small { IsReply numbered.now }
    ensures told { D.meaning.tells sink.new ≡ D.meaning.tells sink.old }
    ensures label { Where (D.meaning.tells sink.old) (D.meaning.label sink.new ≡ D.meaning.label sink.old) }
    ensures cause { HasCause (D.meaning.faults sink.old) (D.meaning.faults sink.new) result }
{
    let mut line = [0; 160];
    let count = head(numbered, &mut line);
    let Ok(()) = give_all(sink, &line[..count]) else {
        return Err(WriteFault);
    };
    match body_of(numbered) {
        Some(body) => write_body(sink, body.items()),
        None => Ok(()),
    }
}
