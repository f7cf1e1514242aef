//! Writing a whole slice to a sink.
ghost use Rattle.std.specs.Prelude.{◌≡◌};
ghost use Rattle.pj_io.specs.Told.{Where};
ghost use Rattle.pj_io.specs.Causes.{HasCause};
ghost use Rattle.pj_io.specs.Sink.{GivesAll};

use crate::{Sink, WriteFault};

/// Writes all bytes to the sink. It takes no memory of its own.
///
/// # Errors
/// `WriteFault` only where the sink's count of faults rose; then a front of the bytes was written.
pub fn give_all<D: Sink>(sink: &mut D, bytes: &[u8]) -> Result<(), WriteFault>
    ensures bytes { Where (D.meaning.tells sink.old)
        (GivesAll (D.meaning.written sink.old) (D.meaning.written sink.new) bytes.now result) }
    ensures told { D.meaning.tells sink.new ≡ D.meaning.tells sink.old }
    ensures label { Where (D.meaning.tells sink.old) (D.meaning.label sink.new ≡ D.meaning.label sink.old) }
    ensures not_shut { Where (D.meaning.tells sink.old) (D.meaning.was_shut sink.new ≡ D.meaning.was_shut sink.old) }
    ensures cause { HasCause (D.meaning.faults sink.old) (D.meaning.faults sink.new) result }
{
    let mut given = 0;
    while given < bytes.len() {
        match sink.give(&bytes[given..]) {
            Ok(count) => given += count,
            Err(_) => return Err(WriteFault),
        }
    }
    Ok(())
}
