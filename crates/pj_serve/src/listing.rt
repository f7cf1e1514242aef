//! The journal, line by line, on a sink.
ghost use Rattle.std.specs.Prelude.{◌≡◌};
ghost use Rattle.pj_io.specs.Told.{Where};
ghost use Rattle.pj_io.specs.Causes.{HasCause};
ghost use Rattle.pj_io.specs.Sink.{GivesAll};
ghost use Rattle.pj_machine.specs.JournalText.{journal_text};

use pj_io::{Sink, WriteFault, give_all};
use pj_machine::{Entry, journal_line};

/// Writes the line of each entry. It takes no memory.
///
/// # Errors
/// `WriteFault` only where the sink's count of faults rose; then a front of the lines was written.
pub(crate) fn write_journal<D: Sink>(sink: &mut D, entries: &[Entry]) -> Result<(), WriteFault>
    ensures bytes { Where (D.meaning.tells sink.old)
        (GivesAll (D.meaning.written sink.old) (D.meaning.written sink.new) (journal_text entries.now) result) }
    ensures told { D.meaning.tells sink.new ≡ D.meaning.tells sink.old }
    ensures label { Where (D.meaning.tells sink.old) (D.meaning.label sink.new ≡ D.meaning.label sink.old) }
    ensures cause { HasCause (D.meaning.faults sink.old) (D.meaning.faults sink.new) result }
{
    let mut line = [0; 256];
    for (index, entry) in entries.iter().enumerate() {
        let count = journal_line(index as u64 + 1, entry, &mut line);
        let Ok(()) = give_all(sink, &line[..count]) else {
            return Err(WriteFault);
        };
    }
    Ok(())
}
