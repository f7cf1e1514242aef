//! Replies out of what a source gives.
ghost use Rattle.std.specs.Prelude.{◌≡◌, ◌<◌, Err};
ghost use Rattle.pj_io.specs.Told.{Where};
ghost use Rattle.pj_io.specs.Causes.{Rose};
ghost use Rattle.pj_sync.specs.Received.{Taken, Received};

use crate::stop::Stop;
use pj_change::Memory;
use pj_io::{Failed, Source};
use pj_machine::Numbered;
use pj_replies::{Due, Reading, ReplyDecoder};
use std::alloc::Global;

/// The most bytes that are asked for at once.
const PIECE: usize = 4_096;

/// What is known of the replies of another server.
#[derive(Drop)]
pub struct Link {
    /// The bytes that were taken and not read.
    replies: ReplyDecoder,
    /// How many bytes may still be taken.
    room: u64,
}

impl Link {
    ghost use Rattle.std.specs.Prelude.{[], ◌≤◌};
    ghost use Rattle.std.specs.Prelude.{IsTrue};

    /// Without any bytes, where so many may be taken.
    pub fn new(alloc: Global, limit: u64) -> Link
        ensures waiting { result.replies ≡ [] }
        ensures room { result.room ≡ limit }
    {
        let replies = ReplyDecoder::new(alloc);
        Link {
            replies,
            room: limit,
        }
    }

    /// Takes some bytes of the source.
    fn take<S: Source>(&mut self, source: &mut S) -> Result<(), Stop>
        requires { 0 < self.old.room }
        ensures taken { Taken (IsTrue (S.meaning.tells source.old)) self.old self.new
            (S.meaning.left source.old) (S.meaning.left source.new) result }
        ensures told { S.meaning.tells source.new ≡ S.meaning.tells source.old }
        ensures count { S.meaning.faults source.old ≤ S.meaning.faults source.new }
        ensures cause { result ≡ Err Stop.ReadFault → Rose (S.meaning.faults source.old) (S.meaning.faults source.new) }
    {
        let mut piece = [0; PIECE];
        let wanted = self.room.min(PIECE as u64) as usize;
        let count = match source.take(&mut piece[..wanted]) {
            Ok(count) => count,
            Err(Failed) => return Err(Stop::ReadFault),
        };
        if count == 0 {
            return Err(Stop::Cut);
        }
        self.room -= count as u64;
        match self.replies.feed(&piece[..count]) {
            Ok(()) => Ok(()),
            Err(Memory) => Err(Stop::Memory),
        }
    }

    /// The reply that is due. What is there is looked at before more is taken, so bytes that no reply
    /// begins with are told before the end of the input, and before the limit.
    ///
    /// # Errors
    /// `Strange` where the bytes are no prefix of a reply and begin with none, or say that a text is
    /// too long; `Cut` where the input ended within the reply; `Spent` where no more may be taken;
    /// `ReadFault` only where the count of faults rose; `Memory`.
    pub fn receive<S: Source>(
        &mut self,
        alloc: Global,
        source: &mut S,
        due: Due,
    ) -> Result<Numbered, Stop>
        ensures received { Received due (IsTrue (S.meaning.tells source.old)) self.old self.new
            (S.meaning.left source.old) (S.meaning.left source.new) result }
        ensures told { S.meaning.tells source.new ≡ S.meaning.tells source.old }
        ensures count { S.meaning.faults source.old ≤ S.meaning.faults source.new }
        ensures cause { result ≡ Err Stop.ReadFault → Rose (S.meaning.faults source.old) (S.meaning.faults source.new) }
    {
        loop {
            match self.replies.next(alloc, due) {
                Ok(Reading::Whole(numbered)) => return Ok(numbered),
                Ok(Reading::More) => {}
                Ok(Reading::Strange) => return Err(Stop::Strange),
                Err(Memory) => return Err(Stop::Memory),
            }
            if self.room == 0 {
                return Err(Stop::Spent);
            }
            match self.take(source) {
                Ok(()) => {}
                Err(stop) => return Err(stop),
            }
        }
    }
}
