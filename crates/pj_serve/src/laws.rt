//! The laws of a session that has its repository to itself, as that of `one`, each as the contract of a function that does
//! nothing.
ghost use Rattle.pj_serve.specs.Laws.{AloneAsOneThread, WritesByReading};

/// Where all entries are of pass 1 and no reply is want of memory, the pass is replied what one thread replies, and each place
/// is the number of writes that were accepted so far.
pub fn alone_as_one_thread()
    ensures { AloneAsOneThread }
{}

/// A session that is alone, ends `Done` and wants memory for no reply writes bytes that are a function of those it reads.
pub fn writes_by_reading()
    ensures { WritesByReading }
{}
