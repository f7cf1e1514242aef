//! The text of vertices one after the other.

ghost use Rattle.std.specs.Prelude.{◌≡◌, ◌++◌, ◌∷◌, [], ◌<◌, ◌≤◌, length, decimal, if◌then◌else◌, All, OnOk, IfOk};
ghost use Rattle.pj_change.specs.MarkedText.{ends_line as ends_line_of, put_marker, close_run, open_run, put_piece};
ghost use Rattle.pj_print.specs.InOrder.{no_marking, text_in_order};

use itoa::Buffer;
use pj_marks::{Memory, Texts};
use std::alloc::{AllocError, Global};
use std::marker::Model;

/// Whether the last byte is a newline, or there is none.
fn ends_line(bytes: &[u8]) -> bool
    ensures { result ≡ ends_line_of bytes.now }
{
    match bytes {
        [] => true,
        [.., last] => *last == b'\n',
    }
}

/// A line of a sign, a number and a word, after a newline where the last byte is none.
fn write_marker(
    bytes: &mut Vec<u8>,
    sign: &[u8],
    number: u64,
    word: &[u8],
) -> Result<(), AllocError>
    ensures line { OnOk result (bytes.new.items ≡ bytes.old.items ++ ((if ends_line_of bytes.old.items then [] else 10 ∷ []) ++ ((sign.now ++ (decimal number ++ word.now)) ++ 10 ∷ []))) }
    ensures longer { length bytes.old.items ≤ length bytes.new.items }
{
    let mut buffer = Buffer::new();
    if !ends_line(bytes) {
        bytes.push(b'\n')?;
    }
    bytes.extend_from_slice(sign)?;
    bytes.extend_from_slice(buffer.format(number).as_bytes())?;
    bytes.extend_from_slice(word)?;
    bytes.push(b'\n')?;
    Ok(())
}

/// The text so far, with the markers of zombie runs.
#[derive(Drop)]
struct Runs {
    alloc: Global,
    bytes: Vec<u8>,
    /// How many runs were started. The line of each stands in the bytes, so there are fewer of them.
    started: u64,
    /// The run that stands open.
    run: Option<u64>,
}

impl Model for Runs {
    ghost use Rattle.std.specs.Prelude.{◌≤◌, length};
    ghost use Rattle.pj_change.specs.MarkedText.{Marking};

    ghost Value = { Marking };

    ghost view = { λ m. record { bytes = m.bytes.items; started = m.started; run = m.run } };

    ghost invariant = { λ m. m.started ≤ length m.bytes.items };
}

impl Runs {
    /// No text.
    fn new(alloc: Global) -> Runs
        ensures { result ≡ no_marking }
    {
        Runs {
            alloc,
            bytes: Vec::new(alloc),
            started: 0,
            run: None,
        }
    }

    /// The text.
    fn into_bytes(self) -> Vec<u8>
        ensures { result.items ≡ self.bytes }
    {
        self.bytes
    }

    /// A marker line of a sign, a number and a word.
    fn put_marker(&mut self, sign: &[u8], number: u64, word: &[u8]) -> Result<(), Memory>
        ensures { OnOk result (self.new ≡ put_marker self.old (sign.now ++ decimal number ++ word.now)) }
    {
        write_marker(&mut self.bytes, sign, number, word)?;
        Ok(())
    }

    /// Closes the run that stands open.
    fn close_run(&mut self) -> Result<(), Memory>
        ensures { OnOk result (self.new ≡ close_run self.old) }
    {
        if let Some(number) = self.run {
            self.run = None;
            self.put_marker(b"<<<<<<< ", number, b"")?;
        }
        Ok(())
    }

    /// Opens a run where none stands open.
    fn open_run(&mut self) -> Result<(), Memory>
        ensures { OnOk result (self.new ≡ open_run self.old) }
    {
        if self.run.is_none() {
            let number = self.started + 1;
            self.put_marker(b">>>>>>> ", number, b" zombie")?;
            self.started = number;
            self.run = Some(number);
        }
        Ok(())
    }

    /// A live vertex: a zombie within a run, any other outside.
    fn put<T: Texts>(&mut self, texts: &T, at: u32) -> Result<(), Memory>
        requires { at < T.size texts.now }
        ensures { OnOk result (self.new ≡ put_piece (T.piece texts.now at) self.old) }
    {
        if texts.zombie(at) {
            self.open_run()?;
        } else {
            self.close_run()?;
        }
        texts.put(self.alloc, at, &mut self.bytes)
    }
}

/// The text of vertices one after the other, with the markers of their zombie runs.
pub fn write_in_order<T: Texts>(alloc: Global, order: &[u32], texts: &T) -> Result<Vec<u8>, Memory>
    requires { All (λ at. at < T.size texts.now) order.now }
    ensures { IfOk result (λ text. text.items ≡ text_in_order (T.piece texts.now) order.now) }
{
    let mut runs = Runs::new(alloc);
    for &at in order {
        runs.put(texts, at)?;
    }
    runs.close_run()?;
    Ok(runs.into_bytes())
}
