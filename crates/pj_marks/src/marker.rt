//! The marked text as it grows: vertices, marker lines and runs of zombies.

ghost use Rattle.std.specs.Prelude.{◌≡◌, ◌++◌, ◌∷◌, [], ◌<◌, ◌≤◌, suc, length, codes, decimal, None, if◌then◌else◌, All, map, OnOk, IfOk};
ghost use Rattle.pj_change.specs.MarkedText.{ends_line as ends_line_of, put_marker, start, end, close_run, open_run, put_piece, put_each, put_apart, put_group, put_class};

use crate::texts::Texts;
use itoa::Buffer;
use pj_reach::Memory;
use std::alloc::{AllocError, Global};
use std::marker::Model;

/// Whether the last byte is a newline, or there is none.
fn ends_line(bytes: &[u8]) -> bool
    ensures { result ≡ ends_line_of bytes.now }
{
    match bytes {
        [] => true,
        [.., last] => *last == b'\n',
    }
}

/// A line of a sign, a number and a word, after a newline where the last byte is none.
fn write_marker(
    bytes: &mut Vec<u8>,
    sign: &[u8],
    number: u64,
    word: &[u8],
) -> Result<(), AllocError>
    ensures line { OnOk result (bytes.new.items ≡ bytes.old.items ++ ((if ends_line_of bytes.old.items then [] else 10 ∷ []) ++ ((sign.now ++ (decimal number ++ word.now)) ++ 10 ∷ []))) }
    ensures longer { length bytes.old.items ≤ length bytes.new.items }
{
    let mut buffer = Buffer::new();
    if !ends_line(bytes) {
        bytes.push(b'\n')?;
    }
    bytes.extend_from_slice(sign)?;
    bytes.extend_from_slice(buffer.format(number).as_bytes())?;
    bytes.extend_from_slice(word)?;
    bytes.push(b'\n')?;
    Ok(())
}

/// The marked text so far.
#[derive(Drop)]
pub struct Marker {
    alloc: Global,
    bytes: Vec<u8>,
    /// How many markers were started. The line of each stands in the bytes, so there are fewer of them.
    started: u64,
    /// The zombie run that stands open.
    run: Option<u64>,
}

impl Model for Marker {
    ghost use Rattle.std.specs.Prelude.{◌≤◌, length};
    ghost use Rattle.pj_change.specs.MarkedText.{Marking};

    ghost Value = { Marking };

    ghost view = { λ m. record { bytes = m.bytes.items; started = m.started; run = m.run } };

    ghost invariant = { λ m. m.started ≤ length m.bytes.items };
}

impl Marker {
    /// No text.
    pub fn new(alloc: Global) -> Marker
        ensures { result ≡ record { bytes = []; started = 0; run = None } }
    {
        Marker {
            alloc,
            bytes: Vec::new(alloc),
            started: 0,
            run: None,
        }
    }

    /// The text.
    pub fn into_bytes(self) -> Vec<u8>
        ensures { result.items ≡ self.bytes }
    {
        self.bytes
    }

    /// The marker line of a sign, a number and a word.
    fn put_marker(&mut self, sign: &[u8], number: u64, word: &[u8]) -> Result<(), Memory>
        ensures { OnOk result (self.new ≡ put_marker self.old (sign.now ++ decimal number ++ word.now)) }
    {
        write_marker(&mut self.bytes, sign, number, word)?;
        Ok(())
    }

    /// Closes the zombie run that stands open.
    pub fn close_run(&mut self) -> Result<(), Memory>
        ensures { OnOk result (self.new ≡ close_run self.old) }
    {
        if let Some(number) = self.run {
            self.run = None;
            self.put_marker(b"<<<<<<< ", number, b"")?;
        }
        Ok(())
    }

    /// A marker line outside any zombie run.
    fn put_outside(&mut self, sign: &[u8], number: u64, word: &[u8]) -> Result<(), Memory>
        ensures { OnOk result (self.new ≡ put_marker (close_run self.old) (sign.now ++ decimal number ++ word.now)) }
    {
        self.close_run()?;
        self.put_marker(sign, number, word)
    }

    /// Starts the next marker, and answers its number.
    pub fn start(&mut self, word: &[u8]) -> Result<u64, Memory>
        ensures text { OnOk result (self.new ≡ start word.now (close_run self.old)) }
        ensures number { IfOk result (λ number. number ≡ suc self.old.started) }
    {
        let number = self.started + 1;
        self.put_outside(b">>>>>>> ", number, word)?;
        self.started = number;
        Ok(number)
    }

    /// The line between two members of the marker of this number.
    pub fn separate(&mut self, number: u64) -> Result<(), Memory>
        ensures { OnOk result (self.new ≡ put_marker (close_run self.old) (codes "======= " ++ decimal number)) }
    {
        self.put_outside(b"======= ", number, b"")
    }

    /// Ends the marker of this number.
    pub fn end(&mut self, number: u64) -> Result<(), Memory>
        ensures { OnOk result (self.new ≡ end number (close_run self.old)) }
    {
        self.put_outside(b"<<<<<<< ", number, b"")
    }

    /// Opens a zombie run where none stands open.
    fn open_run(&mut self) -> Result<(), Memory>
        ensures { OnOk result (self.new ≡ open_run self.old) }
    {
        if self.run.is_none() {
            self.run = Some(self.start(b" zombie")?);
        }
        Ok(())
    }

    /// A live vertex: a zombie within a run, any other outside.
    fn put_piece<T: Texts>(&mut self, texts: &T, at: u32) -> Result<(), Memory>
        requires { at < T.size texts.now }
        ensures { OnOk result (self.new ≡ put_piece (T.piece texts.now at) self.old) }
    {
        if texts.zombie(at) {
            self.open_run()?;
        } else {
            self.close_run()?;
        }
        texts.put(self.alloc, at, &mut self.bytes)
    }

    /// Vertices, one after the other.
    fn put_each<T: Texts>(&mut self, texts: &T, members: &[u32]) -> Result<(), Memory>
        requires { All (λ at. at < T.size texts.now) members.now }
        ensures { OnOk result (self.new ≡ put_each (map (λ at. put_piece (T.piece texts.now at)) members.now) self.old) }
    {
        for &at in members {
            self.put_piece(texts, at)?;
        }
        Ok(())
    }

    /// Vertices with the lines of the marker of this number between them.
    fn put_apart<T: Texts>(&mut self, number: u64, texts: &T, members: &[u32]) -> Result<(), Memory>
        requires { All (λ at. at < T.size texts.now) members.now }
        ensures { OnOk result (self.new ≡ put_apart number (map (λ at. put_piece (T.piece texts.now at)) members.now) self.old) }
    {
        if let [first, others @ ..] = members {
            self.put_piece(texts, *first)?;
            for &at in others {
                self.separate(number)?;
                self.put_piece(texts, at)?;
            }
        }
        Ok(())
    }

    /// The vertices of a cycle.
    fn put_cycle<T: Texts>(&mut self, texts: &T, members: &[u32]) -> Result<(), Memory>
        requires { All (λ at. at < T.size texts.now) members.now }
        ensures { OnOk result (self.new ≡ put_group (codes " cycle") (map (λ at. put_piece (T.piece texts.now at)) members.now) self.old) }
    {
        let number = self.start(b" cycle")?;
        self.put_apart(number, texts, members)?;
        self.end(number)
    }

    /// A class of these vertices: a cycle of them, or its one vertex.
    #[tactic(auto, using(crate::proofs::Folds::pieces_of))]
    pub fn put_class<T: Texts>(
        &mut self,
        texts: &T,
        members: &[u32],
        cyclic: bool,
    ) -> Result<(), Memory>
        requires { All (λ at. at < T.size texts.now) members.now }
        ensures { OnOk result (self.new ≡ put_class (record { cyclic = cyclic; pieces = map (T.piece texts.now) members.now }) self.old) }
    {
        if cyclic {
            self.put_cycle(texts, members)
        } else {
            self.put_each(texts, members)
        }
    }
}
