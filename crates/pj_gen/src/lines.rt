//! Lines of a text and of requests, each at the end of the bytes so far.
ghost use Rattle.std.specs.Prelude.{◌≡◌, ◌++◌, ◌∷◌, [], codes, decimal, OnOk};
ghost use Rattle.pj_change.specs.Text.{line};

use itoa::Buffer;
use std::alloc::AllocError;

/// Appends a decimal number.
pub(crate) fn put_number(out: &mut Vec<u8>, number: u32) -> Result<(), AllocError>
    ensures { OnOk result (out.new.items ≡ out.old.items ++ decimal number) }
{
    let mut buffer = Buffer::new();
    out.extend_from_slice(buffer.format(number).as_bytes())
}

/// Appends a line of one word.
pub(crate) fn put_word(out: &mut Vec<u8>, word: &[u8]) -> Result<(), AllocError>
    ensures { OnOk result (out.new.items ≡ out.old.items ++ line (word.now ∷ [])) }
{
    out.extend_from_slice(word)?;
    out.extend_from_slice(b"\n")
}

/// Appends a line of two words.
pub(crate) fn put_two(out: &mut Vec<u8>, first: &[u8], second: &[u8]) -> Result<(), AllocError>
    ensures { OnOk result (out.new.items ≡ out.old.items ++ line (first.now ∷ second.now ∷ [])) }
{
    out.extend_from_slice(first)?;
    out.extend_from_slice(b" ")?;
    put_word(out, second)
}

/// Appends a line of three words.
pub(crate) fn put_three(
    out: &mut Vec<u8>,
    first: &[u8],
    second: &[u8],
    third: &[u8],
) -> Result<(), AllocError>
    ensures { OnOk result (out.new.items ≡ out.old.items ++ line (first.now ∷ second.now ∷ third.now ∷ [])) }
{
    out.extend_from_slice(first)?;
    out.extend_from_slice(b" ")?;
    put_two(out, second, third)
}

/// Appends a line of a word and a number.
pub(crate) fn put_counted(out: &mut Vec<u8>, word: &[u8], number: u32) -> Result<(), AllocError>
    ensures { OnOk result (out.new.items ≡ out.old.items ++ line (word.now ∷ decimal number ∷ [])) }
{
    let mut buffer = Buffer::new();
    put_two(out, word, buffer.format(number).as_bytes())
}

/// Appends the last word of a line, a number.
pub(crate) fn put_last_number(out: &mut Vec<u8>, number: u32) -> Result<(), AllocError>
    ensures { OnOk result (out.new.items ≡ out.old.items ++ line (decimal number ∷ [])) }
{
    let mut buffer = Buffer::new();
    put_word(out, buffer.format(number).as_bytes())
}
