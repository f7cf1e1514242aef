//! Parts of the line of a reply: words, numbers and names, each with the byte that ends it.
ghost use Rattle.std.specs.Prelude.{◌≡◌, ◌↔◌, ◌⊎◌, ℕ, ◌≤◌, ◌<◌, ◌^◌, List, [], ◌∷◌, ◌++◌, Some, length, take, decimal};
ghost use Rattle.std.specs.List.{prefix_len};
ghost use Rattle.pj_name.specs.declared.name.Name.{Name as NameModel};
ghost use Rattle.pj_name.specs.Name.{hex, is_lower_hex_digit};
ghost use Rattle.pj_replies.specs.Finds.{Finds};
ghost use Rattle.pj_replies.specs.Digits.{digits_read, IsBelow};

use crate::found::Found;
use pj_name::Name;

/// These bytes, which spell this value.
pub fn fixed<V: Drop>(bytes: &[u8], text: &[u8], value: V) -> Found<V>
    ensures { Finds (λ (_ : V). text.now) (λ v. v ≡ value) bytes.now result }
{
    if bytes.starts_with(text) {
        Found::Whole(value, text.len())
    } else if text.starts_with(bytes) {
        Found::Part
    } else {
        Found::Apart
    }
}

/// The number that the digits write with one more behind them, where it is at most `most`.
fn with_digit(value: Option<u64>, byte: u8, most: u64) -> Option<u64>
    requires { IsBelow most value }
    ensures { (n : ℕ) → (result ≡ Some n) ↔ ((n ≤ most) × (digits_read value ++ byte ∷ [] ≡ decimal n)) }
{
    if !byte.is_ascii_digit() {
        return None;
    }
    let digit = (byte - b'0') as u64;
    if digit > most {
        return None;
    }
    match value {
        None => Some(digit),
        Some(0) => None,
        Some(tens) => {
            if tens <= (most - digit) / 10 {
                Some(tens * 10 + digit)
            } else {
                None
            }
        }
    }
}

/// A number that is at most `most`, without a leading zero, and the byte that ends it.
fn digits(bytes: &[u8], most: u64, end: u8) -> Found<u64>
    requires { (end ≡ 32) ⊎ (end ≡ 10) }
    ensures { Finds (λ n. decimal n ++ end ∷ []) (λ n. n ≤ most) bytes.now result }
{
    let mut value = None;
    for place in 0..bytes.len() {
        let byte = bytes[place];
        if byte == end {
            return match value {
                Some(number) => Found::Whole(number, place + 1),
                None => Found::Apart,
            };
        }
        match with_digit(value, byte, most) {
            Some(number) => value = Some(number),
            None => return Found::Apart,
        }
    }
    Found::Part
}

/// These bytes, a number that is at most `most`, and the byte that ends it.
pub fn number(bytes: &[u8], before: &[u8], most: u64, end: u8) -> Found<u64>
    requires { (end ≡ 32) ⊎ (end ≡ 10) }
    ensures { Finds (λ n. before.now ++ (decimal n ++ end ∷ [])) (λ n. n ≤ most) bytes.now result }
{
    match fixed(bytes, before, ()) {
        Found::Whole(_, at) => {
            let (_, rest) = bytes.split_at(at);
            match digits(rest, most, end) {
                Found::Whole(number, count) => Found::Whole(number, at + count),
                Found::Part => Found::Part,
                Found::Apart => Found::Apart,
            }
        }
        Found::Part => Found::Part,
        Found::Apart => Found::Apart,
    }
}

/// How many lower-case hex digits stand at the beginning, of the first 64 bytes.
fn hex_digits(bytes: &[u8]) -> usize
    ensures { result ≡ prefix_len is_lower_hex_digit (take 64 bytes.now) }
{
    bytes
        .iter()
        .take(64)
        .take_while(|digit| matches!(**digit, b'0'..=b'9' | b'a'..=b'f'))
        .count()
}

/// The name of a change, and the newline that ends it.
fn change(bytes: &[u8]) -> Found<Name>
    ensures { Finds (λ (name : NameModel). hex name.bytes ++ 10 ∷ []) (λ _. Unit {0}) bytes.now result }
{
    let count = hex_digits(bytes);
    if count == bytes.len() {
        return Found::Part;
    }
    if count < 64 {
        return Found::Apart;
    }
    if bytes[64] != b'\n' {
        return Found::Apart;
    }
    let (digits, _) = bytes.split_at(64);
    match Name::read(digits) {
        Some(name) => Found::Whole(name, 65),
        None => Found::Apart,
    }
}

/// These bytes, the name of a change, and the newline that ends it.
pub fn named(bytes: &[u8], before: &[u8]) -> Found<Name>
    ensures { Finds (λ (name : NameModel). before.now ++ (hex name.bytes ++ 10 ∷ [])) (λ _. Unit {0}) bytes.now result }
{
    match fixed(bytes, before, ()) {
        Found::Whole(_, at) => {
            let (_, rest) = bytes.split_at(at);
            match change(rest) {
                Found::Whole(name, count) => Found::Whole(name, at + count),
                Found::Part => Found::Part,
                Found::Apart => Found::Apart,
            }
        }
        Found::Part => Found::Part,
        Found::Apart => Found::Apart,
    }
}
