//! What stands in the line of a request, each part with the byte that ends it.
ghost use Rattle.std.specs.Prelude.{◌≡◌, ◌↔◌, ◌⊎◌, ℕ, ◌≤◌, List, [], ◌∷◌, ◌++◌, Some, length, decimal, MatchOption};
ghost use Rattle.pj_name.specs.declared.name.Name.{Name as NameModel};
ghost use Rattle.pj_name.specs.Name.{hex};
ghost use Rattle.pj_machine.specs.ChannelName.{IsChannelName};
ghost use Rattle.pj_wire.specs.Spelled.{StandsNone};
ghost use Rattle.pj_wire.specs.Fields.{IsFirstWord};

use pj_change::MOST_TEXT_BYTES;
use pj_machine::ChannelName;
use pj_name::Name;
use pj_scan::Scan;

/// The bytes before the first space or newline, and those from it on.
fn first_word(bytes: &[u8]) -> (&[u8], &[u8])
    ensures { IsFirstWord bytes.now result.0.now result.1.now }
{
    let mut scan = Scan::new(bytes);
    match scan.word() {
        Some(word) => (word, scan.rest()),
        None => (&[], bytes),
    }
}

/// The name of a channel, with the byte that ends it, a space or a newline.
pub fn channel(bytes: &[u8], end: u8) -> Option<(ChannelName, &[u8])>
    requires { (end ≡ 32) ⊎ (end ≡ 10) }
    ensures { MatchOption result
        (StandsNone (λ (name : List ℕ). name ++ end ∷ []) IsChannelName bytes.now)
        (λ read. IsChannelName read.0 × (bytes.now ≡ (read.0 ++ end ∷ []) ++ read.1.now)) }
{
    let (word, rest) = first_word(bytes);
    match rest.split_first() {
        None => None,
        Some((byte, _)) if *byte != end => None,
        Some((_, rest)) => match ChannelName::read(word) {
            Some(name) => Some((name, rest)),
            None => None,
        },
    }
}

/// The name of a change, with the newline that ends it.
pub fn change(bytes: &[u8]) -> Option<(Name, &[u8])>
    ensures { MatchOption result
        (StandsNone (λ (name : NameModel). hex name.bytes ++ 10 ∷ []) (λ _. Unit {0}) bytes.now)
        (λ read. bytes.now ≡ (hex read.0.bytes ++ 10 ∷ []) ++ read.1.now) }
{
    let (word, rest) = first_word(bytes);
    match rest.split_first() {
        None => None,
        Some((byte, _)) if *byte != b'\n' => None,
        Some((_, rest)) => match Name::read(word) {
            Some(name) => Some((name, rest)),
            None => None,
        },
    }
}

/// The length of a text that these digits write.
fn length_of(digits: &[u8]) -> Option<usize>
    ensures { (n : ℕ) → (result ≡ Some n) ↔ ((n ≤ 16777216) × (digits.now ≡ decimal n)) }
{
    let mut scan = Scan::new(digits);
    match scan.number() {
        None => None,
        Some(length) if length as usize > MOST_TEXT_BYTES => None,
        Some(length) if scan.rest().is_empty() => Some(length as usize),
        Some(_) => None,
    }
}

/// The length of a text, with the newline that ends it.
pub fn text_length(bytes: &[u8]) -> Option<(usize, &[u8])>
    ensures { MatchOption result
        (StandsNone (λ n. decimal n ++ 10 ∷ []) (λ n. n ≤ 16777216) bytes.now)
        (λ read. (read.0 ≤ 16777216) × (bytes.now ≡ (decimal read.0 ++ 10 ∷ []) ++ read.1.now)) }
{
    let (word, rest) = first_word(bytes);
    match rest.split_first() {
        None => None,
        Some((byte, _)) if *byte != b'\n' => None,
        Some((_, rest)) => match length_of(word) {
            Some(length) => Some((length, rest)),
            None => None,
        },
    }
}

/// So many bytes, with the newline that ends them.
pub fn text(bytes: &[u8], count: usize) -> Option<(&[u8], &[u8])>
    ensures { MatchOption result
        (StandsNone (λ (text : List ℕ). text ++ 10 ∷ []) (λ text. length text ≡ count) bytes.now)
        (λ read. (length read.0.now ≡ count) × (bytes.now ≡ (read.0.now ++ 10 ∷ []) ++ read.1.now)) }
{
    if bytes.len() <= count {
        return None;
    }
    if bytes[count] != b'\n' {
        return None;
    }
    let (text, behind) = bytes.split_at(count);
    let (_, rest) = behind.split_at(1);
    Some((text, rest))
}
