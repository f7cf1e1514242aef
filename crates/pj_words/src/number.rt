//! Words that are numbers.
ghost use Rattle.std.specs.Prelude.{◌≡◌, ◌<◌, IfSome};
ghost use Rattle.pj_words.specs.Words.{mode_of as mode_in, number_of as number_in, octal_digit as octal_digit_in};

use pj_scan::Scan;

/// The number below 2 ^ 32 that a word is, in decimal digits without leading zeros. `None` for every other word.
pub fn number_of(word: &str) -> Option<u32>
    ensures { result ≡ number_in word.now }
{
    let mut scan = Scan::new(word.as_bytes());
    let number = scan.number()?;
    if scan.rest().is_empty() {
        Some(number)
    } else {
        None
    }
}

/// The digit from 0 to 7 that a byte is.
fn octal_digit(byte: u8) -> Option<u32>
    ensures digit { result ≡ octal_digit_in byte }
    ensures small { IfSome result (λ digit. digit < 8) }
{
    if b'0' <= byte && byte <= b'7' {
        Some(u32::from(byte - b'0'))
    } else {
        None
    }
}

/// The mode of a file that a word is, as `chmod` takes it: three octal digits. `None` for every other word.
pub(crate) fn mode_of(word: &str) -> Option<u32>
    ensures { result ≡ mode_in word.now }
{
    match word.as_bytes() {
        [user, group, others] => {
            let user = octal_digit(*user)?;
            let group = octal_digit(*group)?;
            let others = octal_digit(*others)?;
            Some(64 * user + 8 * group + others)
        }
        _ => None,
    }
}
