//! Which bytes are lower-case hex digits.

ghost use Rattle.std.specs.Prelude.{◌↔◌, IsTrue};
ghost use Rattle.std.specs.List.{AllPass};
ghost use Rattle.pj_name.specs.Name.{is_lower_hex_digit};

/// Whether each byte is one of `0` to `9` and `a` to `f`.
pub fn is_lower_hex(text: &[u8]) -> bool
    ensures { IsTrue result ↔ AllPass is_lower_hex_digit text.now }
{
    text.iter()
        .all(|digit| matches!(*digit, b'0'..=b'9' | b'a'..=b'f'))
}
