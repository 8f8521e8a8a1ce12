//! The forms of names: `specs/Roster`.
ghost use Rattle.std.specs.Prelude.{◌≡◌};
ghost use Rattle.std.specs.List.{list_all};
ghost use Rattle.nms_quote.specs.Roster.{is_name_char, is_symbol_char, is_part_name, is_symbol_name};

/// Whether a name may be a participant's: 1 to 4 of A to Z and 0 to 9. This product's own rule.
pub fn is_part_name(name: &[u8]) -> bool
    ensures { result ≡ is_part_name name.now }
{
    !name.is_empty() && name.len() <= 4 && are_name_chars(name)
}

/// Whether a name may be a symbol's: 1 to 8 of A to Z, 0 to 9 and the point. This product's own rule.
pub fn is_symbol_name(name: &[u8]) -> bool
    ensures { result ≡ is_symbol_name name.now }
{
    !name.is_empty() && name.len() <= 8 && are_symbol_chars(name)
}

fn are_name_chars(text: &[u8]) -> bool
    ensures { result ≡ list_all is_name_char text.now }
{
    text.iter().all(|c| is_name_char(*c))
}

fn are_symbol_chars(text: &[u8]) -> bool
    ensures { result ≡ list_all is_symbol_char text.now }
{
    text.iter().all(|c| is_symbol_char(*c))
}

fn is_name_char(c: u8) -> bool
    ensures { result ≡ is_name_char c }
{
    c.is_ascii_uppercase() || c.is_ascii_digit()
}

fn is_symbol_char(c: u8) -> bool
    ensures { result ≡ is_symbol_char c }
{
    is_name_char(c) || c == b'.'
}
