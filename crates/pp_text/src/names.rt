//! The form of names.

ghost use Rattle.std.specs.Prelude.{◌≡◌};
ghost use Rattle.std.specs.List.{list_all};
ghost use Rattle.pp_text.specs.Names.{is_name_byte, is_name};

/// Whether a name may have the byte: a small letter, a digit or the underscore.
fn is_name_byte(byte: u8) -> bool
    ensures { result ≡ is_name_byte byte }
{
    byte.is_ascii_lowercase() || byte.is_ascii_digit() || byte == b'_'
}

/// Whether a name may have all these bytes.
fn are_name_bytes(bytes: &[u8]) -> bool
    ensures { result ≡ list_all is_name_byte bytes.now }
{
    bytes.iter().all(|byte| is_name_byte(*byte))
}

/// Whether the text is a name of at most `most` bytes.
///
/// A name has one or more bytes of a-z, 0-9 and `_`, and begins with a letter.
pub fn is_name(most: usize, text: &str) -> bool
    ensures { result ≡ is_name most text.now }
{
    match text.as_bytes() {
        [] => false,
        [first, rest @ ..] => {
            first.is_ascii_lowercase() && rest.len() < most && are_name_bytes(rest)
        }
    }
}
