//! Numbers, exactly as they are printed.

ghost use Rattle.std.specs.Prelude.{◌≡◌, ◌≢◌, IsTrue, ◌↔◌, length, slice_index};
ghost use Rattle.pp_text.specs.Numbers.{number_in, small_number};

/// Whether the word has no sign, and no zero before other digits.
fn is_plain(word: &str) -> bool
    ensures { IsTrue result
        ↔ ((slice_index word.now 0 ≢ 43) × (slice_index word.now 0 ≡ 48 → length word.now ≡ 1)) }
{
    let zeros = word.starts_with('0') && word.len() > 1;
    !zeros && !word.starts_with('+')
}

/// The number that prints as this word, if it has 64 bits.
pub fn number(word: &str) -> Option<u64>
    ensures { result ≡ number_in word.now }
{
    if is_plain(word) {
        word.parse().ok()
    } else {
        None
    }
}

/// The number that prints as this word, if it has 32 bits.
pub fn small_number(word: &str) -> Option<u32>
    ensures { result ≡ small_number word.now }
{
    u32::try_from(number(word)?).ok()
}
