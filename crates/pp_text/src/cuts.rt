//! Texts in parts: the lines of a text, and the words of a line.

ghost use Rattle.std.specs.Prelude.{◌≡◌, ◌∷◌, ◌≤◌, ◌<◌, IfSome, length, option_map};
ghost use Rattle.pp_text.specs.Parts.{parts, later_parts, ahead, behind};

/// The text before the first such character, and what follows that character, if the text has one.
pub fn cut(text: &str, separator: char) -> (&str, Option<&str>)
    requires { separator < 128 }
    ensures parts { parts separator text.now ≡ result.0.now ∷ later_parts separator result.1 }
    ensures ahead { result.0.now ≡ ahead separator text.now }
    ensures behind { option_map (λ rest. rest.now) result.1 ≡ behind separator text.now }
    ensures first { length result.0.now ≤ length text.now }
    ensures shorter { IfSome result.1 (λ rest. length rest.now < length text.now) }
{
    match text.split_once(separator) {
        Some((first, rest)) => (first, Some(rest)),
        None => (text, None),
    }
}
