//! The words of an audit of segments in two parts: the front, which `clap` reads, and the files behind `--`.

ghost use Rattle.std.specs.Prelude.{◌≡◌, ◌≤◌, ◌-◌, drop, false, length, map, take, true, IfNone, IfSome};
ghost use Rattle.std.specs.List.{list_any, position_or_len};
ghost use Rattle.pp_words.specs.CommandLine.{file_words, front_words, is_dashes, is_segments_flag, wants_segments};

use std::convert::AsStr;

/// The front and the files of words that ask for an audit of segments, the program's name first. None where they ask
/// for something else.
pub fn front_and_files<'a, S: AsStr>(words: &'a [S]) -> Option<(&'a [S], &'a [S])>
    ensures none { IfNone result (wants_segments (map S.text words.entry.now) ≡ false) }
    ensures some { IfSome result (λ parts. wants_segments (map S.text words.entry.now) ≡ true) }
    ensures front { IfSome result (λ parts. map S.text parts.0.now ≡ front_words (map S.text words.entry.now)) }
    ensures files { IfSome result (λ parts. map S.text parts.1.now ≡ file_words (map S.text words.entry.now)) }
{
    let (_name, others) = words.split_first()?;
    let (command, rest) = others.split_first()?;
    if command.as_str() != "audit" {
        return None;
    }
    let (before, behind) = rest.split_at(end_of(rest));
    if !has_flag(before) {
        return None;
    }
    Some((without_last(words, behind.len()), without_first(behind)))
}

/// Where the first `--` stands, or how many words there are.
fn end_of<S: AsStr>(words: &[S]) -> usize
    ensures place { result ≡ position_or_len is_dashes (map S.text words.now) }
    ensures within { result ≤ length words.now }
{
    words
        .iter()
        .position(|word| word.as_str() == "--")
        .unwrap_or(words.len())
}

/// Whether one of the words is the flag of an audit of segments.
fn has_flag<S: AsStr>(words: &[S]) -> bool
    ensures { result ≡ list_any is_segments_flag (map S.text words.now) }
{
    words.iter().any(|word| word.as_str() == "--segments")
}

/// The words but for so many at their end.
fn without_last<S>(words: &[S], count: usize) -> &[S]
    requires { count ≤ length words.now }
    ensures { result.now ≡ take (length words.now - count) words.now }
{
    &words[..words.len() - count]
}

/// The words but for the first one, if there is one.
fn without_first<S>(words: &[S]) -> &[S]
    ensures { result.now ≡ drop 1 words.now }
{
    if words.is_empty() { words } else { &words[1..] }
}
