//! Words that are known.

ghost use Rattle.std.specs.Prelude.{IfOk, IfSome};
ghost use Rattle.std.specs.List.{Contains};
ghost use Rattle.pp_locate.specs.Words.{texts};

use std::alloc::{AllocError, Global};
use strsim::osa_distance;

/// How many bytes a word has at most that is compared with known ones. Those have 32 at most (a region's name), and to
/// compare takes time by the product of both lengths.
const LONGEST: usize = 40;

/// How many words a list shows: with more, it would hide what is said of it.
const SHOWN: usize = 16;

/// How many bytes it shows: as many as of one text.
const SHOWN_BYTES: usize = 100;

/// The words with commas between them; two dots stand for those behind the sixteenth, and behind 100 bytes.
pub fn listed(alloc: Global, words: &[&str]) -> Result<String, AllocError> {
    let mut text = String::new(alloc);
    for (place, word) in words.iter().enumerate() {
        if place > 0 {
            text.push_str(", ")?;
        }
        if place == SHOWN || text.len().saturating_add(word.len()) > SHOWN_BYTES {
            text.push_str("..")?;
            return Ok(text);
        }
        text.push_str(word)?;
    }
    Ok(text)
}

/// The known word that is nearest to this one, where at most a third of the letters is another or
/// changed places with its neighbour.
#[tactic(auto, using(crate::proofs::Known::among))]
pub fn nearest<'k>(
    alloc: Global,
    word: &str,
    known: &[&'k str],
) -> Result<Option<&'k str>, AllocError>
    ensures { IfOk result (λ found. IfSome found (λ other. Contains (texts known.entry.now) other.now)) }
{
    let mut found = None;
    let mut least = usize::MAX;
    if word.len() > LONGEST {
        return Ok(None);
    }
    for other in known {
        let edits = osa_distance(alloc, word, other)?;
        if edits <= word.len().max(other.len()) / 3 && edits < least {
            found = Some(*other);
            least = edits;
        }
    }
    Ok(found)
}

/// A question for the known word that is nearest, or nothing.
pub fn hint(alloc: Global, word: &str, known: &[&str]) -> Result<String, AllocError> {
    match nearest(alloc, word, known)? {
        Some(other) => format!(in alloc; "; did you mean {other:?}?"),
        None => Ok(String::new(alloc)),
    }
}
