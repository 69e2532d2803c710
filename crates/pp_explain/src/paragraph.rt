//! The form of an explanation.

ghost use Rattle.std.specs.Prelude.{◌≡◌, ◌++◌, IfOk, codes};
ghost use Rattle.pp_explain.specs.Paragraphs.{IsParagraph, few_lines};

use pp_locate::{Said, Spot};
use pp_shown::{ShownLines, ShownPath};
use std::alloc::{AllocError, Global};

/// How many line feeds a paragraph has at most before its last one: so one is five lines long at most, whatever bytes a path
/// or a text brings.
const FEEDS: usize = 4;

/// The paragraph of what is said of the file at this path.
pub(crate) fn paragraph(alloc: Global, path: &str, said: &Said) -> Result<Vec<u8>, AllocError>
    ensures { IfOk result (λ bytes. IsParagraph path.now bytes.items) }
{
    let text = match said.spot {
        Some(Spot { line, column }) => format!(in alloc; ":{line}:{column}: {}", said.text)?,
        None => format!(in alloc; ": {}", said.text)?,
    };
    told(alloc, path, text.as_str())
}

/// The path as it is shown, the text as its lines are shown, and a line feed.
fn told(alloc: Global, path: &str, text: &str) -> Result<Vec<u8>, AllocError>
    ensures { IfOk result (λ bytes. IsParagraph path.now bytes.items) }
{
    let (path, text) = (ShownPath(path), ShownLines(text));
    let shown = format!(in alloc; "{path}")?;
    let lines = format!(in alloc; "{text}")?;
    let bytes = joined(alloc, shown.as_str(), lines.as_str())?;
    Ok(bytes)
}

/// The path, few of the lines, and a line feed.
fn joined(alloc: Global, path: &str, lines: &str) -> Result<Vec<u8>, AllocError>
    ensures { IfOk result (λ bytes. bytes.items ≡ path.now ++ few_lines FEEDS lines.now ++ codes "\n") }
{
    let few = few_lines(alloc, lines.as_bytes())?;
    let mut bytes = Vec::new(alloc);
    bytes.extend_from_slice(path.as_bytes())?;
    bytes.extend_from_slice(&few)?;
    bytes.push(b'\n')?;
    Ok(bytes)
}

/// The text, in which each line feed behind the fourth is a space.
fn few_lines(alloc: Global, text: &[u8]) -> Result<Vec<u8>, AllocError>
    ensures { IfOk result (λ bytes. bytes.items ≡ few_lines FEEDS text.now) }
{
    let mut bytes = Vec::new(alloc);
    let mut feeds = FEEDS;
    for byte in text {
        if *byte != b'\n' {
            bytes.push(*byte)?;
        } else if feeds == 0 {
            bytes.push(b' ')?;
        } else {
            bytes.push(b'\n')?;
            feeds -= 1;
        }
    }
    Ok(bytes)
}
