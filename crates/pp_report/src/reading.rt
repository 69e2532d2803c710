//! What a line of a journal says.

ghost use Rattle.std.specs.Prelude.{◌≡◌, option_map};
ghost use Rattle.pp_report.specs.Reading.{sides, leading, written_in, came_in, failure_in, asked_of, asked_after};
ghost use Rattle.pp_report.specs.Reading.{asked_in, told_alone, told_of, told_after, told_in, line_in};

use crate::line::{Asked, Line, Told};
use pp_model::{Came, Ending, Failure, Move, Reply};
use pp_text::{cut, number, small_number};

// ---- parts of a side

/// What stands before the first equals sign between spaces, and what follows it.
fn sides(text: &str) -> Option<(&str, &str)>
    ensures { option_map (λ p. (p.0.now, p.1.now)) result ≡ sides text.now }
{
    text.split_once(" = ")
}

/// The number before the first space, and what stands behind that space.
fn leading(text: &str) -> Option<(u32, &str)>
    ensures { option_map (λ p. (p.0, p.1.now)) result ≡ leading text.now }
{
    let (first, rest) = cut(text, ' ');
    Some((small_number(first)?, rest?))
}

/// How a writing went.
fn written_in(word: &str) -> Option<bool>
    ensures { result ≡ written_in word.now }
{
    match word {
        "ok" => Some(true),
        "bad" => Some(false),
        _ => None,
    }
}

/// What a device gave where it was asked to read.
fn came_in(text: &str) -> Option<Came>
    ensures { result ≡ came_in text.now }
{
    if text == "fault" {
        return Some(Came::Fault);
    }
    let (page, stamp) = leading(text)?;
    Some(Came::Image(page, number(stamp)?))
}

/// Why a fix failed.
fn failure_in(word: &str) -> Option<Failure>
    ensures { result ≡ failure_in word.now }
{
    match word {
        "write" => Some(Failure::WriteFault),
        "read" => Some(Failure::ReadFault),
        "misread" => Some(Failure::Misread),
        _ => None,
    }
}

// ---- what was asked

/// What the word asks with a worker, and this text behind it.
fn asked_of(word: &str, worker: u32, text: &str) -> Option<Asked>
    ensures { result ≡ asked_of word.now worker text.now }
{
    let did = match word {
        "fix" => Move::Fix {
            worker,
            page: small_number(text)?,
        },
        "choose" => Move::Choose {
            worker,
            branch: small_number(text)?,
        },
        "unwind" => Move::Unwind {
            worker,
            slot: small_number(text)?,
        },
        "wrote" => Move::WriteDone {
            worker,
            ok: written_in(text)?,
        },
        "came" => Move::ReadDone {
            worker,
            came: came_in(text)?,
        },
        _ => return None,
    };
    Some(Asked::Do(did))
}

/// What the word asks with this text behind it.
fn asked_after(word: &str, text: &str) -> Option<Asked>
    ensures { result ≡ asked_after word.now text.now }
{
    let did = match word {
        "submit" => return Some(Asked::Submit {
            plan: u64::from(small_number(text)?),
        }),
        "take" => Move::Take {
            worker: small_number(text)?,
        },
        "unfix" => Move::Unfix {
            worker: small_number(text)?,
        },
        "latch" => Move::Latch {
            worker: small_number(text)?,
        },
        "unlatch" => Move::Unlatch {
            worker: small_number(text)?,
        },
        "finish" => Move::Finish {
            worker: small_number(text)?,
        },
        "flush" => Move::FlushBegin {
            page: small_number(text)?,
        },
        "flushed" => Move::FlushDone {
            ok: written_in(text)?,
        },
        _ => {
            let (worker, rest) = leading(text)?;
            return asked_of(word, worker, rest);
        }
    };
    Some(Asked::Do(did))
}

/// What the text asks.
pub(crate) fn asked_in(text: &str) -> Option<Asked>
    ensures { result ≡ asked_in text.now }
{
    let (word, rest) = cut(text, ' ');
    asked_after(word, rest?)
}

// ---- what was told

/// What the word tells by itself.
fn told_alone(word: &str) -> Option<Told>
    ensures { result ≡ told_alone word.now }
{
    let reply = match word {
        "queued" => return Some(Told::Queued),
        "did" => Reply::Did,
        "done" => Reply::Finished(Ending::Done),
        "gone" => Reply::Finished(Ending::Gone),
        "clean" => Reply::Flushed { clean: true },
        "dirty" => Reply::Flushed { clean: false },
        _ => return None,
    };
    Some(Told::Answer(reply))
}

/// What the word tells with a frame, and this text behind it.
fn told_of(word: &str, frame: u32, text: &str) -> Option<Told>
    ensures { result ≡ told_of word.now frame text.now }
{
    let reply = match word {
        "hit" => Reply::Hit {
            frame,
            mark: number(text)?,
        },
        "mustwrite" => Reply::MustWrite {
            frame,
            victim: small_number(text)?,
        },
        _ => return None,
    };
    Some(Told::Answer(reply))
}

/// What the word tells with this text behind it.
fn told_after(word: &str, text: &str) -> Option<Told>
    ensures { result ≡ told_after word.now text.now }
{
    let reply = match word {
        "taken" => Reply::Taken {
            plan: u64::from(small_number(text)?),
        },
        "mustread" => Reply::MustRead {
            frame: small_number(text)?,
        },
        "failed" => Reply::Failed(failure_in(text)?),
        "loaded" => Reply::Loaded {
            mark: number(text)?,
        },
        "latched" => Reply::Latched {
            mark: number(text)?,
        },
        "unlatched" => Reply::Unlatched {
            mark: number(text)?,
        },
        "flushing" => Reply::Flushing {
            mark: number(text)?,
        },
        _ => {
            let (frame, rest) = leading(text)?;
            return told_of(word, frame, rest);
        }
    };
    Some(Told::Answer(reply))
}

/// What the text tells.
pub(crate) fn told_in(text: &str) -> Option<Told>
    ensures { result ≡ told_in text.now }
{
    let (word, rest) = cut(text, ' ');
    match rest {
        None => told_alone(word),
        Some(rest) => told_after(word, rest),
    }
}

// ---- a line

/// What the line says, if it is one of a journal.
pub(crate) fn line_in(text: &str) -> Option<Line>
    ensures { result ≡ line_in text.now }
{
    let (asked, told) = sides(text)?;
    Some(Line {
        asked: asked_in(asked)?,
        told: told_in(told)?,
    })
}
