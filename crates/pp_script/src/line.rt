//! What a line of a script says.

ghost use Rattle.std.specs.Prelude.{◌≡◌, ◌∷◌};
ghost use Rattle.pp_script.specs.Lines.{words};
ghost use Rattle.pp_script.specs.Reading.{alone, with_one, with_two, with_three};
ghost use Rattle.pp_script.specs.Reading.{after_two, after_one, after_word, line_in};

use crate::cue::Cue;
use pp_device::Trouble;
use pp_text::{cut, number, small_number};

/// What a line says.
#[derive(Clone, Copy)]
pub(crate) enum Line {
    /// Nothing.
    Blank,
    /// A cue.
    Cued(Cue),
    /// A trouble, at the call of the device with this number.
    Planted(u32, Trouble),
}

/// What the word says by itself.
fn alone(word: &str) -> Option<Line>
    ensures { result ≡ alone word.now }
{
    match word {
        "" => Some(Line::Blank),
        "flushdevice" => Some(Line::Cued(Cue::FlushDevice)),
        _ => None,
    }
}

/// What the word says with one number after it.
fn with_one(word: &str, n: u32) -> Option<Line>
    ensures { result ≡ with_one word.now n }
{
    match word {
        "take" => Some(Line::Cued(Cue::Take { worker: n })),
        "device" => Some(Line::Cued(Cue::Device { worker: n })),
        "unfix" => Some(Line::Cued(Cue::Unfix { worker: n })),
        "latch" => Some(Line::Cued(Cue::Latch { worker: n })),
        "unlatch" => Some(Line::Cued(Cue::Unlatch { worker: n })),
        "finish" => Some(Line::Cued(Cue::Finish { worker: n })),
        "flush" => Some(Line::Cued(Cue::Flush { page: n })),
        "fail" if n > 0 => Some(Line::Planted(n, Trouble::Fail)),
        _ => None,
    }
}

/// What the word says with two numbers after it.
fn with_two(word: &str, worker: u32, n: u32) -> Option<Line>
    ensures { result ≡ with_two word.now worker n }
{
    match word {
        "fix" => Some(Line::Cued(Cue::Fix { worker, page: n })),
        "choose" => Some(Line::Cued(Cue::Choose { worker, branch: n })),
        "unwind" => Some(Line::Cued(Cue::Unwind { worker, slot: n })),
        "look" => Some(Line::Cued(Cue::Look { worker, slot: n })),
        _ => None,
    }
}

/// What the word says with three numbers after it.
fn with_three(word: &str, first: u32, second: u32, third: u64) -> Option<Line>
    ensures { result ≡ with_three word.now first second third }
{
    match word {
        "write" => {
            let byte = u8::try_from(third).ok()?;
            Some(Line::Cued(Cue::Write {
                worker: first,
                slot: second,
                byte,
            }))
        }
        "lie" if first > 0 => Some(Line::Planted(first, Trouble::Lie(second, third))),
        _ => None,
    }
}

/// What the word says with two numbers and the words of this text after it.
#[tactic(auto, using(crate::proofs::Words::after_two_more))]
fn after_two(word: &str, first: u32, second: u32, text: &str) -> Option<Line>
    ensures { result ≡ after_two word.now first second (words text.now) }
{
    let (third, rest) = cut(text, ' ');
    match rest {
        None => with_three(word, first, second, number(third)?),
        Some(_) => None,
    }
}

/// What the word says with one number and the words of this text after it.
#[tactic(auto, using(crate::proofs::Words::after_one_more))]
fn after_one(word: &str, first: u32, text: &str) -> Option<Line>
    ensures { result ≡ after_one word.now first (words text.now) }
{
    let (second, rest) = cut(text, ' ');
    let second = small_number(second)?;
    match rest {
        None => with_two(word, first, second),
        Some(rest) => after_two(word, first, second, rest),
    }
}

/// What the word says with the words of this text after it.
#[tactic(auto, using(crate::proofs::Words::after_word_more))]
fn after_word(word: &str, text: &str) -> Option<Line>
    ensures { result ≡ after_word word.now (words text.now) }
{
    let (first, rest) = cut(text, ' ');
    let first = small_number(first)?;
    match rest {
        None => with_one(word, first),
        Some(rest) => after_one(word, first, rest),
    }
}

/// What the line says, if it is a line of a script.
#[tactic(auto, using(crate::proofs::Words::line_in_more))]
pub(crate) fn line_in(text: &str) -> Option<Line>
    ensures { result ≡ line_in (words text.now) }
{
    let (word, rest) = cut(text, ' ');
    match rest {
        None => alone(word),
        Some(rest) => after_word(word, rest),
    }
}
