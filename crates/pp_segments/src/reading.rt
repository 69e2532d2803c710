//! What a line of a segment says.

ghost use Rattle.std.specs.Prelude.{◌≡◌, option_map};
ghost use Rattle.pp_report.specs.Reading.{sides};
ghost use Rattle.pp_segments.specs.Reading.{head_in, submit_in, move_in, answered_in, step_in, line_from, line_in};

use crate::line::SegmentLine;
use pp_model::{Move, Reply};
use pp_report::{Asked, Told};
use pp_text::{cut, number, small_number};

/// What stands before the first equals sign between spaces, and what follows it.
fn sides(text: &str) -> Option<(&str, &str)>
    ensures { option_map (λ p. (p.0.now, p.1.now)) result ≡ sides text.now }
{
    text.split_once(" = ")
}

/// The head of the segment that has this number, behind so many plans.
fn head_in(segment: &str, plans_before: &str) -> Option<SegmentLine>
    ensures { result ≡ head_in segment.now plans_before.now }
{
    Some(SegmentLine::Head {
        segment: number(segment)?,
        plans_before: number(plans_before)?,
    })
}

/// The submit of the plan and the prepared plan that have these numbers, where it is told that the plan waits.
fn submit_in(numbers: &str, told: &str) -> Option<SegmentLine>
    ensures { result ≡ submit_in numbers.now told.now }
{
    if told != "queued" {
        return None;
    }
    let (plan, prepared) = cut(numbers, ' ');
    Some(SegmentLine::Submit {
        plan: number(plan)?,
        prepared: small_number(prepared?)?,
    })
}

/// The move that the text asks.
fn move_in(text: &str) -> Option<Move>
    ensures { result ≡ move_in text.now }
{
    let asked = Asked::from_text(text)?;
    match asked {
        Asked::Do(did) => Some(did),
        Asked::Submit { .. } => None,
    }
}

/// What the text tells of a move. The number of a plan has 64 bits here, and in a journal 32.
fn answered_in(text: &str) -> Option<Told>
    ensures { result ≡ answered_in text.now }
{
    let (word, plan) = cut(text, ' ');
    if word != "taken" {
        return Told::from_text(text);
    }
    let plan = number(plan?)?;
    Some(Told::Answer(Reply::Taken { plan }))
}

/// The move and what is told of it.
fn step_in(asked: &str, told: &str) -> Option<SegmentLine>
    ensures { result ≡ step_in asked.now told.now }
{
    Some(SegmentLine::Step {
        did: move_in(asked)?,
        told: answered_in(told)?,
    })
}

/// What a line says that has these two sides.
fn line_from(asked: &str, told: &str) -> Option<SegmentLine>
    ensures { result ≡ line_from asked.now told.now }
{
    let (word, rest) = cut(asked, ' ');
    match word {
        "segment" => head_in(rest?, told),
        "submit" => submit_in(rest?, told),
        _ => step_in(asked, told),
    }
}

/// What the line says, if it is one of a segment.
pub(crate) fn line_in(text: &str) -> Option<SegmentLine>
    ensures { result ≡ line_in text.now }
{
    let (asked, told) = sides(text)?;
    line_from(asked, told)
}
