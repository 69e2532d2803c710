//! Lines of segments: a head, a plan that is taken in, and a move with what was told of it.

ghost use Rattle.std.specs.Prelude.{◌≡◌, Some, IfSome};

use crate::reading::line_in;
use pp_model::Move;
use pp_report::Told;
use std::fmt;

/// A line of a segment of a journal. What a move is told need not go with it.
#[derive(Clone, Copy, Debug, PartialEq, Eq)]
pub enum SegmentLine {
    /// A segment begins, as in `segment 1 = 2`: its number, from 0, and how many plans were submitted before it.
    Head { segment: u64, plans_before: u64 },
    /// The plan of this number, from 0 through all segments, is taken in, as in `submit 2 0 = queued`. It is the
    /// prepared plan of that number, from 0. No other reply is told of it.
    Submit { plan: u64, prepared: u32 },
    /// A move, and what was told of it, as in `fix 0 16 = mustread 1`.
    Step { did: Move, told: Told },
}

impl fmt::Display for SegmentLine {
    ghost use Rattle.pp_segments.specs.Lines.{line_words};

    ghost output = { λ line. Some (line_words line) };

    fn fmt<W: fmt::Write>(&self, f: &mut fmt::Formatter<W>) -> fmt::Result {
        match self {
            SegmentLine::Head {
                segment,
                plans_before,
            } => write!(f, "segment {segment} = {plans_before}"),
            SegmentLine::Submit { plan, prepared } => write!(
                f,
                "submit {plan} {prepared} = queued"
            ),
            SegmentLine::Step { did, told } => write!(f, "{did} = {told}"),
        }
    }
}

impl SegmentLine {
    ghost use Rattle.pp_segments.specs.declared.line.SegmentLine.{SegmentLine};
    ghost use Rattle.pp_segments.specs.Lines.{Says};
    ghost use Rattle.pp_segments.specs.Reading.{line_in};

    /// Reads a line, without its line feed.
    ///
    /// None where the text isn't exactly the words of one: other words, numbers out of their ranges or with leading
    /// zeros, and refusals are no line, and neither is the `submit` of a journal, which names no prepared plan.
    ///
    /// The number of a plan is below 2^64 wherever it stands.
    ///
    /// Whether a move and what is told of it go together isn't asked: `fix 0 1 = did` is a line. But a `submit` has
    /// one reply: with any but `queued` it is no line.
    pub fn from_text(text: &str) -> Option<SegmentLine>
        // What is read is spelled so.
        ensures found { IfSome result (Says text.now) }
        // What is spelled so is read.
        ensures only { (line : SegmentLine) → Says text.now line → result ≡ Some line }
        // The same as a function of the text.
        ensures exact { result ≡ line_in text.now }
    {
        line_in(text)
    }
}
