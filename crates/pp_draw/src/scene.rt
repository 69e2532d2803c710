//! What a picture shows of a run.

ghost use Rattle.std.specs.Prelude.{◌≡◌, ◌≤◌, IfOk, replicate, true};
ghost use Rattle.pp_settings.specs.declared.span.Span.TheVariants.{Bounded};
ghost use Rattle.pp_text.specs.Steps.{Gives};
ghost use Rattle.pp_report.specs.Auditing.{auditing, outset};
ghost use Rattle.pp_report.specs.Journals.{journal_lines};
ghost use Rattle.pp_report.specs.Refusals.{is_audit_memory};
ghost use Rattle.pp_draw.specs.Counted.{AreTotals, turns_from};
ghost use Rattle.pp_draw.specs.Drawing.{AreDrawn};

use crate::column::Column;
use crate::extent::Extent;
use crate::tally::Tally;
use crate::walk::Walk;
use pp_cert::Accepted;
use pp_report::AuditError;
use pp_settings::Settings;
use std::alloc::Global;

/// What a picture shows of a run.
#[derive(Drop)]
pub struct Scene {
    /// How many lines the journal has.
    pub lines: u64,
    /// How it is cut into columns.
    pub extent: Extent,
    /// The columns, in the order of their lines.
    pub columns: Vec<Column>,
    /// Its figures, and the turns of workers at plans.
    pub tally: Tally,
}

impl Scene {
    /// Whether a column stands for several lines.
    pub(crate) fn is_wide(&self) -> bool {
        self.extent.width > 1
    }
}

/// The scene of a journal of these plans under the settings, by which a life must be bounded ([`Settings::see_bounded`]).
///
/// It goes over the text once for its size and once line by line, as an audit does, and beside the text it wants the memory of
/// a core and of the columns, of which there are at most 4,000.
///
/// # Errors
///
/// Exactly those of [`pp_report::audit`]; `OutOfMemory` before all these.
pub fn scene_of(
    alloc: Global,
    settings: &Settings,
    plans: Vec<Accepted>,
    journal: &[u8],
) -> Result<Scene, AuditError>
    requires { settings.now.span ≡ Bounded }
    // The verdict of an audit: how many lines a true journal has, or the first fault.
    ensures exact { Gives is_audit_memory (λ scene. scene.lines) result
        (auditing settings.now plans.items journal.now) }
    // Each column shows the model's state behind its last line, of all the lines before.
    ensures drawn { IfOk result (λ scene. AreDrawn scene.extent (outset settings.now plans.items) 0
        (journal_lines journal.now) scene.columns.items) }
    // Each figure of a report but the dirty pages is what a report counts of the events that the lines tell.
    ensures totals { IfOk result (λ scene. AreTotals scene.tally.totals (journal_lines journal.now)) }
    // There is a turn for each take, from its line to the line of the worker's next finish.
    ensures turns { IfOk result (λ scene. scene.tally.turns.items ≡ turns_from 1 (journal_lines journal.now)) }
    // All workers have a lane, and where there are at most 64 frames, each has a row.
    ensures workers { IfOk result (λ scene. scene.extent.workers ≡ settings.now.workers) }
    ensures rows { IfOk result (λ scene. settings.now.frames ≤ 64
        → scene.extent.drawn.items ≡ replicate settings.now.frames true) }
{
    let extent = Extent::of(alloc, settings, journal)?;
    let mut walk = Walk::new(alloc, settings, plans)?;
    let lines = walk.pass_all(alloc, &extent, journal)?;
    Ok(Scene {
        lines,
        extent,
        columns: walk.columns,
        tally: walk.tally,
    })
}
