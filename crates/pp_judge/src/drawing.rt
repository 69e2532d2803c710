//! Drawing a journal, from the bytes of files.

ghost use Rattle.std.specs.Prelude.{map};
ghost use Rattle.pp_text.specs.Steps.{Gives};
ghost use Rattle.pp_judge.specs.Answers.{Draws};
ghost use Rattle.pp_judge.specs.Judgement.{audited_in, workload_in};
ghost use Rattle.pp_judge.specs.Steps.{is_want_of_memory};

use crate::contents::DrawFiles;
use crate::error::JudgeError;
use crate::workload::Workload;
use pp_draw::{Picture, Scene, scene_of};
use pp_report::AuditError;
use pp_settings::Settings;
use std::alloc::{AllocError, Global};

/// What is drawn, and the settings of the run.
#[derive(Drop)]
struct View {
    settings: Settings,
    scene: Scene,
}

/// Reads the settings and the plans as `audit` does, and draws the journal where it is a true one of these plans, to their
/// end: an SVG text, which ends with a line feed.
///
/// # Errors
///
/// Exactly those of an audit of the same files.
pub fn draw(alloc: Global, files: DrawFiles<'_>) -> Result<String, JudgeError>
    // A picture where an audit accepts the journal, and else its refusal, unless memory ran out.
    ensures { Draws (audited_in files.entry.settings.now files.entry.journal.now
        (map (λ plan. plan.items) files.entry.plans.now)) result }
{
    let view = view_of(alloc, files)?;
    let picture = Picture {
        settings: &view.settings,
        scene: &view.scene,
        names: files.names,
    };
    match format!(in alloc; "{picture}") {
        Ok(text) => Ok(text),
        Err(AllocError) => Err(JudgeError::Audit(AuditError::OutOfMemory)),
    }
}

/// What is drawn of the files.
fn view_of(alloc: Global, files: DrawFiles<'_>) -> Result<View, JudgeError>
    ensures { Gives is_want_of_memory (λ view. view.scene.lines) result
        (audited_in files.entry.settings.now files.entry.journal.now (map (λ plan. plan.items) files.entry.plans.now)) }
{
    let Workload { settings, plans } = Workload::read(alloc, files.settings, files.plans)?;
    let scene = scene_of(alloc, &settings, plans, files.journal)?;
    Ok(View { settings, scene })
}
