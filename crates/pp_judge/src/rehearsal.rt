//! Playing a script over a pool, from the bytes of files.

ghost use Rattle.std.specs.Prelude.{◌≡◌, map, string_bytes};
ghost use Rattle.pp_text.specs.Steps.{Gives};
ghost use Rattle.pp_judge.specs.Judgement.{script_in, staged_in};
ghost use Rattle.pp_judge.specs.Answers.{Rehearses};
ghost use Rattle.pp_judge.specs.Steps.{is_want_of_memory, same};

use crate::contents::SimulateFiles;
use crate::error::JudgeError;
use crate::judgement::settings_in;
use crate::workload::accepted_all;
use pp_script::{Script, ScriptError};
use pp_simulate::simulate;
use std::alloc::Global;
use std::str;

/// Reads the settings, the script and the plans, in this order, makes each plan's certificate and checks it before the
/// next plan, and plays the script over a new pool with these plans.
///
/// # Errors
///
/// The first refusal in that order; then that of the first plan that the pool does not take in. A script whose bytes are
/// not UTF-8 is refused at its first line.
pub fn rehearse(alloc: Global, files: SimulateFiles<'_>) -> Result<String, JudgeError>
    ensures { Rehearses (staged_in files.entry.settings.now files.entry.script.now
        (map (λ plan. plan.items) files.entry.plans.now)) result }
{
    let settings = settings_in(alloc, files.settings)?;
    let script = script_in(alloc, files.script)?;
    let plans = accepted_all(alloc, &settings, files.plans)?;
    Ok(simulate(alloc, &settings, plans, script)?)
}

/// The script that the bytes spell.
fn script_in(alloc: Global, bytes: &[u8]) -> Result<Script, JudgeError>
    ensures { Gives is_want_of_memory same result (script_in bytes.now) }
{
    let Ok(text) = str::from_utf8(bytes) else {
        return Err(JudgeError::Script(ScriptError::NotACue(1)));
    };
    Ok(Script::from_text(alloc, text)?)
}
