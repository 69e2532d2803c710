//! Scripts.

ghost use Rattle.std.specs.Prelude.{◌≡◌, ◌≢◌, ◌<◌, ℕ, [], Ok, Err, IfOk, IfErr, OnOk, length};
ghost use Rattle.pp_device.specs.declared.failing.Trouble.{Trouble};
ghost use Rattle.pp_text.specs.Steps.{Gives};
ghost use Rattle.pp_script.specs.declared.line.Line.TheVariants.{Blank};
ghost use Rattle.pp_script.specs.declared.error.ScriptError.TheVariants.{NotACue, OutOfMemory};
ghost use Rattle.pp_script.specs.Scripts.{Scenario, Spells, IsFirstWrong, TellsFirst};
ghost use Rattle.pp_script.specs.Reading.{reading, after_line};
ghost use Rattle.pp_script.specs.Refusals.{is_script_memory};

use crate::cue::Cue;
use crate::error::ScriptError;
use crate::line::{Line, line_in};
use pp_device::Trouble;
use pp_text::cut;
use std::alloc::Global;
use std::marker::Model;

/// A script: its cues, and the troubles of the device, each in the order of its lines.
#[derive(Debug)]
pub struct Script {
    cues: Vec<Cue>,
    troubles: Vec<(u32, Trouble)>,
}

// By hand, so that code that lets one go calls this, and doesn't let each field go anew.
impl Drop for Script {
    fn drop(self) {
        let Script {
            cues: _,
            troubles: _,
        } = self;
    }
}

impl Model for Script {
    ghost use Rattle.pp_script.specs.Scripts.{Scenario};

    ghost Value = { Scenario };

    ghost view = { λ s. record { cues = s.cues.items; troubles = s.troubles.items } };
}

impl Script {
    /// Reads a script.
    ///
    /// Each line is empty, spells a cue, or spells a trouble of the device: `fail N` or `lie N PAGE STAMP`. Words are
    /// parted by one space, and numbers are decimal without leading zeros. The last line feed may be missing. Two
    /// troubles may have one call: a [`pp_device::Failing`] takes the later one.
    ///
    /// # Errors
    ///
    /// `NotACue` with the number of the first other line, from 1. `OutOfMemory` if memory runs out before.
    pub fn from_text(alloc: Global, text: &str) -> Result<Script, ScriptError>
        // What is accepted is spelled so: each line, each cue and each trouble, and nothing else stands in the text.
        ensures found { IfOk result (Spells text.now) }
        // What is spelled so is accepted, unless memory runs out.
        ensures only { (s : Scenario) → Spells text.now s
            → Gives is_script_memory (λ (s : Scenario). s) result (Ok s) }
        // A refusal tells the first line that is wrong, unless memory ran out.
        ensures first { IfErr result (TellsFirst text.now) }
        // A text with a wrong line is refused, and the first one is told, unless memory runs out before.
        ensures refused { (n : ℕ) → IsFirstWrong text.now n
            → Gives is_script_memory (λ (s : Scenario). s) result (Err (NotACue n)) }
        // The same as a function of the text.
        ensures exact { Gives is_script_memory (λ (s : Scenario). s) result (reading text.now) }
        // Memory is never wanted for an empty text.
        ensures memory { result ≡ Err OutOfMemory → 0 < length text.now }
    {
        Script::read(alloc, text)
    }

    /// The cues, and the troubles of the device with the numbers of their calls, each in the order of their lines.
    pub fn into_parts(self) -> (Vec<Cue>, Vec<(u32, Trouble)>)
        ensures cues { result.0.items ≡ self.cues }
        ensures troubles { result.1.items ≡ self.troubles }
    {
        let Script { cues, troubles } = self;
        (cues, troubles)
    }

    /// A script with nothing in it.
    fn new(alloc: Global) -> Script
        ensures { result ≡ record { cues = []; troubles = [] } }
    {
        Script {
            cues: Vec::new(alloc),
            troubles: Vec::new(alloc),
        }
    }

    /// Puts what one more line says at the end.
    fn add(&mut self, line: Line) -> Result<(), ScriptError>
        ensures added { OnOk result (self.new ≡ after_line self.old line) }
        // Memory is wanted only where the line says something.
        ensures memory { IfErr result (λ e. (e ≡ OutOfMemory) × (line ≢ Blank)) }
    {
        match line {
            Line::Blank => {}
            Line::Cued(cue) => self.cues.push(cue)?,
            Line::Planted(call, trouble) => self.troubles.push((call, trouble))?,
        }
        Ok(())
    }

    /// Reads the script, line by line.
    #[tactic(auto, using(crate::proofs::Words::said_some))]
    fn read(alloc: Global, text: &str) -> Result<Script, ScriptError>
        ensures gives { Gives is_script_memory (λ (s : Scenario). s) result (reading text.now) }
        ensures memory { result ≡ Err OutOfMemory → 0 < length text.now }
    {
        let mut script = Script::new(alloc);
        let mut number = 0;
        let mut left = Some(text);
        while let Some(text) = left {
            let (line, rest) = cut(text, '\n');
            number += 1;
            script.add(line_in(line).ok_or(ScriptError::NotACue(number))?)?;
            left = rest;
        }
        Ok(script)
    }
}
