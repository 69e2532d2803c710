//! Whose move is next, in the words of a journal.

use pp_core::Core;
use pp_explain_text::{region_name, slot_name};
use pp_locate::front;
use pp_model::{Cause, Delay, Move, Reply, Turn};
use pp_plan::{Ask, Mode, Plan};
use pp_report::worker_of;
use pp_settings::Settings;
use pp_settings::limits::MOST_SLOTS;
use std::alloc::{AllocError, Global};

/// A pool to which the lines before a fault were done.
#[derive(Clone, Copy)]
pub(crate) struct Pool<'a, 'b> {
    pub(crate) settings: &'a Settings,
    pub(crate) core: &'b Core,
    /// The plan of the worker that is spoken of. Where it isn't known, slots go by their numbers.
    pub(crate) plan: Option<&'b Plan>,
}

impl Pool<'_, '_> {
    /// The move of the turn, as in `` `fix 0 PAGE`, a page of region leaf into slot a ``.
    pub(crate) fn turn_text(
        &self,
        alloc: Global,
        turn: Option<Turn>,
    ) -> Result<String, AllocError> {
        match turn {
            None => String::from_str(alloc, "nothing is left to do"),
            Some(Turn::FlushDevice) => {
                String::from_str(alloc, "next is `flushed ok` or `flushed bad`")
            }
            Some(Turn::Take(worker)) => format!(in alloc; "next is `take {worker}`"),
            Some(Turn::Device(worker)) => device_text(alloc, self.core, worker),
            Some(Turn::Act(worker)) => {
                let asked = self.asked_text(alloc, worker)?;
                format!(in alloc; "next is {asked}")
            }
        }
    }

    /// Why the move isn't done there, what its worker is at, and what it holds.
    pub(crate) fn move_text(&self, alloc: Global, did: Move) -> Result<String, AllocError> {
        let mover = worker_of(did);
        let why = match self.core.refusal(&did) {
            Some(Reply::NotNow(delay)) => delay_text(delay),
            Some(Reply::OffPlan(cause)) => {
                cause_text(self.core, mover.unwrap_or(u32::MAX), cause)
            }
            _ => "the pool refuses it",
        };
        let Some(worker) = mover else {
            return String::from_str(alloc, why);
        };
        if self.core.ask(worker).is_none() && !self.core.is_leaving(worker) {
            return String::from_str(alloc, why);
        }
        let asked = self.asked_text(alloc, worker)?;
        let held = self.held_text(alloc, worker)?;
        format!(in alloc; "{why}; worker {worker} is at {asked}, and {held}")
    }

    /// What the worker's plan asks, or that it is left.
    fn asked_text(&self, alloc: Global, worker: u32) -> Result<String, AllocError> {
        if self.core.is_leaving(worker) {
            return format!(in alloc;
                "`unwind {worker} SLOT` for each slot held, and `finish {worker}`"
            );
        }
        match self.core.ask(worker) {
            Some(ask) => self.ask_text(alloc, worker, ask),
            None => format!(in alloc; "a move of worker {worker}"),
        }
    }

    /// What the plan asks of the worker.
    fn ask_text(&self, alloc: Global, worker: u32, ask: Ask) -> Result<String, AllocError> {
        match ask {
            Ask::Fix { slot, region } => {
                let region = region_name(self.settings, region);
                let slot = self.slot_text(alloc, "slot ", slot)?;
                format!(in alloc; "`fix {worker} PAGE`, a page of region {region} into {slot}")
            }
            Ask::Gather { slot, region } => {
                let region = region_name(self.settings, region);
                let slot = self.slot_text(alloc, "bundle ", slot)?;
                format!(in alloc; "`fix {worker} PAGE`, a page of region {region} into {slot}")
            }
            Ask::Choose { branches } => {
                format!(in alloc; "`choose {worker} BRANCH`, a branch below {branches}")
            }
            Ask::End => format!(in alloc; "`finish {worker}`"),
            ask => {
                let (word, slot, how) = move_of(ask);
                let slot = self.slot_text(alloc, "", slot)?;
                format!(in alloc; "`{word} {worker}` of {slot}{how}")
            }
        }
    }

    /// What the worker holds, as in `it holds a (page 3), b (page 16, latched X)`.
    fn held_text(&self, alloc: Global, worker: u32) -> Result<String, AllocError> {
        let mut text = String::new(alloc);
        for slot in 0..MOST_SLOTS {
            self.push_held(alloc, &mut text, worker, slot)?;
        }
        if text.is_empty() {
            return String::from_str(alloc, "it holds nothing");
        }
        let text = front(alloc, text.as_str())?;
        format!(in alloc; "it holds{text}")
    }

    /// Adds what the slot holds.
    fn push_held(
        &self,
        alloc: Global,
        text: &mut String,
        worker: u32,
        slot: u8,
    ) -> Result<(), AllocError> {
        let comma = if text.is_empty() { "" } else { "," };
        if let Some((page, held)) = self.core.held(worker, u32::from(slot)) {
            let name = self.slot_text(alloc, "", slot)?;
            return match held.text() {
                "-" => write!(text, "{comma} {name} (page {page})"),
                mode => write!(text, "{comma} {name} (page {page}, latched {mode})"),
            };
        }
        let pins = self.core.gathered(worker, u32::from(slot));
        if pins > 0 {
            let name = self.slot_text(alloc, "", slot)?;
            write!(text, "{comma} {name} ({pins} pages)")?;
        }
        Ok(())
    }

    /// The slot by its name, with this word before it; or by its number.
    fn slot_text(&self, alloc: Global, kind: &str, slot: u8) -> Result<String, AllocError> {
        match self.plan {
            Some(plan) => {
                let name = slot_name(plan, slot);
                format!(in alloc; "{kind}{name}")
            }
            None => format!(in alloc; "slot {slot}"),
        }
    }
}

/// The answers of the device that the worker waits for.
fn device_text(alloc: Global, core: &Core, worker: u32) -> Result<String, AllocError> {
    match core.errand(worker) {
        Some((_, _, Some(victim))) => format!(in alloc;
            "next is `wrote {worker} ok` or `wrote {worker} bad`, of page {victim}"
        ),
        Some((_, page, None)) => format!(in alloc;
            "next is `came {worker} {page} STAMP` or `came {worker} fault`"
        ),
        None => format!(in alloc; "next is the device, for worker {worker}"),
    }
}

/// The word of a move of one slot, the slot, and how it is latched.
fn move_of(ask: Ask) -> (&'static str, u8, &'static str) {
    match ask {
        Ask::Latch {
            slot,
            mode: Mode::S,
        } => ("latch", slot, " in mode S"),
        Ask::Latch { slot, .. } => ("latch", slot, " in mode X"),
        Ask::Unlatch { slot } => ("unlatch", slot, ""),
        Ask::Unfix { slot } | Ask::Scatter { slot } => ("unfix", slot, ""),
        Ask::Fix { slot, .. } | Ask::Gather { slot, .. } => ("fix", slot, ""),
        Ask::Choose { .. } | Ask::End => ("finish", 0, ""),
    }
}

/// Why a move isn't possible now.
fn delay_text(delay: Delay) -> &'static str {
    match delay {
        Delay::NothingWaiting => "no plan waits to be taken",
        Delay::NoRoom => {
            "the peak of the first plan that waits doesn't fit beside the peaks of those that run"
        }
        Delay::InFlight => "the page is on its way from the device, or to it",
        Delay::FlushHolds =>
            "no page can leave its frame: each is held, on its way, or being flushed",
        Delay::LatchHeld => "the page is latched by another worker",
        Delay::FlushBusy => "another flush isn't over",
    }
}

/// Why a move of the worker has no place there.
fn cause_text(core: &Core, worker: u32, cause: Cause) -> &'static str {
    match cause {
        Cause::NoWorker => "the settings have no such worker",
        Cause::NotIdle => "the worker has a plan",
        Cause::NotActing if core.is_idle(worker) => "the worker has no plan",
        Cause::NotActing if core.is_leaving(worker) =>
            "the worker leaves its plan, since a fix failed",
        Cause::NotActing => "the worker waits for the device",
        Cause::NotAsked => "its plan asks something else, or a page of another region",
        Cause::NoErrand => "no such answer of the device is awaited",
        Cause::NotLeaving => "the worker doesn't leave its plan",
        Cause::NotHeld => "the slot holds no page",
        Cause::NotEnded if core.is_leaving(worker) =>
            "a slot of the plan that is left is held still",
        Cause::NotEnded => "its plan isn't at its end",
        Cause::NotDirty => "the page isn't cached, or the device has it as it is",
        Cause::NoFlushLeft => "all flushes of the settings were begun",
    }
}
