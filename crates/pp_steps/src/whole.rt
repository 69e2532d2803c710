//! The whole: its end, and how it stands.

ghost use Rattle.std.specs.Prelude.{◌≡◌, ◌≢◌, ◌<◌, ℕ, None, Some, IfOk, IfErr, length, slice_get, ◌≤◌};
ghost use Rattle.pp_model.specs.Pool.{State, dirty_pages};
ghost use Rattle.pp_vault.specs.StandsFor.{StandsFor};
ghost use Rattle.pp_hall.specs.Closing.{IsDirtyPage, IsListed};
ghost use Rattle.pp_hall.specs.Calls.{StatsAre};
ghost use Rattle.pp_steps.specs.declared.error.WhyOpen.TheVariants.{InUse, StillDirty};
ghost use Rattle.pp_steps.specs.Ending.{Stops, WhyOpenIs, IsHome};
ghost use Rattle.pp_steps.specs.Parts.{AreSeated};

use crate::error::WhyOpen;
use crate::homing::{park, park_flusher};
use crate::rings::Rings;
use crate::seated::Seated;
use crate::seats::{Place, Seats};
use crate::site::{KeptHall, spend};
use crate::steps::Steps;
use pp_hall::Stats;

impl Steps {
    /// Nobody starts any more, from now on.
    pub fn stop(&mut self) -> Rings
        ensures { Stops self.old result self.new }
    {
        let told = self.hall.stop();
        self.rings(told)
    }

    /// Whether nobody starts any more.
    pub fn is_stopped(&self) -> bool
        ensures { result ≡ self.now.hall.waiters.is_stopped }
    {
        self.hall.is_stopped()
    }

    /// What was counted, and how things stand.
    pub fn stats(&self) -> Stats
        ensures { StatsAre self.now.hall result }
    {
        self.hall.stats()
    }

    /// Writes the pages that are newer than the device's into the slice, each with its mark, as far as it goes: from page 0 on. Tells how
    /// many it wrote.
    pub fn dirty_pages(&self, into: &mut [(u32, u64)]) -> usize
        ensures few { result ≤ length into.old }
        ensures each { (k page mark : ℕ) → k < result → slice_get into.new k ≡ Some (page, mark)
            → IsDirtyPage self.now.hall.seating.vault page mark }
        ensures all { result < length into.old
            → (page mark : ℕ) → IsDirtyPage self.now.hall.seating.vault page mark → IsListed result into.new page mark }
    {
        self.hall.dirty_pages(into)
    }

    /// Why it can't be closed now, if it can't.
    pub fn why_open(&self) -> Option<WhyOpen>
        ensures { WhyOpenIs self.now result }
    {
        if !self.seats.is_empty() || self.flusher.is_some() {
            return Some(WhyOpen::InUse);
        }
        if self.hall.stats().dirty != 0 {
            return Some(WhyOpen::StillDirty);
        }
        None
    }

    /// Ends it, where nobody runs, the flusher is home, and no page is newer than the device's. What was counted comes back.
    ///
    /// # Errors
    ///
    /// It comes back as it was.
    pub fn close(self) -> Result<Stats, (WhyOpen, Steps)>
        ensures ok { IfOk result (λ stats. IsHome self × StatsAre self.hall stats × (stats.dirty ≡ 0)) }
        ensures error { IfErr result (λ e. WhyOpenIs self (Some e.0)) }
        ensures back { IfErr result (λ e. e.1 ≡ self) }
    {
        match self.why_open() {
            Some(why) => Err((why, self)),
            None => {
                self.hall.known();
                let stats = self.stats();
                let _lost = self.abandon();
                Ok(stats)
            }
        }
    }

    /// Gives it up as it is, whoever waits or runs. Tells how many pages were newer than the device's: what they had is lost.
    pub fn abandon(self) -> u32
        ensures { (s : State) → StandsFor self.hall.seating.vault s → result ≡ dirty_pages s }
    {
        let Steps {
            mut hall,
            plans: _plans,
            line: _line,
            seats,
            flushed: _,
            flusher,
        } = self;
        if let Some(flusher) = flusher {
            park_flusher(&mut hall, flusher);
        }
        end_all(&mut hall, seats);
        let (_devices, lost) = Box::into_inner(hall).abandon();
        lost
    }
}

/// Brings all home that run, whatever they have in hand.
fn end_all(hall: &mut KeptHall, seats: Seats<Seated>)
    requires { AreSeated hall.old.value seats }
    ensures { hall.new.value.seating.vault ≡ hall.old.value.seating.vault }
{
    let Seats { mut places } = seats;
    while let Some(place) = places.pop() {
        let Place { turn: _, seated } = place;
        if let Some(seated) = seated {
            spend(park(hall, seated));
        }
    }
    places.destroy_empty();
}
