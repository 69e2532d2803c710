//! A ledger with its tokens, the plans that it keeps, and a device.

ghost use Rattle.std.specs.Prelude.{◌≡◌, Some};
ghost use Rattle.pp_pool.specs.Flushings.{IsFlush};
ghost use Rattle.pp_vault.specs.Stages.{stage_worker};

use crate::picks::Picks;
use crate::seat::Seat;
use pp_device::{Failing, SoloDevice, Trouble};
use pp_ledger::{Ledger, LedgerError, Segment};
use pp_pool::{Flusher, Turned, Worker};
use pp_settings::{Layout, Settings};
use pp_test_plain::{Chance, all_accepted};
use pp_vault::{Accepted, Hands, Prepared};
use std::alloc::Global;
use std::mem;

/// A device in memory whose calls with some numbers fail or lie.
pub type Disk = Failing<SoloDevice>;

/// An endless pool on one thread: a ledger, its tokens, the plans that it keeps, and the device that all call.
///
/// The compiler refuses code that lets it fall: it is given up by [`Stand::end`].
pub struct Stand {
    pub ledger: Ledger,
    hands: Hands,
    /// None while a worker or the flusher has it.
    disk: Option<Disk>,
    plans: Vec<Prepared>,
    /// From which page on the next flush is sought.
    from: u32,
    layout: Layout,
    page_bytes: u32,
    alloc: Global,
    ghost of_flush: { IsFlush hands.flushing },
}

/// A device with an image of each page of the settings, and these troubles.
fn disk_of(
    alloc: Global,
    settings: &Settings,
    troubles: Vec<(u32, Trouble)>,
) -> anyhow::Result<Disk> {
    let memory = SoloDevice::new(alloc, settings.pages(), settings.page_bytes() as usize)?;
    Ok(Failing::new(memory, troubles))
}

/// Has the ledger keep the plans.
fn prepare(
    alloc: Global,
    ledger: &mut Ledger,
    plans: Vec<Accepted>,
) -> anyhow::Result<Vec<Prepared>> {
    let mut prepared = Vec::new(alloc);
    for plan in plans {
        match ledger.prepare(plan) {
            Ok(place) => prepared.push(place)?,
            Err((_plan, error)) => anyhow::bail!("a plan isn't prepared: {error}"),
        }
    }
    Ok(prepared)
}

impl Stand {
    /// A pool of these settings, whose life is endless, with room for so many events in its first segment. It keeps the
    /// plans of these texts, and its device has these troubles.
    ///
    /// # Errors
    ///
    /// Where the life of the settings is bounded, a plan isn't accepted, or memory runs out.
    pub fn new(
        alloc: Global,
        settings: &Settings,
        texts: &[&str],
        troubles: Vec<(u32, Trouble)>,
        room: usize,
    ) -> anyhow::Result<Stand> {
        if settings.see_bounded().is_ok() {
            anyhow::bail!("the life of the settings is bounded");
        }
        let plans = all_accepted(alloc, settings, texts)?;
        let disk = disk_of(alloc, settings, troubles)?;
        let (mut ledger, hands) = Ledger::new(alloc, settings, room)?;
        match prepare(alloc, &mut ledger, plans) {
            Ok(plans) => Ok(Stand {
                ledger,
                hands,
                disk: Some(disk),
                plans,
                from: 0,
                layout: settings.layout(),
                page_bytes: settings.page_bytes(),
                alloc,
            }),
            Err(error) => {
                let _segment = ledger.close(hands);
                Err(error)
            }
        }
    }

    /// Submits the plan that was prepared at this place, and answers its number.
    ///
    /// # Errors
    ///
    /// As [`Ledger::submit`]'s, where it keeps a plan at this place. Else none is submitted: `NotPrepared`.
    pub fn submit(&mut self, place: usize) -> Result<u64, LedgerError> {
        match self.plans.get(place) {
            Some(prepared) => Ok(self.ledger.submit(*prepared)?.number()),
            None => Err(LedgerError::Refused(pp_vault::SubmitError::NotPrepared)),
        }
    }

    /// The worker takes so many turns, one behind the other, and tells how the last one ended. What is by chance in its
    /// plans this chance decides.
    ///
    /// Where there is no such worker it is broken, and nothing was asked.
    pub fn work(&mut self, worker: u32, turns: u32, chance: &mut Chance) -> Turned {
        let Some(disk) = self.disk.take() else {
            return Turned::Broken;
        };
        let Some(hand) = self.hands.part(worker) else {
            self.disk = Some(disk);
            return Turned::Broken;
        };
        let seat = Seat {
            ledger: &mut self.ledger,
        };
        let mut at_work = Worker::over(self.alloc, seat, disk, hand, self.layout, self.page_bytes);
        let turned = take_turns(&mut at_work, turns, &mut Picks { chance });
        let (_seat, disk, hand, _log) = at_work.end();
        self.disk = Some(disk);
        match self.hands.join(hand) {
            Ok(()) => turned,
            Err(_) => unreachable!(),
        }
    }

    /// The flusher takes a turn, and tells how it ended.
    pub fn flush(&mut self) -> Turned {
        let Some(disk) = self.disk.take() else {
            return Turned::Broken;
        };
        let flushing = self.hands.flushing.take();
        let seat = Seat {
            ledger: &mut self.ledger,
        };
        let mut flusher = Flusher {
            site: seat,
            device: disk,
            flushing,
            ended: 0,
            failed: 0,
            from: self.from,
        };
        let turned = flusher.turn();
        let Flusher {
            site: _seat,
            device: disk,
            flushing,
            ended: _,
            failed: _,
            from,
        } = flusher;
        self.disk = Some(disk);
        self.from = from;
        match mem::replace(&mut self.hands.flushing, flushing) {
            None => turned,
            Some(_) => unreachable!(),
        }
    }

    /// Takes the present segment out, and goes on in a new one that has room for so many events.
    ///
    /// # Errors
    ///
    /// Where it has room for none, or memory runs out. Nothing has changed.
    pub fn take_segment(&mut self, room: usize) -> anyhow::Result<Segment> {
        let empty = Segment::with_room(self.alloc, room)?;
        match self.ledger.take_segment(empty) {
            Ok(segment) => Ok(segment),
            Err(_empty) => anyhow::bail!("the ledger doesn't go on in a segment for {room} events"),
        }
    }

    /// Gives all up but the present segment.
    pub fn end(self) -> Segment {
        let Stand {
            ledger,
            hands,
            disk: _disk,
            plans: _plans,
            from: _,
            layout: _,
            page_bytes: _,
            alloc: _,
        } = self;
        ledger.close(hands)
    }
}

/// The worker takes so many turns, and tells how the last one ended.
fn take_turns(worker: &mut Worker<Seat<'_>, Disk>, turns: u32, picks: &mut Picks<'_>) -> Turned
    ensures { stage_worker worker.new.hand.stage ≡ stage_worker worker.old.hand.stage }
{
    let mut turned = Turned::Broken;
    for _ in 0..turns {
        turned = worker.turn(picks);
    }
    turned
}
