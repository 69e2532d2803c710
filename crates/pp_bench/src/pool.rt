//! Plays a trace to a vault over pages in memory, on one thread: each operation begins a reading of a page, looks at eight
//! bytes of it, and ends the reading. Or it plays the trace in two lives of one vault.

ghost use Rattle.std.specs.Prelude.{◌≡◌, ◌≤◌, true, IfOk};
ghost use Rattle.pp_vault.specs.Stages.{is_idle_hand, AllIdle};

use crate::disk::{self, Disk};
use crate::trouble::Trouble;
use crate::watch::{self, Counted, Watch};
use crate::words;
use pp_bench_traces::{FRAMES, Kind, PAGES, Trace};
use pp_device::{Device, SoloDevice};
use pp_settings::Settings;
use pp_vault::{
    Accepted, Answered, Chair, Errand, Fixed, Guard, Hand, Hands, PinGuard, ReadGuard, Session,
    Stage, Stopped, Vault,
};
use std::alloc::Global;

/// A vault, the device of its pages, and how many page numbers lie between two that follow each other in a trace.
#[derive(Drop)]
struct Pool {
    vault: Vault,
    device: Disk,
    apart: u32,
}

/// Plays the trace of the kind that the first word names, as many operations long as the second says, to a pool of
/// 4,096 frames. Prints how many pages had to be read, and on standard error how many nanoseconds an operation took.
pub fn play(rt: &HostRuntime, words: &[String]) -> Result<(), Trouble> {
    let (kind, ops) = words::kind_and_ops(words)?;
    let alloc = rt.alloc();
    let settings = pp_bench_traces::settings(alloc, 1)?;
    let device = device_of(alloc, &settings)?;
    let (misses, nanos) = run(rt, &settings, device, 1, Trace::new(kind, FRAMES), ops)?;
    watch::tell(rt, Counted::One(misses), nanos, ops, "an operation")
}

/// The same with a vault of the size that the other words say, over a device that keeps no page. The pages of the trace lie evenly
/// among all page numbers.
pub fn play_large(rt: &HostRuntime, words: &[String]) -> Result<(), Trouble> {
    let played = words.len().min(2);
    let (kind, ops) = words::kind_and_ops(&words[..played])?;
    let size = words::size(&words[played..])?;
    let settings = pp_bench_traces::settings_of(rt.alloc(), size)?;
    let apart = (size.pages / PAGES).max(1);
    let trace = Trace::new(kind, size.frames);
    let (misses, nanos) = run(rt, &settings, Disk::numbered(), apart, trace, ops)?;
    watch::tell(rt, Counted::One(misses), nanos, ops, "an operation")
}

/// Plays the trace in one life, and then again in the next. Prints how many pages had to be read in each, and on standard
/// error how many nanoseconds the renewal between them took.
pub fn play_lives(rt: &HostRuntime, words: &[String]) -> Result<(), Trouble> {
    let (kind, ops) = words::kind_and_ops(words)?;
    let Lives { cold, warm, nanos } = run_lives(rt, kind, ops)?;
    watch::tell(rt, Counted::Two(cold, warm), nanos, 1, "the renewal")
}

/// Two lives of a vault: how many pages each of them read, and how many nanoseconds the renewal between them took.
#[derive(Drop)]
struct Lives {
    cold: u64,
    warm: u64,
    nanos: Option<u128>,
}

/// How many pages are read in so many operations of the trace, and how many nanoseconds the operations took.
fn run(
    rt: &HostRuntime,
    settings: &Settings,
    device: Disk,
    apart: u32,
    trace: Trace,
    ops: u64,
) -> Result<(u64, Option<u128>), Trouble> {
    let alloc = rt.alloc();
    let accepted = pp_bench_traces::accepted(alloc, settings, ops)?;
    let (mut pool, mut hands) = pool_of(alloc, settings, device, apart)?;
    let watch = Watch::start(rt);
    let played = match hands.part(0) {
        Some(hand) => pool.play(chair_of(hand), accepted, trace, ops),
        None => Err(Stopped::with_nothing()),
    };
    let nanos = watch.nanos(rt);
    let misses = pool.end(hands, played)?;
    Ok((misses, nanos))
}

/// What two lives read that play a trace of this kind, with so many operations each.
fn run_lives(rt: &HostRuntime, kind: Kind, ops: u64) -> Result<Lives, Trouble> {
    let alloc = rt.alloc();
    let settings = pp_bench_traces::settings(alloc, 1)?;
    let first = pp_bench_traces::accepted(alloc, &settings, ops)?;
    let second = pp_bench_traces::accepted(alloc, &settings, ops)?;
    let device = device_of(alloc, &settings)?;
    let (mut pool, mut hands) = pool_of(alloc, &settings, device, 1)?;
    let played = match hands.part(0) {
        Some(hand) => pool.play_twice(rt, chair_of(hand), (first, second), kind, ops),
        None => Err(Stopped::with_nothing()),
    };
    pool.end(hands, played)
}

/// A pool of these settings over this device, for which pages of a trace lie so far apart, and its hands.
fn pool_of(
    alloc: Global,
    settings: &Settings,
    device: Disk,
    apart: u32,
) -> Result<(Pool, Hands), Trouble>
    ensures { IfOk result (λ made. AllIdle settings.now.workers made.1.workers) }
{
    match Vault::new(alloc, settings) {
        Ok((vault, hands)) => Ok((
            Pool {
                vault,
                device,
                apart,
            },
            hands,
        )),
        Err(_) => Err(Trouble::Memory),
    }
}

/// The chair of an idle worker's hand.
fn chair_of(hand: Hand) -> Chair
    requires { is_idle_hand hand ≡ true }
{
    match hand.chair() {
        Ok(chair) => chair,
        Err(_) => unreachable!(),
    }
}

/// A device of all pages of these settings, in memory.
pub fn device_of(alloc: Global, settings: &Settings) -> Result<Disk, Trouble> {
    let pages = numbered(alloc, settings.pages(), settings.page_bytes() as usize)?;
    Ok(Disk::over(pages))
}

/// A device of so many pages, each of so many bytes, with the number of each page at the front of its body.
fn numbered(alloc: Global, pages: u32, page_bytes: usize) -> Result<SoloDevice, Trouble>
    requires { 64 ≤ page_bytes }
{
    let mut device = SoloDevice::new(alloc, pages, page_bytes)?;
    let mut bytes = vec![in alloc; 0; page_bytes]?;
    for page in 0..pages {
        let _is_made = disk::make(&mut bytes, page);
        device.write(page, &bytes).map_err(|_| Trouble::Refused)?;
    }
    Ok(device)
}

impl Pool {
    /// Gives the vault up with what the worker has, and tells what was played.
    fn end<T: Drop>(self, hands: Hands, played: Result<(Chair, T), Stopped>) -> Result<T, Trouble> {
        let Pool {
            vault,
            device: _device,
            apart: _,
        } = self;
        match played {
            Ok((chair, told)) => {
                vault.scrap_with(hands, Stopped::at(Stage::Idle(chair)));
                Ok(told)
            }
            Err(stopped) => {
                vault.scrap_with(hands, stopped);
                Err(Trouble::Refused)
            }
        }
    }

    /// Has a worker do the first plan on the trace, renews the vault, and has it do the second plan on the same trace.
    fn play_twice(
        &mut self,
        rt: &HostRuntime,
        chair: Chair,
        (first, second): (Accepted, Accepted),
        kind: Kind,
        ops: u64,
    ) -> Result<(Chair, Lives), Stopped> {
        let (chair, cold) = self.play(chair, first, Trace::new(kind, FRAMES), ops)?;
        let watch = Watch::start(rt);
        let renewed = self.vault.renew();
        let nanos = watch.nanos(rt);
        if renewed.is_err() {
            return Err(Stopped::at(Stage::Idle(chair)));
        }
        let (chair, warm) = self.play(chair, second, Trace::new(kind, FRAMES), ops)?;
        Ok((chair, Lives { cold, warm, nanos }))
    }

    /// Has a worker do the plan on the trace, and tells how many pages were read. Where a call is refused, what the
    /// worker has then comes back.
    fn play(
        &mut self,
        chair: Chair,
        accepted: Accepted,
        trace: Trace,
        ops: u64,
    ) -> Result<(Chair, u64), Stopped> {
        if self.vault.submit(accepted).is_err() {
            return Err(Stopped::at(Stage::Idle(chair)));
        }
        let session = match self.vault.take(chair) {
            Ok((session, _done)) => session,
            Err((chair, _refusal)) => return Err(Stopped::at(Stage::Idle(chair))),
        };
        let (session, misses) = self.misses(session, trace, ops)?;
        match self.vault.finish(session) {
            Ok((chair, _done)) => Ok((chair, misses)),
            Err((session, _refusal)) => Err(Stopped::at(Stage::In(session))),
        }
    }

    /// How many of the next operations of the trace have a page read.
    fn misses(
        &mut self,
        session: Session,
        mut trace: Trace,
        ops: u64,
    ) -> Result<(Session, u64), Stopped> {
        let mut session = session;
        let mut count: u64 = 0;
        for _ in 0..ops {
            let page = trace.next_page().wrapping_mul(self.apart);
            let (now, was_cached) = self.look_at(session, page)?;
            if !was_cached {
                count = count.wrapping_add(1);
            }
            session = now;
        }
        Ok((session, count))
    }

    /// Reads the page and looks at it, and tells whether it was cached.
    fn look_at(&mut self, session: Session, page: u32) -> Result<(Session, bool), Stopped> {
        let (session, guard, was_cached) = self.read(session, page)?;
        if !self.is_numbered(&guard) {
            return Err(Stopped::holding(Stage::In(session), Guard::Read(guard)));
        }
        let session = self.end_read(session, guard)?;
        Ok((session, was_cached))
    }

    /// Begins a reading of the page, and tells whether it was cached. What isn't possible at once is made by a fix and a latch.
    fn read(&mut self, session: Session, page: u32) -> Result<(Session, ReadGuard, bool), Stopped> {
        match self.vault.read(session, page) {
            Ok((session, guard, _frame)) => Ok((session, guard, true)),
            Err(session) => {
                let (session, guard, was_cached) = self.fix(session, page)?;
                let (session, guard) = self.latch(session, guard)?;
                Ok((session, guard, was_cached))
            }
        }
    }

    /// Fixes the page, and tells whether it was cached.
    fn fix(&mut self, session: Session, page: u32) -> Result<(Session, PinGuard, bool), Stopped> {
        let (fixed, _done) = match self.vault.fix(session, page) {
            Ok(fixed) => fixed,
            Err((session, _refusal)) => return Err(Stopped::at(Stage::In(session))),
        };
        match fixed {
            Fixed::Got(session, guard) => Ok((session, guard, true)),
            Fixed::Opened(session, guard) => Err(Stopped::holding(
                Stage::In(session),
                Guard::Bundle(guard),
            )),
            Fixed::Joined(session) => Err(Stopped::at(Stage::In(session))),
            Fixed::Away(errand) => {
                let (session, guard) = self.load(errand)?;
                Ok((session, guard, false))
            }
        }
    }

    /// Has the device read a page.
    fn load(&mut self, errand: Errand) -> Result<(Session, PinGuard), Stopped> {
        let (answered, _done) = match self.vault.answer(errand.carry_out(&mut self.device)) {
            Ok(answered) => answered,
            Err((returned, _refusal)) => return Err(Stopped::at(Stage::Back(returned))),
        };
        match answered {
            Answered::Got(session, guard) => Ok((session, guard)),
            Answered::Opened(session, guard) => Err(Stopped::holding(
                Stage::In(session),
                Guard::Bundle(guard),
            )),
            Answered::Joined(session) => Err(Stopped::at(Stage::In(session))),
            Answered::Away(errand) => Err(Stopped::at(Stage::Out(errand))),
            Answered::Lost(leaver) => Err(Stopped::at(Stage::Leaving(leaver))),
            Answered::Flushed(_) => Err(Stopped::with_nothing()),
        }
    }

    fn latch(
        &mut self,
        session: Session,
        guard: PinGuard,
    ) -> Result<(Session, ReadGuard), Stopped> {
        match self.vault.latch_shared(session, guard) {
            Ok((session, guard, _done)) => Ok((session, guard)),
            Err((session, guard, _refusal)) => Err(Stopped::holding(
                Stage::In(session),
                Guard::Pin(guard),
            )),
        }
    }

    /// Ends a reading.
    fn end_read(&mut self, session: Session, guard: ReadGuard) -> Result<Session, Stopped> {
        match self.vault.end_read(session, guard) {
            Ok((session, _mark)) => Ok(session),
            Err((session, guard)) => Err(Stopped::holding(Stage::In(session), Guard::Read(guard))),
        }
    }

    /// Whether the page has its number at the front of its body.
    fn is_numbered(&self, guard: &ReadGuard) -> bool {
        disk::is_at_front(self.vault.see(guard), u64::from(guard.page()))
    }
}
