//! A worker: it runs plans, one request a turn.

ghost use Rattle.std.specs.Prelude.{◌≡◌, ◌<◌, ◌≤◌, ◌+◌, ◌==◌, if◌then◌else◌, ◌++◌, ◌⊎◌, ℕ, max, true, false, [], None, OnOk, OnErr, IfOk, length};
ghost use Rattle.pp_vault.specs.Stages.{is_chair, stage_worker};
ghost use Rattle.pp_settings.specs.Settings.{geometry_of};
ghost use Rattle.pp_pool.specs.declared.turned.Turned.TheVariants.{Broken};
ghost use Rattle.pp_pool.specs.Turns.{TurnIs, TurnOf, TurnsBehind, MakesOne, MakesRoom, room_of, reach_of, worker_with, Uses, LooksAt};
ghost use Rattle.pp_pool.specs.Turns.{IsLong, IsReach, all_bytes, end_of, ReworksIf, Tells};
ghost use Rattle.pp_pool.specs.Turns.{page_called as called_page};
ghost use Rattle.pp_pool.specs.Lent.{off_next};
ghost use Rattle.pp_pool.specs.Turns.{KeepsPlace, keeps_place, logged_events, IsWorkers, FindsPlace};
ghost use Rattle.pp_pool.specs.ShortTurns.{Comes, ComesTold};
ghost use Rattle.pp_pool.specs.Turns.{has_errand as errand_is_there, turned_by as turned_then};

use crate::asked::next;
use crate::held::{Room, first_exclusive, is_exclusive};
use crate::lending::lend;
use crate::reading::read_on;
use crate::request::Request;
use crate::response::{BookAnswer, Response};
use crate::site::{SHORTEST, Site};
use crate::taken::stage_after;
use crate::turned::Turned;
use crate::work::{End, Work};
use core::mem;
use pp_device::{Device, image};
use pp_journal::Journal;
use pp_model::{Ending, Event, Move, Reply};
use pp_plan::Ask;
use pp_settings::{Layout, Settings};
use pp_vault::{Delay, Guards, Hand, ReadGuard, Refusal, Session, Stage};
use std::alloc::{AllocError, Global};

/// What a worker keeps beside its tokens, from one turn to the next.
struct Kept {
    // How far the work reaches, where it was asked that before the hold of the lock in which it is shown the page.
    reach: Option<usize>,
    // Room for the pages that are latched X, where the work is lent them. There is none before a plan is taken.
    room: Room,
    // How the plan that is being left ends, since a call of the device failed in it. None in a plan, and where the tokens were
    // those of a plan that was being left already.
    end: Option<End>,
}

/// A worker with its tokens, the site where it asks, the device that it calls, and a log of what it did.
pub struct Worker<S, D> {
    /// Where it asks.
    pub site: S,
    /// What it reads from and writes to.
    pub device: D,
    /// Its tokens.
    pub hand: Hand,
    /// The events of its moves, the first of them first.
    pub log: Journal,
    /// Where the regions of the plans lie.
    pub layout: Layout,
    /// How many bytes a page has.
    pub page_bytes: u32,
    // Room for one page; the front of it has what was shown last. Empty before a plan is taken.
    seen: Vec<u8>,
    kept: Kept,
    alloc: Global,
}

impl<S: Site, D: Device> Worker<S, D> {
    /// A worker with these tokens, which has done nothing. It takes no memory yet.
    pub fn new(alloc: Global, site: S, device: D, hand: Hand, settings: &Settings) -> Worker<S, D>
        ensures site { result.site ≡ site }
        ensures device { result.device ≡ device }
        ensures hand { result.hand ≡ hand }
        ensures log { result.log.items ≡ [] }
        ensures layout { result.layout ≡ geometry_of settings.now }
        ensures page_bytes { result.page_bytes ≡ settings.now.page_bytes }
        ensures room { room_of result ≡ 0 }
        ensures reach { reach_of result ≡ None }
        ensures end { end_of result ≡ None }
    {
        Worker::over(
            alloc,
            site,
            device,
            hand,
            settings.layout(),
            settings.page_bytes(),
        )
    }

    /// The same, with what a worker wants of the settings: the layout, and how many bytes a page has. A thread can take
    /// these along.
    ///
    /// The bytes should be as many as the site's pages have. With fewer, its work is shown no more than so many; where a look
    /// wants more than a page has, or so many are fewer than 64, the turn ends as [`Turned::Broken`].
    pub fn over(
        alloc: Global,
        site: S,
        device: D,
        hand: Hand,
        layout: Layout,
        page_bytes: u32,
    ) -> Worker<S, D>
        ensures site { result.site ≡ site }
        ensures device { result.device ≡ device }
        ensures hand { result.hand ≡ hand }
        ensures log { result.log.items ≡ [] }
        ensures layout { result.layout ≡ layout }
        ensures page_bytes { result.page_bytes ≡ page_bytes }
        ensures room { room_of result ≡ 0 }
        ensures reach { reach_of result ≡ None }
        ensures end { end_of result ≡ None }
    {
        Worker {
            site,
            device,
            hand,
            log: Journal::new(alloc),
            layout,
            page_bytes,
            seen: Vec::new(alloc),
            kept: Kept {
                reach: None,
                room: Room::closed(alloc),
                end: None,
            },
            alloc,
        }
    }

    /// Makes one request: what the worker's plan asks, what a device that was called has answered, or, where the worker
    /// is idle, a plan. With an errand in hand it calls the device once before; else it makes no call of the device.
    ///
    /// The event of the request, if it is done, comes into the log. Before it takes a plan the worker gets room for one
    /// image, in its log for as many events as the dearest of all plans can make, and for the pages that the work is lent, if it
    /// wants them ([`Work::rework`]); where that can't be had, the answer is [`Turned::NoMemory`] and nothing was done. A log that is full all the same, as it was taken out or replaced
    /// meanwhile, gets room for one event, if there is memory.
    ///
    /// An errand in hand never waits. Its call is made, and what came back is sent, also where the log gets no room; then the
    /// log lacks the event, and the answer is [`Turned::Broken`]. For that the place of the errand's slot has to be free
    /// in the hand, or to have the guard of a bundle, which the page joins. It is so in an idle hand, as a vault gives it,
    /// and after each turn from there on; only a hand that was put together otherwise can be another.
    ///
    /// Where the place of a slot has a bundle's guard, a page for it is asked and answered by [`Request::Join`] and
    /// [`Request::AnswerJoin`], of which no guard comes.
    ///
    /// Where the hand can make no request, as a slot that the plan unfixes has no guard in it, or where no errand is in hand
    /// and the log gets no room, the answer is [`Turned::Broken`], and nothing was asked.
    ///
    /// Over each turn the hand stays the same worker's.
    ///
    /// At its end the site is told that no call comes next ([`Site::let_go`]), so a shared one has let its lock go.
    pub fn turn<W: Work>(&mut self, work: &mut W) -> Turned
        ensures turn { TurnIs S.Site D.Device W.Work self.old work.old result self.new work.new }
        ensures errand { errand_is_there self.old.hand.stage ≡ true → KeepsPlace self.old.hand
            → MakesOne S.Site D.Device W.Work self.old work.old result self.new work.new }
        ensures keeps { KeepsPlace self.old.hand → KeepsPlace self.new.hand }
        ensures room { MakesRoom S.Site self.old result self.new }
        ensures worker { stage_worker self.new.hand.stage ≡ stage_worker self.old.hand.stage }
        ensures layout { self.new.layout ≡ self.old.layout }
        ensures page_bytes { self.new.page_bytes ≡ self.old.page_bytes }
        ensures reach { reach_of self.new ≡ None }
    {
        self.kept.reach = None;
        let turned = self.turn_on(work);
        self.kept.reach = None;
        self.site.let_go();
        turned
    }

    /// Makes turns one after another, each as [`Worker::turn`] makes it, with the same work: all of them were done but the
    /// last, which ends so. Who calls it makes the next turn at once too. A shared site may keep its lock for that, but while
    /// the work or the device is called it has let it go.
    ///
    /// Where the plan reads pages that are cached, it makes four turns for each without putting its tokens into the hand: a
    /// fix, a latch S behind which the work sees the page, an unlatch and an unfix. It goes on so while the plan asks just that
    /// and the log has room. Else it makes one turn.
    ///
    /// How far the work reaches is asked with the page that it names, so that no work is called between the fix and the look.
    /// A new worker knows of no reach, and after [`Worker::turn`] none is relied on.
    ///
    /// Who makes no turn more lets the site go: `worker.site.let_go()`.
    pub fn quick_turns<W: Work>(&mut self, work: &mut W) -> Turned
        requires { IsReach W.Work (reach_of self.old) work.old }
        ensures turns { TurnsBehind S.Site D.Device W.Work self.old work.old result self.new work.new }
        ensures errand { errand_is_there self.old.hand.stage ≡ true → KeepsPlace self.old.hand
            → MakesOne S.Site D.Device W.Work self.old work.old result self.new work.new }
        ensures keeps { KeepsPlace self.old.hand → KeepsPlace self.new.hand }
        ensures room { MakesRoom S.Site self.old result self.new }
        ensures worker { stage_worker self.new.hand.stage ≡ stage_worker self.old.hand.stage }
        ensures layout { self.new.layout ≡ self.old.layout }
        ensures page_bytes { self.new.page_bytes ≡ self.old.page_bytes }
        ensures reach { IsReach W.Work (reach_of self.new) work.new }
    {
        let read = read_on(
            &mut self.hand.stage,
            &mut self.hand.guards,
            &self.layout,
            &mut self.site,
            &mut self.log,
            &mut self.seen,
            &mut self.kept.reach,
            work,
        );
        match read {
            Some(turned) => turned,
            None => self.turn_on(work),
        }
    }

    /// The same, where the next turn is made at once, with the same work, and is no reading. A shared site may keep its lock
    /// for that, but only where the next request wants neither the work nor the device.
    fn turn_on<W: Work>(&mut self, work: &mut W) -> Turned
        requires { IsReach W.Work (reach_of self.old) work.old }
        ensures turn { TurnIs S.Site D.Device W.Work self.old work.old result self.new work.new }
        ensures errand { errand_is_there self.old.hand.stage ≡ true → KeepsPlace self.old.hand
            → MakesOne S.Site D.Device W.Work self.old work.old result self.new work.new }
        ensures keeps { KeepsPlace self.old.hand → KeepsPlace self.new.hand }
        ensures room { MakesRoom S.Site self.old result self.new }
        ensures worker { stage_worker self.new.hand.stage ≡ stage_worker self.old.hand.stage }
        ensures layout { self.new.layout ≡ self.old.layout }
        ensures page_bytes { self.new.page_bytes ≡ self.old.page_bytes }
        ensures reach { IsReach W.Work (reach_of self.new) work.new }
    {
        if self.make_room(W::wants_rework()).is_err() {
            return Turned::NoMemory;
        }
        if !has_room(&mut self.log) && !has_errand(&self.hand.stage) {
            return Turned::Broken;
        }
        ask(
            &mut self.hand.stage,
            &mut self.hand.guards,
            &self.layout,
            &mut self.site,
            &mut self.device,
            &mut self.log,
            &mut self.seen,
            &mut self.kept,
            work,
        )
    }

    /// Ends the worker: its site, its device, its tokens and its log.
    pub fn end(self) -> (S, D, Hand, Journal)
        ensures { result ≡ (self.site, self.device, self.hand, self.log) }
    {
        let Worker {
            site,
            device,
            hand,
            log,
            layout: _,
            page_bytes: _,
            seen: _seen,
            kept,
            alloc: _,
        } = self;
        let Kept {
            reach: _,
            room,
            end: _,
        } = kept;
        room.end();
        (site, device, hand, log)
    }

    /// Gets the room that a plan wants, where the worker is idle: for one image, in the log for the dearest of all submitted plans,
    /// and for the pages that are latched X, if the work is lent them.
    fn make_room(&mut self, is_lent: bool) -> Result<(), AllocError>
        ensures site { self.new.site ≡ self.old.site }
        ensures device { self.new.device ≡ self.old.device }
        ensures hand { self.new.hand ≡ self.old.hand }
        ensures log { self.new.log.items ≡ self.old.log.items }
        ensures len { length self.new.log.items ≡ length self.old.log.items }
        ensures grown { self.old.log.capacity ≤ self.new.log.capacity }
        ensures layout { self.new.layout ≡ self.old.layout }
        ensures page_bytes { self.new.page_bytes ≡ self.old.page_bytes }
        ensures reach { reach_of self.new ≡ reach_of self.old }
        ensures end { end_of self.new ≡ end_of self.old }
        ensures busy { is_chair self.old.hand.stage ≡ false → self.new ≡ self.old }
        ensures err { OnErr result (is_chair self.old.hand.stage ≡ true) }
        ensures room { OnOk result (is_chair self.old.hand.stage ≡ true
            → (most : ℕ) × S.tells self.old.site most × (length self.old.log.items + max most 1 ≤ self.new.log.capacity)) }
        ensures page { OnOk result (is_chair self.old.hand.stage ≡ true
            → room_of self.new ≡ (if room_of self.old == 0 then self.old.page_bytes else room_of self.old)) }
    {
        match &self.hand.stage {
            Stage::Idle(_) => {}
            _ => return Ok(()),
        }
        if self.seen.is_empty() {
            self.seen = vec![in self.alloc; 0; self.page_bytes as usize]?;
        }
        if is_lent {
            self.kept.room.open()?;
        }
        let most = self.site.most().max(1);
        self.site.let_go();
        self.log.reserve(most as usize)
    }
}

impl<S, D> Worker<S, D> {
    /// The site where it asked, and the same worker over another site: with its device, its tokens, its log and its room. So a
    /// worker can be kept between two plans without a site, and be given one for each.
    pub fn over_site<T>(self, site: T) -> (S, Worker<T, D>)
        ensures before { result.0 ≡ self.site }
        ensures site { result.1.site ≡ site }
        ensures device { result.1.device ≡ self.device }
        ensures hand { result.1.hand ≡ self.hand }
        ensures log { result.1.log ≡ self.log }
        ensures layout { result.1.layout ≡ self.layout }
        ensures page_bytes { result.1.page_bytes ≡ self.page_bytes }
        ensures room { room_of result.1 ≡ room_of self }
        ensures reach { reach_of result.1 ≡ None }
        ensures end { end_of result.1 ≡ end_of self }
    {
        let Worker {
            site: before,
            device,
            hand,
            log,
            layout,
            page_bytes,
            seen,
            kept,
            alloc,
        } = self;
        let Kept {
            reach: _,
            room,
            end,
        } = kept;
        let kept = Kept {
            reach: None,
            room,
            end,
        };
        let worker = Worker {
            site,
            device,
            hand,
            log,
            layout,
            page_bytes,
            seen,
            kept,
            alloc,
        };
        (before, worker)
    }
}

/// Whether the log has room for an event. A full one gets room first, where there is memory.
fn has_room(log: &mut Journal) -> bool
    ensures items { log.new.items ≡ log.old.items }
    ensures len { length log.new.items ≡ length log.old.items }
    ensures room { result ≡ true → length log.new.items < log.new.capacity }
    ensures full { result ≡ false → log.old.capacity ≤ length log.old.items }
    ensures kept { length log.old.items < log.old.capacity → log.new.capacity ≡ log.old.capacity }
    ensures grown { log.old.capacity ≤ log.new.capacity }
{
    if log.len() < log.capacity() {
        return true;
    }
    log.reserve(1).is_ok()
}

/// Whether an errand is in hand.
fn has_errand(stage: &Stage) -> bool
    ensures { result ≡ errand_is_there stage.now }
{
    matches!(stage, Stage::Out(_) | Stage::Back(_))
}

/// Makes the request, if the stage has one; the log has room for its event, or an errand is in hand. The stage alone goes out
/// of its place for that, since it is small.
fn ask<S: Site, D: Device, W: Work>(
    stage: &mut Stage,
    guards: &mut Guards,
    layout: &Layout,
    site: &mut S,
    device: &mut D,
    log: &mut Journal,
    seen: &mut Vec<u8>,
    kept: &mut Kept,
    work: &mut W,
) -> Turned
    requires room { errand_is_there stage.old ≡ false → length log.old.items < log.old.capacity }
    requires reach { IsReach W.Work kept.old.reach work.old }
    ensures turn { TurnOf S.Site D.Device W.Work layout.now (length seen.old.items)
        (λ w. worker_with w stage.old guards.old site.old device.old log.old kept.old.end) work.old result
        (λ w. worker_with w stage.new guards.new site.new device.new log.new kept.new.end) work.new }
    ensures keeps { keeps_place guards.old stage.old ≡ true → keeps_place guards.new stage.new ≡ true }
    ensures memory { log.new.capacity ≡ log.old.capacity }
    ensures seen { length seen.new.items ≡ length seen.old.items }
    ensures worker { stage_worker stage.new ≡ stage_worker stage.old }
    ensures reach { IsReach W.Work kept.new.reach work.new }
{
    let around = (guards, site, device, log, seen, kept, work);
    let (turned, around) = mem::replace_with(stage, around, |stage, around| {
        let (guards, site, device, log, seen, kept, work) = around;
        let (stage, turned) = asked(stage, guards, layout, site, device, log, seen, kept, work);
        (
            stage,
            (turned, (guards, site, device, log, seen, kept, work)),
        )
    });
    let (guards, site, device, log, seen, kept, work) = around;
    taken_back(guards);
    taken_back(site);
    taken_back(device);
    taken_back(log);
    taken_back(seen);
    taken_back(kept);
    taken_back(work);
    turned
}

/// It does nothing. Where a call was lent a reference and gave it back, a use of that tells the prover that the two are
/// the same.
pub(crate) fn taken_back<T>(lent: &mut T)
    ensures { lent.new ≡ lent.old }
{}

/// The stage after the request, if this stage has one.
fn asked<S: Site, D: Device, W: Work>(
    stage: Stage,
    guards: &mut Guards,
    layout: &Layout,
    site: &mut S,
    device: &mut D,
    log: &mut Journal,
    seen: &mut Vec<u8>,
    kept: &mut Kept,
    work: &mut W,
) -> (Stage, Turned)
    requires room { errand_is_there stage ≡ false → length log.old.items < log.old.capacity }
    requires reach { IsReach W.Work kept.old.reach work.old }
    ensures turn { TurnOf S.Site D.Device W.Work layout.now (length seen.old.items)
        (λ w. worker_with w stage guards.old site.old device.old log.old kept.old.end) work.old result.1
        (λ w. worker_with w result.0 guards.new site.new device.new log.new kept.new.end) work.new }
    ensures keeps { keeps_place guards.old stage ≡ true → keeps_place guards.new result.0 ≡ true }
    ensures memory { log.new.capacity ≡ log.old.capacity }
    ensures seen { length seen.new.items ≡ length seen.old.items }
    ensures worker { stage_worker result.0 ≡ stage_worker stage }
    ensures reach { IsReach W.Work kept.new.reach work.new }
{
    let_go_unless_at_once(&stage, site);
    kept.reach = None;
    rework(&stage, guards, site, &mut kept.room, work);
    match next(stage, guards, layout, device, work) {
        Ok(request) => {
            ask_reach(&request, &mut kept.reach, work);
            made_any(
                request,
                guards,
                site,
                log,
                seen,
                &mut kept.reach,
                &mut kept.end,
                work,
            )
        }
        Err(stage) => (stage, Turned::Broken),
    }
}

/// Has the work change the pages that are latched X, where the stage's next request takes a latch X off. A worker that was made with
/// the tokens of a plan under way has no room for that before its next plan.
fn rework<S: Site, W: Work>(
    stage: &Stage,
    guards: &mut Guards,
    site: &mut S,
    room: &mut Room,
    work: &mut W,
)
    ensures reworks { ReworksIf W.Work stage.now work.old guards.old guards.new work.new }
    ensures site { site.new ≡ site.old }
{
    if !W::wants_rework() || !room.is_open() {
        return;
    }
    let Some(off) = slot_off(stage, guards) else {
        return;
    };
    site.let_go();
    let (guards, work) = mem::replace_with(room, (guards, work), |room, (guards, work)| {
        let room = lend(guards, room, off, work);
        (room, (guards, work))
    });
    taken_back(guards);
    taken_back(work);
}

/// The slot whose latch X the stage's next request takes off, if it does.
fn slot_off(stage: &Stage, guards: &Guards) -> Option<u8>
    ensures { result ≡ off_next stage.now guards.now }
{
    match stage {
        Stage::In(session) => match session.ask() {
            Ask::Unlatch { slot } if is_exclusive(guards, u32::from(slot)) => Some(slot),
            _ => None,
        },
        Stage::Leaving(_) => first_exclusive(guards),
        _ => None,
    }
}

/// Makes the request, whose guard is out of its place. The stage after it, and how the turn ends.
// Inlined, since little is left of it where the kind of the request is known.
#[tactic(auto, using(crate::proofs::Turning::long_by))]
#[inline(always)]
pub(crate) fn made<S: Site, W: Work>(
    request: Request,
    guards: &mut Guards,
    site: &mut S,
    log: &mut Journal,
    seen: &mut Vec<u8>,
    reach: &mut Option<usize>,
    work: &mut W,
) -> (Stage, Turned)
    requires workers { IsWorkers request }
    requires finds { FindsPlace guards.old request }
    requires reach { IsReach W.Work reach.old work.old }
    ensures comes { Comes S.Site W.Work (length seen.old.items) request guards.old site.old log.old work.old result.1 result.0
        guards.new site.new log.new work.new }
    ensures memory { log.new.capacity ≡ log.old.capacity }
    ensures seen { length seen.new.items ≡ length seen.old.items }
    ensures reach { IsReach W.Work reach.new work.new }
{
    let Response { event, answer } = site.perform(request);
    let is_logged = add(log, event);
    let (answer, turned) = used(answer, site, seen, reach, work);
    let stage = stage_after(guards, answer);
    let_go_unless_at_once(&stage, site);
    (stage, ended(is_logged, turned))
}

/// The same, where the kind of the request isn't known. The work is told if its plan begins or has ended by it.
#[inline(never)]
fn made_any<S: Site, W: Work>(
    request: Request,
    guards: &mut Guards,
    site: &mut S,
    log: &mut Journal,
    seen: &mut Vec<u8>,
    reach: &mut Option<usize>,
    end: &mut Option<End>,
    work: &mut W,
) -> (Stage, Turned)
    requires workers { IsWorkers request }
    requires finds { FindsPlace guards.old request }
    requires reach { IsReach W.Work reach.old work.old }
    ensures comes { ComesTold S.Site W.Work (length seen.old.items) request guards.old site.old log.old end.old work.old result.1
        result.0 guards.new site.new log.new end.new work.new }
    ensures memory { log.new.capacity ≡ log.old.capacity }
    ensures seen { length seen.new.items ≡ length seen.old.items }
    ensures reach { IsReach W.Work reach.new work.new }
{
    let called = page_called(&request);
    let Response { event, answer } = site.perform(request);
    let is_logged = add(log, event);
    let (answer, turned) = used(answer, site, seen, reach, work);
    let stage = stage_after(guards, answer);
    let_go_unless_at_once(&stage, site);
    tell(event, called, site, reach, end, work);
    (stage, ended(is_logged, turned))
}

/// The page of the device's call, where the request tells what came of one.
fn page_called(request: &Request) -> Option<u32>
    ensures { result ≡ called_page request.now }
{
    match request {
        Request::Answer(returned) => Some(returned.page()),
        Request::AnswerJoin(returned) => Some(returned.page()),
        _ => None,
    }
}

/// Tells the work that its plan begins or has ended, where the event is of that. Where a call of the device with this page failed, so
/// that the plan is left, it is kept as that plan's end. How far a work reaches that was told isn't known any more.
fn tell<S: Site, W: Work>(
    event: Option<Event>,
    called: Option<u32>,
    site: &mut S,
    reach: &mut Option<usize>,
    end: &mut Option<End>,
    work: &mut W,
)
    requires { IsReach W.Work reach.old work.old }
    ensures tells { Tells W.Work called work.old end.old event work.new end.new }
    ensures site { site.new ≡ site.old }
    ensures reach { IsReach W.Work reach.new work.new }
{
    let Some(Event::Step { did, reply }) = event else {
        return;
    };
    match (did, reply) {
        (Move::Take { worker: _ }, Reply::Taken { plan }) => {
            site.let_go();
            *reach = None;
            *end = None;
            work.begins(plan);
        }
        (Move::ReadDone { .. } | Move::WriteDone { .. }, Reply::Failed(why)) => {
            *end = called.map(|page| End::Gone { page, why });
        }
        (Move::Finish { worker: _ }, Reply::Finished(Ending::Done)) => {
            site.let_go();
            *reach = None;
            *end = None;
            work.ended(End::Done);
        }
        (Move::Finish { worker: _ }, Reply::Finished(Ending::Gone)) => {
            site.let_go();
            *reach = None;
            if let Some(gone) = end.take() {
                work.ended(gone);
            }
        }
        _ => {}
    }
}

/// Lets the site go, unless the stage's next request wants neither the work nor the device.
fn let_go_unless_at_once<S: Site>(stage: &Stage, site: &mut S)
    ensures { site.new ≡ site.old }
{
    match stage {
        Stage::In(session) => let_go_unless_asked(session, site),
        _ => site.let_go(),
    }
}

/// Lets the site go where the session's plan asks something of the work: a page or a branch.
fn let_go_unless_asked<S: Site>(session: &Session, site: &mut S)
    ensures { site.new ≡ site.old }
{
    match session.ask() {
        Ask::Fix { .. } => site.let_go(),
        Ask::Gather { .. } => site.let_go(),
        Ask::Choose { .. } => site.let_go(),
        _ => {}
    }
}

/// Asks the work how far it reaches, where a page may come of the request.
fn ask_reach<W: Work>(request: &Request, reach: &mut Option<usize>, work: &W)
    requires { IsReach W.Work reach.old work.now }
    ensures { IsReach W.Work reach.new work.now }
{
    match request {
        Request::Fix(_, _) => *reach = Some(work.reach()),
        Request::Answer(_) => *reach = Some(work.reach()),
        _ => {}
    }
}

/// Adds the event, if there is one and the log has room for it. Tells whether none is left out.
#[inline(always)]
fn add(log: &mut Journal, event: Option<Event>) -> bool
    ensures items { log.new.items ≡ log.old.items ++ logged_events result event }
    ensures full { result ≡ false → log.old.capacity ≤ length log.old.items }
    ensures memory { log.new.capacity ≡ log.old.capacity }
{
    match event {
        Some(event) => {
            if log.len() >= log.capacity() {
                return false;
            }
            log.push_reserved(event);
            true
        }
        None => true,
    }
}

/// How a turn ends: as its answer says, but broken where its event is left out.
fn ended(is_logged: bool, turned: Turned) -> Turned
    ensures { result ≡ (if is_logged then turned else Broken) }
{
    if is_logged { turned } else { Turned::Broken }
}

/// What the work does with an answer's page, and how the turn ends.
#[inline(always)]
fn used<S: Site, W: Work>(
    answer: BookAnswer,
    site: &mut S,
    seen: &mut [u8],
    reach: &mut Option<usize>,
    work: &mut W,
) -> (BookAnswer, Turned)
    requires long { IsLong answer }
    requires reach { IsReach W.Work reach.old work.old }
    ensures uses { Uses S.Site W.Work site.old (length seen.old) work.old answer result.1 result.0 work.new }
    ensures site { site.new ≡ site.old }
    ensures reach { IsReach W.Work reach.new work.new }
{
    match answer {
        BookAnswer::Exclusive(session, mut guard) => {
            let page = guard.page();
            site.let_go();
            *reach = None;
            work.change(page, guard.body_mut());
            (BookAnswer::Exclusive(session, guard), Turned::Done)
        }
        BookAnswer::Shared(session, guard) => {
            let turned = see(site, &guard, seen, reach, work);
            (BookAnswer::Shared(session, guard), turned)
        }
        BookAnswer::No(request, refusal) => {
            // Who was refused may wait before it turns again.
            site.let_go();
            let turned = turned_by(refusal);
            (BookAnswer::No(request, refusal), turned)
        }
        answer => (answer, Turned::Done),
    }
}

/// Looks at the guard's page as far as the work's reach goes, and shows that to the work.
#[inline(always)]
pub(crate) fn see<S: Site, W: Work>(
    site: &mut S,
    guard: &ReadGuard,
    seen: &mut [u8],
    reach: &mut Option<usize>,
    work: &mut W,
) -> Turned
    requires { IsReach W.Work reach.old work.old }
    ensures looks { LooksAt S.Site W.Work site.old (length seen.old) guard.now work.old result work.new }
    ensures site { site.new ≡ site.old }
    ensures reach { IsReach W.Work reach.new work.new }
{
    let reach = reached(site, reach, work).max(SHORTEST).min(seen.len());
    let front = &mut seen[..reach];
    let is_shown = site.look(guard, front);
    site.let_go();
    if !is_shown {
        return Turned::Broken;
    }
    let (page, mark) = (guard.page(), guard.mark());
    if image::head(front) != (page, mark) {
        return Turned::Broken;
    }
    work.see(page, mark, front);
    Turned::Done
}

/// How far the work reaches: as far as is known, and else as it answers, for which the site is let go. Then it isn't known any
/// more, since the work goes on.
fn reached<S: Site, W: Work>(site: &mut S, reach: &mut Option<usize>, work: &W) -> usize
    requires { IsReach W.Work reach.old work.now }
    ensures reach { W.reach_gives work.now result ⊎ (result ≡ all_bytes) }
    ensures site { site.new ≡ site.old }
    ensures none { reach.new ≡ None }
{
    match reach.take() {
        Some(known) => known,
        None => {
            site.let_go();
            work.reach()
        }
    }
}

/// How a turn ends that was refused.
fn turned_by(refusal: Refusal) -> Turned
    ensures { result ≡ turned_then refusal }
{
    match refusal {
        Refusal::NotNow(Delay::NothingWaiting) => Turned::Ended,
        Refusal::NotNow(_) => Turned::NotNow,
        Refusal::OffPlan(_) => Turned::Broken,
        Refusal::Stranger => Turned::Broken,
    }
}
