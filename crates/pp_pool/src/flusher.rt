//! The flusher: it begins a flush or ends one, one request a turn.

ghost use Rattle.std.specs.Prelude.{◌≡◌, ◌≤◌, ◌<◌, ◌+◌, None};
ghost use Rattle.pp_pool.specs.Replies.{Replies};
ghost use Rattle.pp_pool.specs.Flushings.{IsFlush, AsksFlush, IsFlushersAsk, IsFlushers, most_ended};
ghost use Rattle.pp_pool.specs.Flushings.{ends_in, failures_in, flushing_asked, flushing_after, flush_turned, flush_turned_by};
ghost use Rattle.pp_pool.specs.Flushings.{from_after as from_then};

use crate::request::Request;
use crate::response::{BookAnswer, Response};
use crate::site::Site;
use crate::turned::Turned;
use core::mem;
use pp_device::Device;
use pp_model::{Event, Move};
use pp_vault::{Cause, Flushing, Refusal};

/// The flusher: the site where it asks, the device that it calls, the flush in hand, and two counts.
pub struct Flusher<S, D> {
    /// Where it asks.
    pub site: S,
    /// What it writes to.
    pub device: D,
    /// The flush in hand, if there is one.
    pub flushing: Option<Flushing>,
    /// How many flushes were ended.
    pub ended: u64,
    /// How many of these had failed at the device.
    pub failed: u64,
    /// The page number from which the next flush is sought: one more than that of the page flushed last; 0 at first.
    pub from: u32,
    ghost of_flush: { IsFlush flushing },
    ghost some_failed: { failed ≤ ended },
}

impl<S: Site, D: Device> Flusher<S, D> {
    ghost use Rattle.pp_pool.specs.FlushTurns.{FlushTurnIs};

    /// A flusher with nothing in hand, which has done nothing.
    pub fn new(site: S, device: D) -> Flusher<S, D>
        ensures site { result.site ≡ site }
        ensures device { result.device ≡ device }
        ensures idle { result.flushing ≡ None }
        ensures counts { (result.ended ≡ 0) × (result.failed ≡ 0) }
        ensures from { result.from ≡ 0 }
    {
        Flusher {
            site,
            device,
            flushing: None,
            ended: 0,
            failed: 0,
            from: 0,
        }
    }

    /// Begins a flush, where none is in hand: of the least page that lets one begin, from one more than the page that was
    /// flushed last, and from page 0 where there is none above. Else it calls the device once, where that wasn't done,
    /// and tells what came of it. It takes no memory.
    ///
    /// The answer is [`Turned::Ended`] where nothing is to be flushed, or no flush is left. After 2^64 - 1 flushes it is
    /// [`Turned::Broken`], and nothing was asked.
    pub fn turn(&mut self) -> Turned
        ensures { FlushTurnIs S.gives D.read_gives D.write_leaves D.calls D.failures self.old result self.new }
    {
        mem::replace_with(self, (), |flusher, ()| flusher.turned())
    }

    /// Ends the flusher: its site, its device, the flush in hand if there is one, how many flushes it ended, and how
    /// many of these had failed.
    pub fn end(self) -> (S, D, Option<Flushing>, u64, u64)
        ensures { result ≡ (self.site, self.device, self.flushing, self.ended, self.failed) }
    {
        let Flusher {
            site,
            device,
            flushing,
            ended,
            failed,
            from: _,
        } = self;
        (site, device, flushing, ended, failed)
    }

    /// One turn.
    #[tactic(auto, using(crate::proofs::Flushed::flushers, crate::proofs::Flushed::flush_turns))]
    fn turned(self) -> (Flusher<S, D>, Turned)
        ensures { FlushTurnIs S.gives D.read_gives D.write_leaves D.calls D.failures self result.1 result.0 }
    {
        if self.ended == u64::MAX {
            return (self, Turned::Broken);
        }
        let Flusher {
            mut site,
            mut device,
            flushing,
            mut ended,
            mut failed,
            from,
        } = self;
        let request = next_request(flushing, from, &mut device);
        let Response { event, answer } = performed(&mut site, request);
        count(event, &mut ended, &mut failed);
        let (flushing, turned) = in_hand(answer);
        let flusher = Flusher {
            site,
            device,
            flushing,
            ended,
            failed,
            from: from_after(from, event),
        };
        (flusher, turned)
    }
}

impl<S, D> Flusher<S, D> {
    /// The site where it asked, and the same flusher over another site: with its device, the flush in hand and its
    /// counts. So a flusher can be kept between two turns without a site, and be given one for each.
    pub fn over_site<T>(self, site: T) -> (S, Flusher<T, D>)
        ensures before { result.0 ≡ self.site }
        ensures site { result.1.site ≡ site }
        ensures device { result.1.device ≡ self.device }
        ensures flushing { result.1.flushing ≡ self.flushing }
        ensures ended { result.1.ended ≡ self.ended }
        ensures failed { result.1.failed ≡ self.failed }
        ensures from { result.1.from ≡ self.from }
    {
        let Flusher {
            site: before,
            device,
            flushing,
            ended,
            failed,
            from,
        } = self;
        let over = Flusher {
            site,
            device,
            flushing,
            ended,
            failed,
            from,
        };
        (before, over)
    }
}

/// What the flusher asks. With an errand in hand the device is called.
#[tactic(auto, using(crate::proofs::Flushed::failed_by))]
fn next_request<D: Device>(flushing: Option<Flushing>, from: u32, device: &mut D) -> Request
    requires { IsFlush flushing }
    ensures asks { AsksFlush D.read_gives D.write_leaves D.calls D.failures flushing from device.old result device.new }
    ensures flushers { IsFlushersAsk result }
{
    match flushing {
        Some(Flushing::Out(errand)) => Request::Answer(errand.carry_out(device)),
        Some(Flushing::Back(returned)) => Request::Answer(returned),
        None => Request::FlushNext(from),
    }
}

/// Performs the request, and lets the site go: the device is called next, or nothing.
fn performed<S: Site>(site: &mut S, request: Request) -> Response
    ensures given { S.gives site.old request result site.new }
    ensures fits { Replies request result }
{
    let response = site.perform(request);
    site.let_go();
    response
}

/// Counts the end of a flush.
fn count(event: Option<Event>, ended: &mut u64, failed: &mut u64)
    requires room { ended.old < most_ended }
    requires within { failed.old ≤ ended.old }
    ensures ended { ended.new ≡ ended.old + ends_in event }
    ensures failed { failed.new ≡ failed.old + failures_in event }
    ensures within { failed.new ≤ ended.new }
{
    match event {
        Some(
            Event::Step {
                did: Move::FlushDone { ok },
                ..
            },
        ) => {
            *ended += 1;
            if !ok {
                *failed += 1;
            }
        }
        _ => {}
    }
}

/// Where the next flush is sought.
fn from_after(from: u32, event: Option<Event>) -> u32
    ensures { result ≡ from_then from event }
{
    match event {
        Some(
            Event::Step {
                did: Move::FlushBegin { page },
                ..
            },
        ) => page.saturating_add(1),
        _ => from,
    }
}

/// What the flusher has in hand after an answer, and how the turn ends.
fn in_hand(answer: BookAnswer) -> (Option<Flushing>, Turned)
    requires { IsFlushers answer }
    ensures hand { result.0 ≡ flushing_after answer }
    ensures flush { IsFlush result.0 }
    ensures turned { result.1 ≡ flush_turned answer }
{
    match answer {
        BookAnswer::Away(errand) => (Some(Flushing::Out(errand)), Turned::Done),
        BookAnswer::Flushed(_) => (None, Turned::Done),
        BookAnswer::No(request, refusal) => (back_in_hand(request), turned_by(refusal)),
        _ => unreachable!(),
    }
}

/// What the flusher has in hand where its request comes back.
fn back_in_hand(request: Request) -> Option<Flushing>
    requires { IsFlushersAsk request }
    ensures hand { result ≡ flushing_asked request }
    ensures flush { IsFlush result }
{
    match request {
        Request::Answer(returned) => Some(Flushing::Back(returned)),
        Request::FlushNext(_) => None,
        _ => unreachable!(),
    }
}

/// How a turn ends that was refused.
fn turned_by(refusal: Refusal) -> Turned
    ensures { result ≡ flush_turned_by refusal }
{
    match refusal {
        Refusal::NotNow(_) => Turned::NotNow,
        Refusal::OffPlan(Cause::NotDirty) => Turned::Ended,
        Refusal::OffPlan(Cause::NoFlushLeft) => Turned::Ended,
        Refusal::OffPlan(_) => Turned::Broken,
        Refusal::Stranger => Turned::Broken,
    }
}
