//! The parked workers of a hall, and its flusher.

ghost use Rattle.std.specs.Prelude.{◌≡◌, ◌<◌, true, false, is_some, None, Some, IfErr, IfSome, OnOk, OnErr, map, ◌+◌};
ghost use Rattle.std.specs.Prelude.{◌≤◌, [], slice_index_or, slice_set, replicate, vec_len, vec_capacity};
ghost use Rattle.pp_vault.specs.Stages.{AllIdle, stage_worker};
ghost use Rattle.pp_hall.specs.Posts.{devices_there};

use crate::no_site::NoSite;
use pp_device::Device;
use pp_pool::{Flusher, Worker};
use pp_settings::{Layout, Settings};
use pp_vault::{Flushing, Hand, Hands, Stage, Stopped};
use std::alloc::{AllocError, Global};
use std::marker::Model;

/// A parked worker: its tokens, its device, its log and its room, and no site. [`Worker::over_site`] gives it one.
pub type Post<D> = Worker<(), D>;

/// The parked workers that are there, each in the place of its chair, and the flusher, if it is home.
///
/// The compiler refuses code that lets it fall.
pub(crate) struct Posts<D> {
    places: Vec<Option<Post<D>>>,
    flusher: Option<Flusher<(), D>>,
    // The hands of no worker, which are given up with the vault; and room for all devices.
    hands: Hands,
    devices: Vec<D>,
}

impl<D> Model for Posts<D> {
    ghost use Rattle.std.specs.Prelude.{map, is_some, vec_capacity};
    ghost use Rattle.pp_hall.specs.Posts.{Parts};

    ghost Value = { Parts };

    ghost use Rattle.pp_hall.specs.Posts.{ArePosts};

    ghost view = { λ p. record { there = map is_some p.places.items; is_flusher_home = is_some p.flusher } };

    ghost invariant = { λ p. ArePosts p.places.items p.hands.workers p.devices.items (vec_capacity p.devices) };
}

impl<D> Posts<D> {
    /// Whether the worker of this chair is there.
    pub(crate) fn is_there(&self, chair: u32) -> bool
        ensures { result ≡ slice_index_or self.now.there chair false }
    {
        (chair as usize) < self.places.len() && self.places[chair as usize].is_some()
    }

    /// Takes the worker of this chair out, if it is there.
    #[tactic(auto, using(crate::proofs::Places::posts_taken, crate::proofs::Places::there_set, crate::proofs::Places::there_at))]
    pub(crate) fn take(&mut self, chair: usize) -> Option<Post<D>>
        ensures some { is_some result ≡ slice_index_or self.old.there chair false }
        ensures of { IfSome result (λ post. stage_worker post.hand.stage ≡ Some chair) }
        ensures gone { self.new ≡ record self.old { there = slice_set self.old.there chair false } }
    {
        if chair >= self.places.len() {
            return None;
        }
        let place = &mut self.places[chair];
        place.take()
    }

    /// Puts a worker into the place of its chair, where that is empty.
    ///
    /// # Errors
    ///
    /// The worker, and nothing changes.
    #[tactic(auto, using(crate::proofs::Places::posts_set, crate::proofs::Places::there_set, crate::proofs::Places::past_is_there, crate::proofs::Places::within_is_there))]
    pub(crate) fn put(&mut self, chair: u32, post: Post<D>) -> Result<(), Post<D>>
        requires { stage_worker post.hand.stage ≡ Some chair }
        ensures ok { OnOk result (slice_index_or self.old.there chair true ≡ false) }
        ensures there { OnOk result (self.new ≡ record self.old { there = slice_set self.old.there chair true }) }
        ensures err { OnErr result (slice_index_or self.old.there chair true ≡ true) }
        ensures back { IfErr result (λ e. e ≡ post) }
        ensures unchanged { OnErr result (self.new ≡ self.old) }
    {
        let at = chair as usize;
        if at >= self.places.len() {
            return Err(post);
        }
        let place = &mut self.places[at];
        if place.is_some() {
            return Err(post);
        }
        match place.replace(post) {
            None => {}
            Some(other) => return Err(other),
        }
        Ok(())
    }

    /// Whether the flusher is home.
    pub(crate) fn is_flusher_home(&self) -> bool
        ensures { result ≡ self.now.is_flusher_home }
    {
        self.flusher.is_some()
    }

    /// Takes the flusher out, if it is home.
    pub(crate) fn take_flusher(&mut self) -> Option<Flusher<(), D>>
        ensures some { is_some result ≡ self.old.is_flusher_home }
        ensures gone { self.new ≡ record self.old { is_flusher_home = false } }
    {
        self.flusher.take()
    }

    /// The flusher comes home.
    ///
    /// # Errors
    ///
    /// The flusher, and nothing changes, where one is home.
    pub(crate) fn put_flusher(&mut self, flusher: Flusher<(), D>) -> Result<(), Flusher<(), D>>
        ensures ok { OnOk result (self.old.is_flusher_home ≡ false) }
        ensures home { OnOk result (self.new ≡ record self.old { is_flusher_home = true }) }
        ensures err { OnErr result (self.old.is_flusher_home ≡ true) }
        ensures back { IfErr result (λ e. e ≡ flusher) }
        ensures unchanged { OnErr result (self.new ≡ self.old) }
    {
        if self.flusher.is_some() {
            return Err(flusher);
        }
        match self.flusher.replace(flusher) {
            None => Ok(()),
            Some(other) => Err(other),
        }
    }
}

impl<D: Device + Drop> Posts<D> {
    /// A worker for each of these hands, all of them there, and the flusher. There is one device for each, the
    /// flusher's last.
    pub(crate) fn new(
        alloc: Global,
        settings: &Settings,
        mut places: Vec<Option<Post<D>>>,
        mut hands: Hands,
        mut devices: Vec<D>,
    ) -> Posts<D>
        requires ends { vec_len devices ≡ settings.now.workers + 1 }
        requires none { places.items ≡ [] }
        requires room { settings.now.workers ≤ vec_capacity places }
        requires idle { AllIdle settings.now.workers hands.workers }
        ensures there { result.there ≡ replicate settings.now.workers true }
        ensures flusher { result.is_flusher_home ≡ true }
    {
        let (workers, layout, page_bytes) = (
            settings.workers(),
            settings.layout(),
            settings.page_bytes(),
        );
        devices.reverse();
        for worker in 0..workers {
            let Some(device) = devices.pop() else {
                unreachable!();
            };
            let Some(hand) = hands.part(worker) else {
                unreachable!();
            };
            places.push_reserved(Some(parked(alloc, device, hand, layout, page_bytes)));
        }
        let Some(device) = devices.pop() else {
            unreachable!();
        };
        let flusher = Some(Flusher {
            site: (),
            device,
            flushing: None,
            ended: 0,
            failed: 0,
            from: 0,
        });
        Posts {
            places,
            flusher,
            hands,
            devices,
        }
    }

    /// Ends all that are there: the devices, those of the workers in order and the flusher's last; all hands; and what
    /// the flusher has in hand.
    pub(crate) fn end(self) -> (Vec<D>, Hands, Stopped)
        ensures { vec_len result.0 ≡ devices_there self }
    {
        let Posts {
            mut places,
            flusher,
            mut hands,
            mut devices,
        } = self;
        while let Some(place) = places.pop() {
            if let Some(post) = place {
                let (device, hand) = ended(post);
                match hands.join(hand) {
                    Ok(()) => {}
                    Err(_) => unreachable!(),
                }
                devices.push_reserved(device);
            }
        }
        places.destroy_empty();
        devices.reverse();
        match flusher {
            Some(flusher) => {
                let (last, flush) = flusher_ended(flusher);
                devices.push_reserved(last);
                (devices, hands, flush)
            }
            None => (devices, hands, Stopped::with_nothing()),
        }
    }
}

/// A parked worker with this device and these tokens.
fn parked<D: Device>(
    alloc: Global,
    device: D,
    hand: Hand,
    layout: Layout,
    page_bytes: u32,
) -> Post<D>
    ensures { result.hand ≡ hand }
{
    let worker = Worker::over(alloc, NoSite, device, hand, layout, page_bytes);
    let (NoSite, post) = worker.over_site(());
    post
}

/// The device and the tokens of a parked worker.
fn ended<D: Device>(post: Post<D>) -> (D, Hand)
    ensures { result.1 ≡ post.hand }
{
    let ((), worker) = post.over_site(NoSite);
    let (NoSite, device, hand, _log) = worker.end();
    (device, hand)
}

/// The device of the flusher, and what it has in hand.
fn flusher_ended<D>(flusher: Flusher<(), D>) -> (D, Stopped) {
    let Flusher {
        site: (),
        device,
        flushing,
        ended: _,
        failed: _,
        from: _,
    } = flusher;
    let flush = match flushing {
        Some(Flushing::Out(errand)) => Stopped::at(Stage::Out(errand)),
        Some(Flushing::Back(returned)) => Stopped::at(Stage::Back(returned)),
        None => Stopped::with_nothing(),
    };
    (device, flush)
}
