//! What holds of a vault in each state, seen by its public calls and by the tokens in its hands.

use crate::common::same;
use crate::plain::Plain;
use crate::store::{Image, Store};
use crate::turns::move_of;
use pp_device::image::{self, HEAD};
use pp_script::Cue;
use pp_vault::{Ask, Guard, Guards, Hands, Held, Vault};
use std::alloc::{AllocError, Global};

/// Sees that the headline holds, and that the tokens in the hands are those that the plain pool has.
pub fn see(alloc: Global, vault: &Vault, hands: &mut Hands, store: &Store) -> anyhow::Result<()> {
    see_turn(vault, hands, &store.plain)?;
    for worker in 0..store.plain.crew {
        see_hand(alloc, vault, hands, store, worker)?;
        see_bundles(vault, &store.plain, worker)?;
        see_ask(vault, &store.plain, worker)?;
    }
    Ok(())
}

/// Sees who is next, that this one's move is possible, and the bound on the moves that are left.
fn see_turn(vault: &Vault, hands: &Hands, plain: &Plain) -> anyhow::Result<()> {
    same("whose turn is next", vault.next_possible(), plain.turn())?;
    same("the bound on moves", vault.budget(), plain.budget())?;
    if let Some(cue) = plain.next_cue() {
        same(
            "what is possible",
            (cue, is_possible(vault, hands, cue)),
            (cue, true),
        )?;
    }
    Ok(())
}

/// Whether the cue is possible.
fn is_possible(vault: &Vault, hands: &Hands, cue: Cue) -> bool {
    match (move_of(cue), cue) {
        (Some(asked), _) => vault.refusal(&asked).is_none(),
        (None, Cue::Device { worker }) => vault.errand(worker).is_some(),
        (None, _) => hands.flushing.is_some(),
    }
}

/// Sees that the worker's guards, where it has any, hold what its slots hold plainly. Where it has none they hold nothing.
fn see_hand(
    alloc: Global,
    vault: &Vault,
    hands: &mut Hands,
    store: &Store,
    worker: u32,
) -> anyhow::Result<()> {
    let Some(mut hand) = hands.part(worker) else {
        return same("whether there are guards", false, store.plain.holds(worker));
    };
    let seen = see_guards(alloc, vault, &mut hand.guards, store, worker);
    match hands.join(hand) {
        Ok(()) => seen,
        Err(_) => unreachable!(),
    }
}

/// Sees that these guards hold what the worker's slots hold plainly, and that images of latched pages are right. A bundle's guard
/// tells no pages.
fn see_guards(
    alloc: Global,
    vault: &Vault,
    guards: &mut Guards,
    store: &Store,
    worker: u32,
) -> anyhow::Result<()> {
    for slot in 0..32 {
        let got = (guards.held(slot), guards.has_bundle(slot));
        let held = store.plain.held(worker, slot);
        let want = (held, store.plain.gathered(worker, slot) > 0);
        same(
            "what a guard holds, and whether it is a bundle's",
            got,
            want,
        )?;
        if let Some((page, held)) = held {
            let mut shown = Vec::from_elem(alloc, 0, vault.page_bytes())?;
            let named = show(vault, guards, slot, &mut shown);
            see_image(alloc, store, page, held, named, &shown)?;
        }
    }
    Ok(())
}

/// Sees that the image of a page that is latched has its page, its mark and its bytes, as its guard names them; and that none is
/// shown of a page that isn't latched.
fn see_image(
    alloc: Global,
    store: &Store,
    page: u32,
    held: Held,
    named: Option<(u32, u64)>,
    shown: &[u8],
) -> anyhow::Result<()> {
    if held == Held::Free {
        return same("what is shown of a page without a latch", named, None);
    }
    let image = store.image(page);
    same(
        "whose image a guard shows",
        named,
        Some((page, image.stamp)),
    )?;
    let want = image_of(alloc, page, image, shown.len())?;
    same("what a guard shows", shown, want.as_slice())
}

/// Sees that those slots of the worker are bundles in the vault that are plainly.
fn see_bundles(vault: &Vault, plain: &Plain, worker: u32) -> anyhow::Result<()> {
    for slot in 0..32 {
        let want = plain.gathered(worker, slot) > 0;
        same(
            "whether a slot is a bundle",
            vault.has_bundle(worker, slot),
            want,
        )?;
    }
    Ok(())
}

/// Sees that a worker at a fix or a gather can find a frame, and that one at a latch asks it in the order of the classes.
fn see_ask(vault: &Vault, plain: &Plain, worker: u32) -> anyhow::Result<()> {
    match vault.ask(worker) {
        Some(Ask::Fix { .. } | Ask::Gather { .. }) => {
            let finds_one = frames_fixed(vault, plain) < plain.frames;
            same("whether a worker can find a frame", finds_one, true)
        }
        Some(Ask::Latch { slot, .. }) => {
            let is_in_order = is_in_order(plain, worker, u32::from(slot));
            same(
                "whether a latch is asked in the order of the classes",
                is_in_order,
                true,
            )
        }
        _ => Ok(()),
    }
}

/// How many frames hold pages that are fixed or loaded.
fn frames_fixed(vault: &Vault, plain: &Plain) -> u32 {
    let mut fixed: u32 = 0;
    for page in 0..plain.size {
        if plain.is_pinned(page) || is_loaded(vault, plain, page) {
            fixed = fixed.saturating_add(1);
        }
    }
    fixed
}

/// Whether the page is loaded for some worker.
fn is_loaded(vault: &Vault, plain: &Plain, page: u32) -> bool {
    for worker in 0..plain.crew {
        if let Some((_, loaded, _)) = vault.errand(worker) {
            if loaded == page {
                return true;
            }
        }
    }
    false
}

/// The class of the page.
fn class_of(plain: &Plain, page: u32) -> Option<u8> {
    for extent in &plain.regions {
        if extent.has(page) {
            return Some(extent.class);
        }
    }
    None
}

/// Whether the class of the slot's page is above those of all pages that the worker has latched.
fn is_in_order(plain: &Plain, worker: u32, slot: u32) -> bool {
    let Some((asked, _)) = plain.held(worker, slot) else {
        return false;
    };
    let class = class_of(plain, asked);
    for holding in &plain.holdings {
        let is_latched = holding.worker == worker && holding.held != Held::Free;
        if is_latched && class_of(plain, holding.page) >= class {
            return false;
        }
    }
    true
}

/// Copies the image of the slot's page into the slice, where it is latched, and tells the page and the mark that the guard
/// names. None where nothing is shown. Of a writer's image the head is the one that is named.
fn show(vault: &Vault, guards: &mut Guards, slot: u32, shown: &mut [u8]) -> Option<(u32, u64)> {
    let guard = guards.take(slot)?;
    let named = match &guard {
        Guard::Pin(_) | Guard::Bundle(_) => None,
        Guard::Read(guard) => {
            match vault.look(guard, shown) {
                Ok(()) => Some((guard.page(), guard.mark())),
                Err(_) => None,
            }
        }
        Guard::Write(guard) => {
            fill(shown, guard.page(), guard.mark(), guard.body());
            Some((guard.page(), guard.mark()))
        }
    };
    match guards.put(guard) {
        Ok(()) => named,
        Err(_) => unreachable!(),
    }
}

/// Makes the slice an image with this head and this body, where it is as long as one.
fn fill(image: &mut [u8], page: u32, stamp: u64, body: &[u8]) {
    if body.len().checked_add(HEAD) == Some(image.len()) {
        image[HEAD..].copy_from_slice(body);
        image::make(image, page, stamp);
    }
}

/// Makes the slice an image with this head, and this first byte of its body.
fn stamp(image: &mut [u8], page: u32, known: Image) {
    if image.len() > HEAD {
        image[HEAD] = known.byte;
        image::make(image, page, known.stamp);
    }
}

/// The whole image of a page: zeros behind the first byte of its body.
pub fn image_of(
    alloc: Global,
    page: u32,
    known: Image,
    page_bytes: usize,
) -> Result<Vec<u8>, AllocError> {
    let mut bytes = Vec::from_elem(alloc, 0, page_bytes)?;
    stamp(&mut bytes, page, known);
    Ok(bytes)
}
