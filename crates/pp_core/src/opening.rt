//! The table of a new pool.

ghost use Rattle.std.specs.Prelude.{◌≡◌, None, IfOk, replicate};
ghost use Rattle.pp_model.specs.Reached.{IsSettings};
ghost use Rattle.pp_core.specs.Parts.{parts_of};
ghost use Rattle.pp_core.specs.Opening.{kept_of, opening_parts};

use crate::seat::Seat;
use crate::submitting::{most_kept, plan_limit};
use crate::table::{STACKS, Table};
use circular_buffer::HeapCircularBuffer;
use pp_arc::{Directory, Search};
use pp_bundles::Bundles;
use pp_frames::{Marks, NumberSet};
use pp_settings::Settings;
use std::alloc::{AllocError, Global};

/// The seats of so many idle workers.
fn idle_seats(alloc: Global, workers: u32) -> Result<Vec<Option<Seat>>, AllocError>
    ensures { IfOk result (λ seats. seats.items ≡ replicate workers None) }
{
    let mut seats = Vec::with_capacity(alloc, workers as usize)?;
    for _ in 0..workers {
        seats.push_reserved(None);
    }
    Ok(seats)
}

impl Table {
    /// The table of a pool with these settings, in which nothing was done yet.
    pub(crate) fn new(alloc: Global, settings: &Settings) -> Result<Table, AllocError>
        ensures opens { IfOk result (λ table. parts_of table ≡ opening_parts (kept_of settings.now)) }
        ensures within { IfOk result (λ _. IsSettings (kept_of settings.now)) }
    {
        let layout = settings.layout();
        let pages = layout.pages();
        let span = settings.span();
        let plans = Vec::with_capacity(alloc, most_kept(span))?;
        let waiting = HeapCircularBuffer::with_capacity(alloc, plan_limit(span) as usize)?;
        let seats = idle_seats(alloc, settings.workers())?;
        let directory = Directory::new(alloc, layout.frames(), pages)?;
        let search = Search::new(alloc, layout.frames(), pages)?;
        let marks = Marks::new(alloc, layout.frames(), pages)?;
        let bundles = Bundles::new(alloc, STACKS * settings.workers(), layout.frames())?;
        let in_flight = NumberSet::new(alloc, pages)?;
        let flushes = settings.flushes();
        // Each flush has a begin and an end.
        let moves = 2 * flushes;
        Ok(Table {
            layout,
            flushes,
            flushes_left: flushes,
            span,
            plans,
            waiting,
            taken: 0,
            seats,
            directory,
            search,
            marks,
            bundles,
            in_flight,
            flush: None,
            running: 0,
            need: moves,
            budget: moves,
        })
    }
}
