//! What a renewal keeps: ARC's lists, and of each page its frame, its mark, and whether it is dirty.

use crate::common::same;
use crate::plain::Plain;
use pp_arc::{Directory, List};
use pp_core::Core;
use std::alloc::{AllocError, Global};

/// Sees that the core keeps what the plain pool keeps, and has as many plans.
pub fn see_kept(alloc: Global, core: &Core, plain: &Plain) -> anyhow::Result<()> {
    see_lists(alloc, core.directory(), plain)?;
    for page in 0..plain.size {
        let got = (
            core.frame_of(page),
            core.mark(page),
            core.marks().is_dirty(page),
        );
        let want = (plain.frame(page), plain.mark(page), plain.is_dirty(page));
        same("what is kept of a page", (page, got), (page, want))?;
    }
    same("how many plans there are", core.plans(), plain.submitted())?;
    same("how many pages are dirty", core.dirty(), plain.dirty())
}

fn see_lists(alloc: Global, directory: &Directory, plain: &Plain) -> anyhow::Result<()> {
    let lists = &plain.lists;
    same("the target", directory.target(), lists.target)?;
    see_list(alloc, directory, List::T1, &lists.t1)?;
    see_list(alloc, directory, List::T2, &lists.t2)?;
    see_list(alloc, directory, List::B1, &lists.b1)?;
    see_list(alloc, directory, List::B2, &lists.b2)
}

/// Sees that the list has these pages, the most recent first.
fn see_list(alloc: Global, directory: &Directory, list: List, want: &[u32]) -> anyhow::Result<()> {
    let got = pages_of(alloc, directory, list)?;
    same("the pages of a list", got.as_slice(), want)
}

/// The pages of the list, the most recent first.
fn pages_of(alloc: Global, directory: &Directory, list: List) -> Result<Vec<u32>, AllocError> {
    let mut pages = Vec::new(alloc);
    let mut at = directory.front(list);
    for _ in 0..directory.len(list) {
        if let Some(page) = at {
            pages.push(page)?;
            at = directory.after(page);
        }
    }
    Ok(pages)
}
