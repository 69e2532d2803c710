//! ARC written plainly: four vectors, the most recent page first.

use pp_arc::Answer;
use std::alloc::{AllocError, Global};

/// The four lists of a cache of `c` pages, and the target of T1.
#[derive(Drop)]
pub struct Lists {
    c: u32,
    pub target: u32,
    pub t1: Vec<u32>,
    pub t2: Vec<u32>,
    pub b1: Vec<u32>,
    pub b2: Vec<u32>,
}

impl Lists {
    pub fn new(alloc: Global, c: u32) -> Self {
        Lists {
            c,
            target: 0,
            t1: Vec::new(alloc),
            t2: Vec::new(alloc),
            b1: Vec::new(alloc),
            b2: Vec::new(alloc),
        }
    }

    /// A page is asked for, while these pages are busy.
    pub fn request(&mut self, page: u32, busy: &[u32]) -> Result<Answer, AllocError> {
        if take(&mut self.t1, page) || take(&mut self.t2, page) {
            self.t2.insert(0, page)?;
            return Ok(Answer::Hit);
        }
        let is_full = self.t1.len().saturating_add(self.t2.len()) == self.c as usize;
        if is_full && all_busy(&self.t1, busy) && all_busy(&self.t2, busy) {
            return Ok(Answer::AllBusy);
        }
        let in_b1 = self.b1.contains(&page);
        let in_b2 = self.b2.contains(&page);
        let victim = self.victim(in_b1, in_b2, is_full, busy)?;
        if take(&mut self.b1, page) || take(&mut self.b2, page) {
            self.t2.insert(0, page)?;
        } else {
            self.t1.insert(0, page)?;
        }
        Ok(victim.map_or(Answer::Free, Answer::Evict))
    }

    /// Makes room, and tells the page that left for it.
    fn victim(
        &mut self,
        in_b1: bool,
        in_b2: bool,
        is_full: bool,
        busy: &[u32],
    ) -> Result<Option<u32>, AllocError> {
        if !in_b1 && !in_b2 && self.t1.len() == self.c as usize {
            return Ok(take_last(&mut self.t1, busy));
        }
        self.adapt(in_b1, in_b2);
        if is_full {
            self.replace(in_b2, busy)
        } else {
            Ok(None)
        }
    }

    /// The page leaves all lists.
    pub fn forget(&mut self, page: u32) {
        let _ = take(&mut self.t1, page);
        let _ = take(&mut self.t2, page);
        let _ = take(&mut self.b1, page);
        let _ = take(&mut self.b2, page);
    }

    /// A page leaves though none comes, and is remembered.
    pub fn give_up(&mut self, busy: &[u32]) -> Result<Option<u32>, AllocError> {
        self.replace(false, busy)
    }

    /// The last page of T1, else of T2, leaves the lists.
    pub fn forget_last(&mut self) {
        if self.t1.pop().is_none() {
            let _ = self.t2.pop();
        }
    }

    /// How many pages are cached.
    pub fn cached(&self) -> usize {
        self.t1.len().saturating_add(self.t2.len())
    }

    /// Whether the page is cached.
    pub fn is_cached(&self, page: u32) -> bool {
        self.t1.contains(&page) || self.t2.contains(&page)
    }

    /// The cache has this size from now on, and no more pages.
    pub fn cut(&mut self, c: u32) {
        let size = c as usize;
        self.c = c;
        self.target = self.target.min(c);
        self.b1.truncate(size.saturating_sub(self.t1.len()));
        let named = self.cached().saturating_add(self.b1.len());
        self.b2
            .truncate(size.saturating_mul(2).saturating_sub(named));
    }

    /// A page gets another name, and the front of its list.
    pub fn rename(&mut self, old: u32, new: u32) -> Result<(), AllocError> {
        self.forget(new);
        if take(&mut self.t1, old) {
            self.t1.insert(0, new)?;
        } else if take(&mut self.t2, old) {
            self.t2.insert(0, new)?;
        } else if take(&mut self.b1, old) {
            self.b1.insert(0, new)?;
        } else if take(&mut self.b2, old) {
            self.b2.insert(0, new)?;
        }
        Ok(())
    }

    /// Forgets each name from the limit on.
    pub fn truncate(&mut self, alloc: Global, limit: u32) -> Result<(), AllocError> {
        self.t1 = below(alloc, &self.t1, limit)?;
        self.t2 = below(alloc, &self.t2, limit)?;
        self.b1 = below(alloc, &self.b1, limit)?;
        self.b2 = below(alloc, &self.b2, limit)?;
        Ok(())
    }

    /// A page that came leaves all lists, and the one that left for it comes back.
    pub fn bring_back(&mut self, page: u32, victim: u32) -> Result<(), AllocError> {
        self.forget(page);
        self.forget(victim);
        self.t2.insert(0, victim)?;
        Ok(())
    }

    /// Moves the target for a page that is remembered, and drops a name for one that isn't.
    fn adapt(&mut self, in_b1: bool, in_b2: bool) {
        let (b1, b2) = (self.b1.len(), self.b2.len());
        let cached = self.t1.len().saturating_add(self.t2.len());
        let total = cached.saturating_add(b1).saturating_add(b2);
        if in_b1 {
            let step = b2.checked_div(b1).unwrap_or(0).max(1).min(self.c as usize);
            self.target = self.target.saturating_add(step as u32).min(self.c);
        } else if in_b2 {
            let step = b1.checked_div(b2).unwrap_or(0).max(1).min(self.c as usize);
            self.target = self.target.saturating_sub(step as u32);
        } else if self.t1.len().saturating_add(b1) == self.c as usize {
            let _ = self.b1.pop();
        } else if total == (self.c as usize).saturating_mul(2) {
            let _ = self.b2.pop();
        }
    }

    fn replace(&mut self, in_b2: bool, busy: &[u32]) -> Result<Option<u32>, AllocError> {
        let t1 = self.t1.len();
        let target = self.target as usize;
        if t1 != 0 && (t1 > target || (in_b2 && t1 == target)) {
            let victim = demote(&mut self.t1, &mut self.b1, busy)?;
            if victim.is_some() {
                return Ok(victim);
            }
        }
        let victim = demote(&mut self.t2, &mut self.b2, busy)?;
        if victim.is_some() {
            return Ok(victim);
        }
        demote(&mut self.t1, &mut self.b1, busy)
    }
}

/// The last page that isn't busy leaves one list for the other.
fn demote(from: &mut Vec<u32>, to: &mut Vec<u32>, busy: &[u32]) -> Result<Option<u32>, AllocError> {
    let victim = take_last(from, busy);
    if let Some(page) = victim {
        to.insert(0, page)?;
    }
    Ok(victim)
}

fn all_busy(pages: &[u32], busy: &[u32]) -> bool {
    pages.iter().all(|page| busy.contains(page))
}

fn take(pages: &mut Vec<u32>, page: u32) -> bool {
    match pages.iter().position(|other| *other == page) {
        Some(i) => {
            let _ = pages.remove(i);
            true
        }
        None => false,
    }
}

fn take_last(pages: &mut Vec<u32>, busy: &[u32]) -> Option<u32> {
    let last = pages
        .iter()
        .rev()
        .copied()
        .find(|page| !busy.contains(page))?;
    let _ = take(pages, last);
    Some(last)
}

/// The names below the limit.
fn below(alloc: Global, pages: &[u32], limit: u32) -> Result<Vec<u32>, AllocError> {
    let mut kept = Vec::new(alloc);
    for page in pages {
        if *page < limit {
            kept.push(*page)?;
        }
    }
    Ok(kept)
}
