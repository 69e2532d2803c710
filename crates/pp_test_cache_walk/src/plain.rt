//! A page cache as a plain program keeps it: a vector of pages beside ARC's four vectors of keys.

use pp_cache::Create;
use pp_test_plain::{Answer, Lists};
use std::alloc::{AllocError, Global};

/// A page that stands in a frame.
#[derive(Clone, Copy)]
struct Page {
    key: u32,
    frame: u32,
    is_pinned: bool,
}

/// What a fetch is to be answered.
#[derive(Clone, Copy)]
pub enum Want {
    Hit(u32),
    /// And who leaves for it: its key, and its frame.
    New(Option<(u32, u32)>),
    Nothing,
}

#[derive(Drop)]
pub struct PlainCache {
    /// How many pages that nobody has pinned there may be.
    pub size: u32,
    lists: Lists,
    pages: Vec<Page>,
}

impl PlainCache {
    pub fn new(alloc: Global, size: u32) -> PlainCache {
        PlainCache {
            size,
            lists: Lists::new(alloc, size),
            pages: Vec::new(alloc),
        }
    }

    /// The place of the key's page among the pages.
    fn place(&self, key: u32) -> Option<usize> {
        for place in 0..self.pages.len() {
            if self.pages[place].key == key {
                return Some(place);
            }
        }
        None
    }

    fn page(&self, key: u32) -> Option<Page> {
        let place = self.place(key)?;
        self.pages.get(place).copied()
    }

    pub fn frame(&self, key: u32) -> Option<u32> {
        let page = self.page(key)?;
        Some(page.frame)
    }

    pub fn count(&self) -> usize {
        self.pages.len()
    }

    /// Whether the page of the key stands in a frame, or is remembered.
    pub fn knows(&self, key: u32) -> bool {
        self.page(key).is_some() || self.lists.b1.contains(&key) || self.lists.b2.contains(&key)
    }

    /// How many pages are pinned.
    pub fn pinned_count(&self) -> usize {
        let mut count: usize = 0;
        for page in &self.pages {
            if page.is_pinned {
                count = count.saturating_add(1);
            }
        }
        count
    }

    /// The keys of the pinned pages.
    fn pinned(&self) -> Result<Vec<u32>, AllocError> {
        let mut keys = Vec::new(*self.pages.allocator());
        for page in &self.pages {
            if page.is_pinned {
                keys.push(page.key)?;
            }
        }
        Ok(keys)
    }

    fn set_pinned(&mut self, key: u32, is_pinned: bool) {
        for page in &mut self.pages {
            if page.key == key {
                page.is_pinned = is_pinned;
            }
        }
    }

    fn remove(&mut self, key: u32) {
        if let Some(place) = self.place(key) {
            if place < self.pages.len() {
                let _ = self.pages.remove(place);
            }
        }
    }

    fn may_bring_in(&self, pinned: usize, create: Create) -> bool {
        match create {
            Create::Never => false,
            Create::IfRoom => pinned < (self.size as usize).saturating_mul(9) / 10,
            Create::Always => true,
        }
    }

    /// What a fetch is to be answered. A page that is brought in is put into its frame by [`PlainCache::admit`].
    pub fn fetch(&mut self, key: u32, create: Create) -> Result<Want, AllocError> {
        let pinned = self.pinned()?;
        if let Some(page) = self.page(key) {
            if !page.is_pinned {
                let _answer = self.lists.request(key, &pinned)?;
                self.set_pinned(key, true);
            }
            return Ok(Want::Hit(page.frame));
        }
        if !self.may_bring_in(pinned.len(), create) {
            return Ok(Want::Nothing);
        }
        let answer = self.lists.request(key, &pinned)?;
        Ok(Want::New(self.leave(answer)))
    }

    /// The page that ARC's lists evict leaves its frame.
    fn leave(&mut self, answer: Answer) -> Option<(u32, u32)> {
        let Answer::Evict(victim) = answer else {
            return None;
        };
        let frame = self.frame(victim).unwrap_or(u32::MAX);
        self.remove(victim);
        Some((victim, frame))
    }

    /// Whether a page stands in this frame.
    fn is_filled(&self, frame: u32) -> bool {
        for page in &self.pages {
            if page.frame == frame {
                return true;
            }
        }
        false
    }

    /// Puts a new page into this frame. False where another page has it.
    pub fn admit(&mut self, key: u32, frame: u32) -> Result<bool, AllocError> {
        if self.is_filled(frame) {
            return Ok(false);
        }
        self.pages.push(Page {
            key,
            frame,
            is_pinned: true,
        })?;
        Ok(true)
    }

    pub fn unpin(&mut self, key: u32, discard: bool) {
        let Some(page) = self.page(key) else {
            return;
        };
        if !page.is_pinned {
            return;
        }
        if discard {
            self.lists.forget(key);
            self.remove(key);
        } else if self.lists.is_cached(key) {
            self.set_pinned(key, false);
        } else {
            self.remove(key);
        }
    }

    pub fn rekey(&mut self, old: u32, new: u32) -> Result<(), AllocError> {
        if old == new || self.page(old).is_none() {
            return Ok(());
        }
        self.remove(new);
        for page in &mut self.pages {
            if page.key == old {
                page.key = new;
            }
        }
        self.lists.rename(old, new)
    }

    /// Drops each page and each name from the limit on.
    pub fn truncate(&mut self, alloc: Global, limit: u32) -> Result<(), AllocError> {
        self.pages.retain(|page| page.key < limit);
        self.lists.truncate(alloc, limit)
    }

    /// Drops each page that isn't pinned.
    pub fn shrink(&mut self) {
        for page in &self.pages {
            if !page.is_pinned {
                self.lists.forget(page.key);
            }
        }
        self.pages.retain(|page| page.is_pinned);
    }

    pub fn resize(&mut self, size: u32) -> Result<(), AllocError> {
        let pinned = self.pinned()?;
        for _ in size as usize..self.lists.cached() {
            match self.lists.give_up(&pinned)? {
                Some(victim) => self.remove(victim),
                None => self.lists.forget_last(),
            }
        }
        self.lists.cut(size);
        self.size = size;
        Ok(())
    }
}
