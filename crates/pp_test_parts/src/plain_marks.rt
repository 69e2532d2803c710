//! The marks of pages as a plain program keeps them: a list of the pages, gone through for each answer.

use pp_frames::Mode;
use std::alloc::{AllocError, Global};

/// A call on one page.
#[derive(Clone, Copy)]
pub(crate) enum Call {
    Place(u32),
    Clear,
    Pin,
    Unpin,
    Grant(Mode),
    Release(Mode),
    SetDirty(bool),
    SetStamp(u64),
}

/// What is noted of one page.
#[derive(Clone, Copy)]
pub(crate) struct Entry {
    pub(crate) frame: Option<u32>,
    pub(crate) pins: u32,
    pub(crate) readers: u32,
    pub(crate) has_writer: bool,
    pub(crate) is_dirty: bool,
    pub(crate) stamp: Option<u64>,
}

impl Entry {
    pub(crate) fn untouched() -> Entry {
        Entry {
            frame: None,
            pins: 0,
            readers: 0,
            has_writer: false,
            is_dirty: false,
            stamp: None,
        }
    }

    pub(crate) fn latches(&self) -> u32 {
        if self.has_writer {
            self.readers.saturating_add(1)
        } else {
            self.readers
        }
    }

    fn is_flushable(&self) -> bool {
        self.is_dirty && self.frame.is_some() && !self.has_writer
    }

    /// What a call answers whose conditions hold: whether a latch is granted, and else true.
    fn answer(&self, call: Call) -> bool {
        match call {
            Call::Grant(Mode::S) => !self.has_writer,
            Call::Grant(Mode::X) => self.latches() == 0,
            _ => true,
        }
    }

    /// The entry after a call whose answer is true.
    fn after(&self, call: Call) -> Entry {
        let mut entry = *self;
        match call {
            Call::Place(frame) => entry.frame = Some(frame),
            Call::Clear => entry.frame = None,
            Call::Pin => entry.pins = entry.pins.saturating_add(1),
            Call::Unpin => entry.pins = entry.pins.saturating_sub(1),
            Call::Grant(Mode::S) => entry.readers = entry.readers.saturating_add(1),
            Call::Grant(Mode::X) => entry.has_writer = true,
            Call::Release(Mode::S) => entry.readers = entry.readers.saturating_sub(1),
            Call::Release(Mode::X) => entry.has_writer = false,
            Call::SetDirty(is_dirty) => entry.is_dirty = is_dirty,
            Call::SetStamp(stamp) => entry.stamp = Some(stamp),
        }
        entry
    }
}

/// The pages, and the number of frames.
#[derive(Drop)]
pub(crate) struct PlainMarks {
    frames: u32,
    entries: Vec<Entry>,
}

impl PlainMarks {
    pub(crate) fn new(alloc: Global, frames: u32, pages: u32) -> Result<PlainMarks, AllocError> {
        let entries = vec![in alloc; Entry::untouched(); pages as usize]?;
        Ok(PlainMarks { frames, entries })
    }

    // ---- answers

    pub(crate) fn entry(&self, page: u32) -> Entry {
        match self.entries.get(page as usize) {
            Some(entry) => *entry,
            None => Entry::untouched(),
        }
    }

    pub(crate) fn page_in(&self, frame: u32) -> Option<u32> {
        let mut page: u32 = 0;
        for entry in &self.entries {
            if entry.frame == Some(frame) {
                return Some(page);
            }
            page = page.saturating_add(1);
        }
        None
    }

    pub(crate) fn is_free(&self, frame: u32) -> bool {
        self.page_in(frame).is_none()
    }

    pub(crate) fn least_free(&self) -> Option<u32> {
        for frame in 0..self.frames {
            if self.is_free(frame) {
                return Some(frame);
            }
        }
        None
    }

    pub(crate) fn all_pins(&self) -> u32 {
        let mut pins: u32 = 0;
        for entry in &self.entries {
            pins = pins.saturating_add(entry.pins);
        }
        pins
    }

    fn least_flushable(&self, from: u32) -> Option<u32> {
        let mut page: u32 = 0;
        for entry in &self.entries {
            if page >= from && entry.is_flushable() {
                return Some(page);
            }
            page = page.saturating_add(1);
        }
        None
    }

    pub(crate) fn dirty_from(&self, from: u32) -> Option<u32> {
        let onward = self.least_flushable(from);
        if onward.is_some() {
            onward
        } else {
            self.least_flushable(0)
        }
    }

    // ---- calls

    /// Whether the conditions of the call hold.
    fn may(&self, entry: Entry, call: Call) -> bool {
        match call {
            Call::Place(frame) => frame < self.frames && entry.pins == 0 && self.is_free(frame),
            Call::Clear => entry.pins == 0,
            Call::Pin => entry.frame.is_some() && self.all_pins() < self.frames,
            Call::Unpin | Call::Grant(_) => entry.latches() < entry.pins,
            Call::Release(Mode::S) => entry.readers > 0,
            Call::Release(Mode::X) => entry.has_writer,
            Call::SetDirty(_) | Call::SetStamp(_) => true,
        }
    }

    /// Makes the call, and answers what it answers: none where its conditions don't hold.
    pub(crate) fn perform(&mut self, page: u32, call: Call) -> Option<bool> {
        let entry = self.entry(page);
        if !self.may(entry, call) {
            return None;
        }
        let answer = entry.answer(call);
        match self.entries.get_mut(page as usize) {
            Some(place) if answer => *place = entry.after(call),
            _ => {}
        }
        Some(answer)
    }
}
