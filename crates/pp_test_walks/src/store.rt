//! A plain pool with the bytes of its pages, over a device in memory.

use crate::plain::{Plain, Stage};
use crate::turns::move_of;
use pp_device::Trouble;
use pp_play::Line;
use pp_script::Cue;
use pp_settings::Settings;
use pp_vault::{Came, Cause, Held, Move, Refusal, Reply};
use std::alloc::{AllocError, Global};

/// What of an image may differ from that of a new device: its stamp and the first byte of its body.
#[derive(Clone, Copy)]
pub struct Image {
    pub stamp: u64,
    pub byte: u8,
}

/// What is kept of a page beside what the pool keeps.
#[derive(Clone, Copy)]
pub struct Bytes {
    /// What the device has.
    pub kept: Image,
    /// The byte in the page's frame, or that goes along with a token.
    pub byte: u8,
    /// The byte that a worker wrote last, or that of a new device.
    pub written: u8,
    /// Whether an image was taken for it that the device never had.
    pub is_lied: bool,
}

/// A page of a new device.
const NEW: Bytes = Bytes {
    kept: Image { stamp: 0, byte: 0 },
    byte: 0,
    written: 0,
    is_lied: false,
};

/// A call of the device: the page, and the stamp that the device has for it.
#[derive(Clone, Copy)]
pub struct Call {
    pub page: u32,
    pub stamp: u64,
}

/// The pool, the bytes of each page, and the device's troubles and calls.
pub struct Store<'a> {
    pub plain: Plain<'a>,
    pub bytes: Vec<Bytes>,
    /// The byte of the page that is flushed, as that began.
    flushed: u8,
    pub troubles: Vec<(u32, Trouble)>,
    pub calls: Vec<Call>,
}

impl Drop for Store<'_> {
    fn drop(self) {
        let Store {
            plain: _,
            bytes: _,
            flushed: _,
            troubles: _,
            calls: _,
        } = self;
    }
}

impl<'a> Store<'a> {
    /// A new pool over a new device.
    pub fn new(
        alloc: Global,
        settings: &Settings,
        troubles: Vec<(u32, Trouble)>,
    ) -> Result<Store<'a>, AllocError> {
        let plain = Plain::new(alloc, settings)?;
        let bytes = Vec::from_elem(alloc, NEW, settings.pages() as usize)?;
        Ok(Store {
            plain,
            bytes,
            flushed: 0,
            troubles,
            calls: Vec::new(alloc),
        })
    }

    // ---- the bytes

    /// What is kept of the page; of none what a new device has.
    pub fn of(&self, page: u32) -> Bytes {
        self.bytes.get(page as usize).copied().unwrap_or(NEW)
    }

    /// The image that is cached, or goes along with a token.
    pub fn image(&self, page: u32) -> Image {
        Image {
            stamp: self.plain.mark_or_zero(page),
            byte: self.of(page).byte,
        }
    }

    /// The page is ready in its frame: as the device has it, or with zeros where that lied.
    fn load(&mut self, page: u32) {
        let lies = self.trouble().is_some();
        if let Some(bytes) = self.bytes.get_mut(page as usize) {
            bytes.byte = if lies { 0 } else { bytes.kept.byte };
            bytes.is_lied = bytes.is_lied || lies;
        }
    }

    fn write_byte(&mut self, worker: u32, slot: u32, byte: u8) -> Line {
        let Some((page, Held::X)) = self.plain.held(worker, slot) else {
            return Line::NoLatch;
        };
        if let Some(bytes) = self.bytes.get_mut(page as usize) {
            bytes.byte = byte;
            bytes.written = byte;
        }
        Line::Wrote
    }

    fn look(&self, worker: u32, slot: u32) -> Line {
        match self.plain.held(worker, slot) {
            Some((page, Held::S | Held::X)) => Line::Looked(self.of(page).byte),
            _ => Line::NoLatch,
        }
    }

    // ---- the device

    /// The trouble of the last call: the last one that is planted at it.
    pub fn trouble(&self) -> Option<Trouble> {
        let mut found = None;
        for (call, trouble) in &self.troubles {
            if *call as usize == self.calls.len() {
                found = Some(*trouble);
            }
        }
        found
    }

    /// The device is called, and maybe has a trouble.
    fn call(&mut self, page: u32) -> Result<Option<Trouble>, AllocError> {
        let stamp = self.of(page).kept.stamp;
        self.calls.push(Call { page, stamp })?;
        Ok(self.trouble())
    }

    /// The device is to write the image, and says whether it did.
    fn write(&mut self, page: u32, image: Image) -> Result<bool, AllocError> {
        if let Some(Trouble::Fail) = self.call(page)? {
            return Ok(false);
        }
        if let Some(bytes) = self.bytes.get_mut(page as usize) {
            bytes.kept = image;
        }
        Ok(true)
    }

    /// The device is to read the page.
    fn read(&mut self, page: u32) -> Result<Came, AllocError> {
        Ok(match self.call(page)? {
            None => Came::Image(page, self.of(page).kept.stamp),
            Some(Trouble::Fail) => Came::Fault,
            Some(Trouble::Lie(other, stamp)) => Came::Image(other, stamp),
        })
    }

    /// The device carries the worker's errand out, if that has one.
    fn errand(&mut self, worker: u32) -> Result<Option<Move>, AllocError> {
        match self.plain.stage(worker) {
            Some(Stage::Writing { victim, .. }) => {
                let ok = self.write(victim, self.image(victim))?;
                Ok(Some(Move::WriteDone { worker, ok }))
            }
            Some(Stage::Reading { page, .. }) => {
                let came = self.read(page)?;
                Ok(Some(Move::ReadDone { worker, came }))
            }
            _ => Ok(None),
        }
    }

    /// The device writes the page that is flushed, if one is, as it was when that began.
    fn flush(&mut self) -> Result<Option<Move>, AllocError> {
        let Some((page, stamp)) = self.plain.flush else {
            return Ok(None);
        };
        let byte = self.flushed;
        let ok = self.write(page, Image { stamp, byte })?;
        Ok(Some(Move::FlushDone { ok }))
    }

    // ---- cues

    /// Plays a cue.
    pub fn play(&mut self, cue: Cue) -> Result<Line, AllocError> {
        let asked = match cue {
            Cue::Write { worker, slot, byte } => return Ok(self.write_byte(worker, slot, byte)),
            Cue::Look { worker, slot } => return Ok(self.look(worker, slot)),
            Cue::Device { worker } => self.errand(worker)?,
            Cue::FlushDevice => self.flush()?,
            _ => move_of(cue),
        };
        match asked {
            Some(asked) => self.step(cue, asked),
            None => Ok(Line::Refused(cue, Refusal::OffPlan(Cause::NoErrand))),
        }
    }

    /// Makes the move that the cue comes to, and keeps the bytes in step with it.
    fn step(&mut self, cue: Cue, asked: Move) -> Result<Line, AllocError> {
        let reply = self.plain.step(asked)?;
        match (asked, reply) {
            (_, Reply::NotNow(delay)) => return Ok(Line::Refused(cue, Refusal::NotNow(delay))),
            (_, Reply::OffPlan(cause)) => return Ok(Line::Refused(cue, Refusal::OffPlan(cause))),
            (
                Move::ReadDone {
                    came: Came::Image(page, _),
                    ..
                },
                Reply::Loaded { .. },
            ) => self.load(page),
            (Move::FlushBegin { page }, _) => self.flushed = self.of(page).byte,
            _ => {}
        }
        Ok(Line::Did(asked, reply))
    }
}
