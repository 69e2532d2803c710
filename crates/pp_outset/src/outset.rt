//! An outset: ARC's lists, and what is noted of each page.

ghost use Rattle.std.specs.Prelude.{◌≡◌, ◌*◌, ◌≤◌, IfOk, length, map, vec_capacity};
ghost use Rattle.pp_arc.specs.FourLists.{list_of};
ghost use Rattle.pp_frames.specs.Marks.{page_count as marked_pages};
ghost use Rattle.pp_model.specs.Pool.{State};
ghost use Rattle.pp_core.specs.Opening.{kept_of};
ghost use Rattle.pp_core.specs.StandsFor.{StandsFor};
ghost use Rattle.pp_outset.specs.Outsets.{new_outset, outset_of, HasRoomFor, notes_in, note_at};
ghost use Rattle.pp_outset.specs.Inside.{note_as};

use crate::note::{Note, untouched_notes};
use pp_arc::{Directory, List};
use pp_core::Core;
use pp_frames::Marks;
use pp_settings::Settings;
use std::alloc::{AllocError, Global};
use std::marker::Model;

/// What a life of a pool begins with besides its settings: ARC's four lists and target, and of each page its frame, its mark,
/// and whether it is dirty. All else is the same in every life: each worker idle, no plan, no flush begun.
///
/// Contracts see it as the record `Outset` of two fields, `lists` and `notes`.
///
/// All its memory is got by [`Outset::new`]: 32 bytes for each page number, and 20 for each frame. No other call takes any.
pub struct Outset {
    frames: u32,
    pages: u32,
    target: u32,
    t1: Vec<u32>,
    t2: Vec<u32>,
    b1: Vec<u32>,
    b2: Vec<u32>,
    notes: Vec<Note>,
}

// By hand, so that code that lets one go calls this, and doesn't let each field go anew.
impl Drop for Outset {
    fn drop(self) {
        let Outset {
            frames: _,
            pages: _,
            target: _,
            t1: _,
            t2: _,
            b1: _,
            b2: _,
            notes: _,
        } = self;
    }
}

impl Model for Outset {
    ghost use Rattle.pp_outset.specs.Outsets.{Outset};
    ghost use Rattle.pp_outset.specs.Coding.{coded_outset};

    ghost Value = { Outset };

    ghost coded = { coded_outset };

    ghost use Rattle.pp_outset.specs.Inside.{outset_in, IsRoomy};

    ghost view = { outset_in };

    ghost invariant = { IsRoomy };
}

impl Outset {
    /// The outset of a new pool with these settings: nothing is cached or remembered, and no mark is known.
    ///
    /// It gets all the memory that the outset of any life of such a pool needs.
    ///
    /// # Errors
    ///
    /// Only where that memory can't be had.
    pub fn new(alloc: Global, settings: &Settings) -> Result<Outset, AllocError>
        ensures { IfOk result (λ outset. outset ≡ new_outset (kept_of settings.now)) }
    {
        let frames = settings.frames();
        let room = frames as usize;
        let pages = settings.pages();
        Ok(Outset {
            frames,
            pages,
            target: 0,
            t1: Vec::with_capacity(alloc, room)?,
            t2: Vec::with_capacity(alloc, room)?,
            b1: Vec::with_capacity(alloc, room)?,
            b2: Vec::with_capacity(alloc, 2 * room)?,
            notes: untouched_notes(alloc, pages)?,
        })
    }

    /// Puts what the core leaves in place of what stood here. It takes no memory, and a step for each page number and for each
    /// page of ARC's lists.
    ///
    /// The core must be of a pool with as many frames and pages.
    pub fn leave(&mut self, core: &Core)
        requires { HasRoomFor self.old core.now }
        ensures { (s : State) → StandsFor core.now s → self.new ≡ outset_of s }
    {
        core.known();
        self.copy_lists(core.directory());
        self.copy_notes(core.marks());
    }

    /// Puts ARC's lists and target in place of those that stood here.
    fn copy_lists(&mut self, directory: &Directory)
        requires frames { self.old.lists.c ≡ directory.now.c }
        requires pages { self.old.lists.pages ≡ directory.now.pages }
        ensures { self.new ≡ record self.old { lists = directory.now } }
    {
        self.target = directory.target();
        copy_pages(directory, List::T1, &mut self.t1);
        copy_pages(directory, List::T2, &mut self.t2);
        copy_pages(directory, List::B1, &mut self.b1);
        copy_pages(directory, List::B2, &mut self.b2);
    }

    /// Puts what is noted in the map in place of the notes that stood here.
    fn copy_notes(&mut self, marks: &Marks)
        requires { length self.old.notes ≡ marked_pages marks.now }
        ensures { self.new ≡ record self.old { notes = notes_in marks.now } }
    {
        copy_notes(marks, &mut self.notes);
    }

    /// The size that ARC's list `T1` should have.
    pub fn target(&self) -> u32
        ensures { result ≡ self.now.lists.target }
    {
        self.target
    }

    /// The pages of ARC's list, the most recent first.
    pub fn pages(&self, list: List) -> &[u32]
        ensures { result.now ≡ list_of self.now.lists list }
    {
        match list {
            List::T1 => &self.t1,
            List::T2 => &self.t2,
            List::B1 => &self.b1,
            List::B2 => &self.b2,
        }
    }

    /// The frame of the page, if it is cached.
    pub fn frame_of(&self, page: u32) -> Option<u32>
        ensures { result ≡ (note_at self.now page).frame }
    {
        self.note(page).frame
    }

    /// Whether the page is newer than the device's.
    pub fn is_dirty(&self, page: u32) -> bool
        ensures { result ≡ (note_at self.now page).dirty }
    {
        self.note(page).is_dirty
    }

    /// The mark of the page, if it is known.
    pub fn mark(&self, page: u32) -> Option<u64>
        ensures { result ≡ (note_at self.now page).mark }
    {
        self.note(page).mark
    }

    /// The note of the page.
    fn note(&self, page: u32) -> Note
        ensures { note_as result ≡ note_at self.now page }
    {
        match self.notes.get(page as usize) {
            Some(note) => *note,
            None => Note::untouched(),
        }
    }
}

/// Puts the pages of ARC's list, the most recent first, in place of what stood in the vector.
fn copy_pages(directory: &Directory, list: List, into: &mut Vec<u32>)
    requires { length (list_of directory.now list) ≤ vec_capacity into.old }
    ensures pages { into.new.items ≡ list_of directory.now list }
    ensures room { vec_capacity into.new ≡ vec_capacity into.old }
{
    into.clear();
    let mut at = directory.front(list);
    for _ in 0..directory.len(list) {
        if let Some(page) = at {
            into.push_reserved(page);
            at = directory.after(page);
        }
    }
}

/// Puts the notes of all pages of the map in place of what stood in the vector.
fn copy_notes(marks: &Marks, into: &mut Vec<Note>)
    requires { marked_pages marks.now ≤ vec_capacity into.old }
    ensures notes { map note_as into.new.items ≡ notes_in marks.now }
    ensures room { vec_capacity into.new ≡ vec_capacity into.old }
{
    into.clear();
    for page in 0..marks.pages() {
        into.push_reserved(Note::of(marks, page));
    }
}
