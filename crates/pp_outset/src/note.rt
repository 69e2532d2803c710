//! What is noted of a page.

ghost use Rattle.std.specs.Prelude.{◌≡◌, replicate, map, IfOk};
ghost use Rattle.pp_model.specs.Pool.{untouched};
ghost use Rattle.pp_outset.specs.Inside.{note_as};
ghost use Rattle.pp_outset.specs.Outsets.{note_in};

use pp_frames::Marks;
use std::alloc::{AllocError, Global};

/// What an outset keeps of a page.
#[derive(Clone, Copy)]
pub(crate) struct Note {
    /// The frame that the page has, if it is cached.
    pub(crate) frame: Option<u32>,
    /// Whether the page is newer than the device's.
    pub(crate) is_dirty: bool,
    /// The page's mark, where it is known.
    pub(crate) mark: Option<u64>,
}

impl Note {
    /// The note of a page with which nothing was ever done.
    pub(crate) fn untouched() -> Note
        ensures { note_as result ≡ untouched }
    {
        Note {
            frame: None,
            is_dirty: false,
            mark: None,
        }
    }

    /// The note of the page in the map of the marks.
    pub(crate) fn of(marks: &Marks, page: u32) -> Note
        ensures { note_as result ≡ note_in marks.now page }
    {
        Note {
            frame: marks.frame_of(page),
            is_dirty: marks.is_dirty(page),
            mark: marks.stamp(page),
        }
    }
}

/// The notes of so many pages with which nothing was ever done.
pub(crate) fn untouched_notes(alloc: Global, pages: u32) -> Result<Vec<Note>, AllocError>
    ensures { IfOk result (λ notes. map note_as notes.items ≡ replicate pages untouched) }
{
    let mut notes = Vec::with_capacity(alloc, pages as usize)?;
    for _ in 0..pages {
        notes.push_reserved(Note::untouched());
    }
    Ok(notes)
}
