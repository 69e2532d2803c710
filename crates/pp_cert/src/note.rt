//! What a certificate notes at each place of a plan.

ghost use Rattle.std.specs.Prelude.{◌≡◌};

use pp_plan::Mode;
use std::marker::Model;

/// How a worker holds a slot's page.
#[derive(Clone, Copy, Debug, PartialEq, Eq)]
pub enum Held {
    /// Fixed, and not latched.
    Free,
    /// Fixed and latched S.
    S,
    /// Fixed and latched X.
    X,
}

impl Held {
    ghost use Rattle.pp_cert.specs.Words.{held_text};

    /// How a text writes it: `-`, `S` or `X`.
    pub fn text(self) -> &'static str
        ensures { result.now ≡ held_text self }
    {
        match self {
            Held::Free => "-",
            Held::S => "S",
            Held::X => "X",
        }
    }
}

/// How a page is held that is latched in the mode.
impl From<Mode> for Held {
    ghost use Rattle.pp_cert.specs.Held.{held_in};

    ghost from_gives = { λ mode held. held ≡ held_in mode };

    fn from(mode: Mode) -> Held {
        match mode {
            Mode::S => Held::S,
            Mode::X => Held::X,
        }
    }
}

/// One slot that is held.
#[derive(Clone, Copy, Debug, PartialEq, Eq)]
pub enum Entry {
    /// A page of the region is fixed in the slot.
    Slot {
        /// The slot's number in the plan.
        slot: u8,
        /// The region's number in the settings.
        region: u8,
        /// How the page is held.
        held: Held,
    },
    /// The slot is a bundle of pages.
    Bundle {
        /// The slot's number in the plan.
        slot: u8,
        /// The most pages that it pins.
        bound: u32,
    },
}

impl Entry {
    ghost use Rattle.pp_cert.specs.Notes.{entry_slot, entry_pins, entry_held, entry_as, is_slot, is_bundle};
    ghost use Rattle.pp_cert.specs.Notes.{is_bundle_of, same_entry};
    ghost use Rattle.pp_cert.specs.declared.note.Entry.TheVariants.{Bundle};

    /// The slot's number in the plan.
    pub fn slot(&self) -> u8
        ensures { result ≡ entry_slot self.now }
    {
        match *self {
            Entry::Slot { slot, .. } | Entry::Bundle { slot, .. } => slot,
        }
    }

    /// How many pages it pins: one, or at most as many as a bundle's bound says.
    pub fn pins(&self) -> u32
        ensures { result ≡ entry_pins self.now }
    {
        match *self {
            Entry::Slot { .. } => 1,
            Entry::Bundle { bound, .. } => bound,
        }
    }

    /// How its page is held; no page of a bundle is latched.
    pub fn held(&self) -> Held
        ensures { result ≡ entry_held self.now }
    {
        match *self {
            Entry::Slot { held, .. } => held,
            Entry::Bundle { .. } => Held::Free,
        }
    }

    /// Whether a page of its own is fixed in this slot.
    pub fn is_slot(&self, number: u8) -> bool
        ensures { result ≡ is_slot number self.now }
    {
        match *self {
            Entry::Slot { slot, .. } => slot == number,
            Entry::Bundle { .. } => false,
        }
    }

    /// Whether the slot is a bundle.
    pub fn is_bundle(&self) -> bool
        ensures { result ≡ is_bundle self.now }
    {
        match *self {
            Entry::Slot { .. } => false,
            Entry::Bundle { .. } => true,
        }
    }

    /// Whether the bundle is this slot.
    pub fn is_bundle_of(&self, number: u8) -> bool
        ensures { result ≡ is_bundle_of number self.now }
    {
        match *self {
            Entry::Slot { .. } => false,
            Entry::Bundle { slot, .. } => slot == number,
        }
    }

    /// Whether the bundle is this slot, with this bound, which may be one that no entry can say.
    pub(crate) fn is_bounded(&self, number: u8, most: u64) -> bool
        ensures { result ≡ same_entry self.now (Bundle number most) }
    {
        match *self {
            Entry::Slot { .. } => false,
            Entry::Bundle { slot, bound } => slot == number && u64::from(bound) == most,
        }
    }

    /// The entry with its page held so; a bundle's stays as it is.
    pub fn held_as(self, held: Held) -> Entry
        ensures { result ≡ entry_as held self }
    {
        match self {
            Entry::Slot { slot, region, .. } => Entry::Slot { slot, region, held },
            Entry::Bundle { .. } => self,
        }
    }
}

/// What is held at one place of a plan: an entry for each slot, by rising slot.
#[derive(Debug, Drop)]
pub struct Note {
    entries: Vec<Entry>,
}

impl Model for Note {
    ghost use Rattle.std.specs.Prelude.{List};
    ghost use Rattle.pp_cert.specs.declared.note.Entry.{Entry};

    ghost Value = { List Entry };

    ghost view = { λ n. n.entries.items };
}

impl Note {
    ghost use Rattle.pp_cert.specs.Notes.{note_pins};

    /// The note with these entries.
    pub fn new(entries: Vec<Entry>) -> Note
        ensures { result ≡ entries.items }
    {
        Note { entries }
    }

    /// The entries in their order.
    pub fn entries(&self) -> &[Entry]
        ensures { result.now ≡ self.now }
    {
        &self.entries
    }

    /// How many pages are pinned where this is held: those of all entries together.
    #[tactic(auto, using(crate::proofs::Pins::pins_left))]
    pub fn pins(&self) -> u128
        ensures { result ≡ note_pins self.now }
    {
        let mut pins = 0;
        for entry in &self.entries {
            pins += u128::from(entry.pins());
        }
        pins
    }

    /// Gives the entries back.
    pub fn into_entries(self) -> Vec<Entry>
        ensures { result.items ≡ self }
    {
        self.entries
    }
}
