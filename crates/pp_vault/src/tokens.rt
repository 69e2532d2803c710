//! Tokens of workers and of the flusher.

ghost use Rattle.std.specs.Prelude.{◌≡◌};
ghost use Rattle.pp_vault.specs.Duties.{duty_worker, duty_slot, duty_page, is_reading};

use crate::image::Image;
use pp_device::Fault;
use pp_plan::Ask;

/// An idle worker.
#[derive(Debug)]
pub struct Chair {
    pub(crate) worker: u32,
}

/// A worker in its plan, for which no device works.
#[derive(Debug)]
pub struct Session {
    pub(crate) worker: u32,
    pub(crate) ask: Ask,
}

/// A worker that leaves its plan after a fix that failed.
#[derive(Debug)]
pub struct Leaver {
    pub(crate) worker: u32,
}

/// What a device is asked.
#[derive(Clone, Copy, Debug, PartialEq, Eq)]
pub(crate) enum Duty {
    /// To read the page, which is fixed into the worker's slot.
    Read {
        worker: u32,
        slot: u32,
        page: u32,
    },
    /// To write the victim back, whose frame the page gets. The head of its image has the victim's mark.
    Write {
        worker: u32,
        slot: u32,
        page: u32,
        victim: u32,
    },
    /// To write the page, which stays in its frame.
    Flush {
        page: u32,
    },
}

/// A call of a device that is to be made: a read or a write for a worker, or a flush, with the buffer.
#[derive(Debug)]
pub struct Errand {
    pub(crate) duty: Duty,
    pub(crate) image: Image,
}

/// A call of a device that was made, and what came of it.
#[derive(Debug)]
pub struct Returned {
    pub(crate) duty: Duty,
    pub(crate) image: Image,
    pub(crate) answer: Result<(), Fault>,
}

impl Duty {
    /// The worker that the device works for. None for a flush.
    pub(crate) fn worker(&self) -> Option<u32>
        ensures { result ≡ duty_worker self.now }
    {
        match *self {
            Duty::Read { worker, .. } | Duty::Write { worker, .. } => Some(worker),
            Duty::Flush { .. } => None,
        }
    }

    /// The page that the device is called with: where a victim is to be written back, the victim.
    pub(crate) fn page(&self) -> u32
        ensures { result ≡ duty_page self.now }
    {
        match *self {
            Duty::Read { page, .. } | Duty::Flush { page } => page,
            Duty::Write { victim, .. } => victim,
        }
    }

    /// The slot that the page comes into. None for a flush.
    pub(crate) fn slot(&self) -> Option<u32>
        ensures { result ≡ duty_slot self.now }
    {
        match *self {
            Duty::Read { slot, .. } | Duty::Write { slot, .. } => Some(slot),
            Duty::Flush { .. } => None,
        }
    }
}

impl Chair {
    /// The worker's number.
    pub fn worker(&self) -> u32
        ensures { result ≡ self.now.worker }
    {
        self.worker
    }
}

impl Session {
    /// The worker's number.
    pub fn worker(&self) -> u32
        ensures { result ≡ self.now.worker }
    {
        self.worker
    }

    /// What the worker's plan asks next.
    pub fn ask(&self) -> Ask
        ensures { result ≡ self.now.ask }
    {
        self.ask
    }
}

impl Leaver {
    /// The worker's number.
    pub fn worker(&self) -> u32
        ensures { result ≡ self.now.worker }
    {
        self.worker
    }
}

impl Errand {
    /// The worker for whom the device is asked. None for a flush.
    pub fn worker(&self) -> Option<u32>
        ensures { result ≡ duty_worker self.now.duty }
    {
        self.duty.worker()
    }

    /// The slot into which the worker's page comes. None for a flush.
    pub fn slot(&self) -> Option<u32>
        ensures { result ≡ duty_slot self.now.duty }
    {
        self.duty.slot()
    }

    /// The page that the device is to be called with: where a victim is to be written back, the victim.
    pub fn page(&self) -> u32
        ensures { result ≡ duty_page self.now.duty }
    {
        self.duty.page()
    }

    /// Whether the device is to read the page. Else it is to write it.
    pub fn is_reading(&self) -> bool
        ensures { result ≡ is_reading self.now.duty }
    {
        matches!(self.duty, Duty::Read { .. })
    }

    /// The image that is to be written, or the buffer into which the device is to read.
    ///
    /// It is for a host whose device can't be called by [`Errand::carry_out`], and which writes the bytes in its own time.
    pub fn bytes(&self) -> &[u8]
        ensures { result.now ≡ self.now.image }
    {
        self.image.bytes()
    }
}

impl Returned {
    /// The worker for whom the device was asked. None for a flush.
    pub fn worker(&self) -> Option<u32>
        ensures { result ≡ duty_worker self.now.duty }
    {
        self.duty.worker()
    }

    /// The slot into which the worker's page comes. None for a flush.
    pub fn slot(&self) -> Option<u32>
        ensures { result ≡ duty_slot self.now.duty }
    {
        self.duty.slot()
    }

    /// The page that the device was called with: where a victim was to be written back, the victim.
    pub fn page(&self) -> u32
        ensures { result ≡ duty_page self.now.duty }
    {
        self.duty.page()
    }
}
