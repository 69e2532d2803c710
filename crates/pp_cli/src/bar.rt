//! A bar on a terminal that shows how far a long job is.

use pp_device::Watch;
use pp_judge::DeviceSize;
use std::io::Write;

/// How many bytes a device has at most that is written without a bar: 64 MiB, which take about a second even where writing
/// is slow.
const SHORT: u64 = 64 << 20;

/// How many places a bar has: each stands for two hundredths, and all fit a narrow terminal.
const PLACES: u32 = 50;

/// A bar of 50 places on a terminal. It is drawn only for a device of more than 64 MiB, and only where there is a
/// terminal; what the terminal doesn't take is lost.
#[derive(Debug, Drop)]
pub struct Bar<W: Write> {
    terminal: Option<W>,
    is_drawn: bool,
    filled: u32,
}

impl<W: Write> Bar<W> {
    /// A bar on this terminal, if there is one.
    pub fn on(terminal: Option<W>) -> Bar<W> {
        Bar {
            terminal,
            is_drawn: false,
            filled: 0,
        }
    }

    /// The terminal, if there is one.
    pub fn terminal(&mut self) -> Option<&mut W> {
        self.terminal.as_mut()
    }

    /// Draws the empty bar, where the device is large.
    pub fn begin(&mut self, size: DeviceSize) {
        self.filled = 0;
        self.is_drawn = u64::from(size.pages) * u64::from(size.page_bytes) > SHORT;
        self.say("[..................................................]\r[");
    }

    /// Leaves the bar's line.
    pub fn end(&mut self) {
        self.say("\n");
        self.is_drawn = false;
    }

    fn say(&mut self, text: &str) {
        if !self.is_drawn {
            return;
        }
        if let Some(terminal) = &mut self.terminal {
            let _ = terminal.write_all(text.as_bytes());
        }
    }
}

impl<W: Write> Watch for Bar<W> {
    fn written(&mut self, pages: u32, all: u32) {
        let places = u64::from(pages) * u64::from(PLACES) / u64::from(all.max(1));
        let filled = places.min(u64::from(PLACES)) as u32;
        for _ in self.filled..filled {
            self.say("#");
        }
        self.filled = self.filled.max(filled);
    }
}
