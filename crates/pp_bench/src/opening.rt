//! Opens vaults: how long that takes, and how much memory.

use crate::trouble::Trouble;
use crate::watch::{self, Counted, Watch};
use crate::words;
use pp_bench_traces::Size;
use pp_vault::{Hands, Vault};
use std::alloc::Global;
use std::fs;

/// Where the system tells how much memory the program has, in pages of [`SYSTEM_PAGE`] bytes: the first number there.
const MEMORY: &str = "/proc/self/statm";

/// How many bytes a page of the system has.
const SYSTEM_PAGE: u64 = 4096;

/// Opens a vault of this size and gives it up. Prints how many frames it has, and on standard error how many nanoseconds the
/// opening took.
pub fn play(rt: &HostRuntime, words: &[String]) -> Result<(), Trouble> {
    let size = words::size(words)?;
    let settings = pp_bench_traces::settings_of(rt.alloc(), size)?;
    let watch = Watch::start(rt);
    let opened = Vault::new(rt.alloc(), &settings);
    let nanos = watch.nanos(rt);
    let Ok((vault, hands)) = opened else {
        return Err(Trouble::Memory);
    };
    vault.scrap(hands);
    let frames = Counted::One(u64::from(settings.frames()));
    watch::tell(rt, frames, nanos, 1, "the opening")
}

/// Prints how many bytes a page number takes, with two places behind the point. A vault of this size is opened while one is open
/// that has half as many page numbers; what the second one takes more is the other half's.
pub fn weigh(rt: &HostRuntime, words: &[String]) -> Result<(), Trouble> {
    let whole = words::size(words)?;
    let half = Size {
        pages: whole.pages / 2,
        ..whole
    };
    let numbers = u64::from(whole.pages - half.pages).max(1);
    let before = memory(rt)?;
    let smaller = Opened::new(rt.alloc(), half)?;
    let between = memory(rt);
    let larger = Opened::new(rt.alloc(), whole);
    let after = memory(rt);
    smaller.end();
    larger?.end();
    let between = between?;
    let (first, second) = (
        between.saturating_sub(before),
        after?.saturating_sub(between),
    );
    let hundredths = second.saturating_sub(first).saturating_mul(100) / numbers;
    println!(rt; "{}.{:02}", hundredths / 100, hundredths % 100)?;
    Ok(())
}

/// A vault that is open, and its hands.
struct Opened {
    vault: Vault,
    hands: Hands,
}

impl Opened {
    /// A vault of this size.
    fn new(alloc: Global, size: Size) -> Result<Opened, Trouble> {
        let settings = pp_bench_traces::settings_of(alloc, size)?;
        match Vault::new(alloc, &settings) {
            Ok((vault, hands)) => Ok(Opened { vault, hands }),
            Err(_) => Err(Trouble::Memory),
        }
    }

    /// Gives it up.
    fn end(self) {
        let Opened { vault, hands } = self;
        vault.scrap(hands);
    }
}

/// How many bytes of memory the program has.
fn memory(rt: &HostRuntime) -> Result<u64, Trouble> {
    let text = fs::read_to_string(rt, MEMORY)?;
    let pages = text
        .split(' ')
        .next()
        .and_then(|word| word.parse::<u64>().ok());
    match pages {
        Some(pages) => Ok(pages.saturating_mul(SYSTEM_PAGE)),
        None => Err(Trouble::Refused),
    }
}
