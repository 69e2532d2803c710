//! What the tests share: how answers are compared, and what is picked by chance.

use pp_test_plain::Chance;
use std::fmt::Debug;

/// Sees that both are the same.
///
/// # Errors
///
/// An error that tells both, where they differ.
pub fn same<T: Copy + PartialEq + Debug>(what: &str, got: T, want: T) -> anyhow::Result<()> {
    if got != want {
        anyhow::bail!("{what}: {got:?}, and not {want:?}");
    }
    Ok(())
}

/// One of so many places, by chance; 0 where there is none.
pub fn place_of(count: usize, chance: &mut Chance) -> usize {
    chance.below(u32::try_from(count).unwrap_or(u32::MAX)) as usize
}
