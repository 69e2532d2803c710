//! Stacks of pages alone: bundles, whose pages are gathered one by one and given back whole.

ghost use Rattle.std.specs.Prelude.{◌≡◌, ◌≢◌, ℕ, [], length, Some, IfOk};
ghost use Rattle.pp_bundles.specs.Bundles.{pages_at};

use pp_bundles::Bundles;
use std::alloc::{AllocError, Global};

/// How many bundles there are, and how many pages they may have together.
const BUNDLES: u32 = 3;

const ROOM: u32 = 4;

/// Gives back all pages of a bundle, the one that was gathered last first, and tells how many they were.
fn scatter(bundles: &mut Bundles, bundle: u32) -> u32
    ensures count { result ≡ length (pages_at bundles.old bundle) }
    ensures empty { pages_at bundles.new bundle ≡ [] }
    ensures others { (k : ℕ) → k ≢ bundle → pages_at bundles.new k ≡ pages_at bundles.old k }
{
    let count = bundles.count(bundle);
    // A real pool takes one pin off each page here.
    while let Some(_page) = bundles.pop(bundle) {}
    count
}

/// Gathers a page in bundle 2 and two in bundle 0, takes one of these back, and then gives back the rest of bundle 0.
///
/// Answers the page that came back first, how many came after it, and how many bundle 2 has still.
pub fn last_gathered(
    alloc: Global,
    first: u32,
    last: u32,
) -> Result<(Option<u32>, u32, u32), AllocError>
    ensures last { IfOk result (λ told. told.0 ≡ Some last) }
    ensures rest { IfOk result (λ told. told.1 ≡ 1) }
    ensures other { IfOk result (λ told. told.2 ≡ 1) }
{
    let mut bundles = Bundles::new(alloc, BUNDLES, ROOM)?;
    bundles.push(2, first);
    bundles.push(0, first);
    bundles.push(0, last);
    let popped = bundles.pop(0);
    let rest = scatter(&mut bundles, 0);
    Ok((popped, rest, bundles.count(2)))
}
