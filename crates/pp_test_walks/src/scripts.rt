//! Plays scripts over devices that fail or lie at one call.
//!
//! A line of `cases.txt` names settings, a script and plans. The script is played once for each call that it makes of the
//! device and each trouble at it: the call fails; or it lies with another page, with another stamp, or with a stamp of 2^62.
//! Then all plans are played to their ends, and each page is read. Each line is compared with that of the plain pool, and after
//! each one what holds of the vault is seen. In the end each page has the byte that was written last, where the pool took no lie
//! for it.

use crate::common::{TOO_GREAT, text_in};
use crate::scenario::Scenario;
use crate::stand::play_with;
use crate::store::Call;
use pp_device::Trouble;
use std::alloc::Global;
use std::rt::Files;

/// The troubles that a call gets, one at a time.
fn troubles_at(call: &Call) -> [Trouble; 4] {
    let (page, stamp) = (call.page, call.stamp);
    let other = stamp.checked_sub(1).unwrap_or(1);
    [
        Trouble::Fail,
        Trouble::Lie(page.saturating_add(1), stamp),
        Trouble::Lie(page, other),
        Trouble::Lie(page, TOO_GREAT),
    ]
}

/// Plays the script with each trouble at this call of it. Tells how many cases these are.
fn play_call(alloc: Global, scenario: &Scenario, number: u32, call: &Call) -> anyhow::Result<u32> {
    let mut cases: u32 = 0;
    for trouble in troubles_at(call) {
        if let Err(error) = play_with(alloc, scenario, Some((number, trouble))) {
            anyhow::bail!("{trouble:?} at call {number}: {error}");
        }
        cases = cases.saturating_add(1);
    }
    Ok(cases)
}

/// Plays the script as it is, and with each trouble at each of its calls. Tells how many cases these are.
fn play_cases(alloc: Global, scenario: &Scenario) -> anyhow::Result<u32> {
    let calls = play_with(alloc, scenario, None)?;
    let mut cases: u32 = 0;
    let mut number: u32 = 0;
    for call in &calls {
        number = number.saturating_add(1);
        cases = cases.saturating_add(play_call(alloc, scenario, number, call)?);
    }
    Ok(cases)
}

/// Plays the cases of a line, and tells how many they are.
fn play_line<R: Files + AllocGlobal>(rt: &R, line: &str) -> anyhow::Result<u32> {
    let scenario = Scenario::of(rt, line)?;
    match play_cases(rt.alloc(), &scenario) {
        Ok(cases) => Ok(cases),
        Err(error) => anyhow::bail!("{line}: {error}"),
    }
}

/// Plays all cases, and tells how many they are.
fn play_all<R: Files + AllocGlobal>(rt: &R) -> anyhow::Result<u32> {
    let lines = text_in(rt, "scripts", "cases.txt")?;
    let mut cases: u32 = 0;
    for line in lines.as_str().lines() {
        cases = cases.saturating_add(play_line(rt, line)?);
    }
    Ok(cases)
}

/// Plays all cases, and tells what came.
pub fn played<R: Files + AllocGlobal>(rt: &R) -> anyhow::Result<String> {
    let cases = play_all(rt)?;
    Ok(format!(in rt.alloc(); "{cases} cases: all lines agree, and what was written is read")?)
}
