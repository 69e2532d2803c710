//! Eight small callers, to copy from: the checker of certificates alone, ARC's directory alone, marks alone, stacks of pages
//! alone, a tiny cache of the directory and the marks together, devices alone, a vault over a device, in one life and in
//! two, and a script over a device in memory.
//!
//! Each stands in a file of its own, asks for nothing else of the pool, and is proved against the public contracts of
//! the parts that it uses.
#![tactic(auto)]

mod bundles;
mod cache;
mod checker;
mod device;
mod directory;
mod marks;
mod script;
mod vault;

/// Calls each part once, and prints what it answered.
fn main(rt: HostRuntime) -> anyhow::Result<()> {
    show_checker(&rt)?;
    show_directory(&rt)?;
    show_marks(&rt)?;
    show_bundles(&rt)?;
    show_cache(&rt)?;
    show_device(&rt)?;
    show_vault(&rt)?;
    show_lives(&rt)?;
    show_script(&rt)
}

fn show_checker(rt: &HostRuntime) -> anyhow::Result<()> {
    let left = checker::frames_beside(rt.alloc())?;
    println!(rt; "checker: the plan is accepted, and leaves {left} frame to others at any time")?;
    Ok(())
}

fn show_directory(rt: &HostRuntime) -> anyhow::Result<()> {
    let misses = directory::misses(rt.alloc(), &[1, 2, 1, 3, 2, 1])?;
    println!(rt; "directory: {misses} of 6 requests missed")?;
    Ok(())
}

fn show_marks(rt: &HostRuntime) -> anyhow::Result<()> {
    if let Some(frame) = marks::load(rt.alloc(), 16)? {
        println!(rt; "marks: page 16 was read in frame {frame}, and is given back")?;
    }
    Ok(())
}

fn show_bundles(rt: &HostRuntime) -> anyhow::Result<()> {
    let (last, rest, other) = bundles::last_gathered(rt.alloc(), 5, 7)?;
    println!(rt;
        "bundles: {last:?} comes back first, then {rest} page more, and {other} stays in another bundle"
    )?;
    Ok(())
}

fn show_cache(rt: &HostRuntime) -> anyhow::Result<()> {
    let (while_in_use, unfixed) = cache::fourth_page(rt.alloc())?;
    println!(rt;
        "cache: page 4 gets {while_in_use:?} while 3 pages are in use, {unfixed:?} once page 1 is unfixed"
    )?;
    Ok(())
}

fn show_device(rt: &HostRuntime) -> anyhow::Result<()> {
    let [failed, other, found] = device::three_readings(rt.alloc())?;
    println!(rt; "device: page 1 is read as {failed:?}, as {other:?}, and as {found:?}")?;
    Ok(())
}

fn show_vault(rt: &HostRuntime) -> anyhow::Result<()> {
    if let Some(changed) = vault::changed_pages(rt.alloc())? {
        println!(rt; "vault: {changed} page is newer than the device's")?;
    }
    Ok(())
}

fn show_lives(rt: &HostRuntime) -> anyhow::Result<()> {
    if let Some(changed) = vault::changed_pages_in_two_lives(rt.alloc())? {
        println!(rt;
            "vault: {changed} page is so after two lives, of which the second reads nothing"
        )?;
    }
    Ok(())
}

fn show_script(rt: &HostRuntime) -> anyhow::Result<()> {
    if let Some(byte) = script::byte_read_again(rt.alloc())? {
        println!(rt;
            "script: page 2 was written back and read again, and its first byte is still {byte}"
        )?;
    }
    Ok(())
}
