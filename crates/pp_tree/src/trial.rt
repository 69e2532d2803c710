//! A tree on a device, and a plain map that it is compared with, through all passes.

use crate::passes::{Pass, clients_of, like_the_map};
use pp_btree::node::Entry;
use pp_btree::regions::{CHAIRS, FIRST_LEAF, MAP, PAGE_BYTES, PAGES, ROOT, settings_of};
use pp_btree::{Client, OnceLeft, Plans, answer_all, node, shape_of, space};
use pp_buffer_pool::{BufferPool, Policy};
use pp_device::image::HEAD;
use pp_device::{Device, Failing, Trouble, image};
use pp_settings::Settings;
use pp_shared::SharedDevice;
use std::alloc::{AllocError, Global};
use std::collections::BTreeMap;
use std::sync::Wait;
use std::thread::Threads;

/// Fewer calls of an end than so many fail.
const TROUBLES: u32 = 500;

/// Writes the map, in which the first leaf isn't free.
fn write_map<D: Device>(device: &mut D) -> anyhow::Result<()> {
    let mut bytes = [0; PAGE_BYTES];
    image::make(&mut bytes, MAP, 0);
    // The even leaves are the map's group 4.
    space::take(&mut bytes[HEAD..], 4, 0);
    Ok(device.write(MAP, &bytes)?)
}

/// Makes the body a root with one leaf.
fn make_root(body: &mut [u8]) {
    node::make(body, 1);
    let first = Entry {
        key: 0,
        value: u64::from(FIRST_LEAF),
    };
    node::push(body, first);
}

/// Writes the root.
fn write_root<D: Device>(device: &mut D) -> anyhow::Result<()> {
    let mut bytes = [0; PAGE_BYTES];
    image::make(&mut bytes, ROOT, 0);
    make_root(&mut bytes[HEAD..]);
    Ok(device.write(ROOT, &bytes)?)
}

/// Which calls of an end fail: those whose number is a multiple of this.
fn troubles_of(alloc: Global, every: Option<u32>) -> Result<Vec<(u32, Trouble)>, AllocError> {
    let mut troubles = Vec::new(alloc);
    if let Some(every) = every {
        for number in 1..TROUBLES {
            troubles.push((number.saturating_mul(every), Trouble::Fail))?;
        }
    }
    Ok(troubles)
}

/// The ends, of which some calls fail.
fn failing<D: Drop>(
    alloc: Global,
    ends: Vec<D>,
    every: Option<u32>,
) -> Result<Vec<Failing<D>>, AllocError> {
    let mut devices = Vec::new(alloc);
    for end in ends {
        let troubles = troubles_of(alloc, every)?;
        devices.push(Failing::new(end, troubles))?;
    }
    Ok(devices)
}

/// A pool that stands, and the plans that it keeps.
#[derive(Drop)]
struct Served<'a, D: Device + Drop> {
    pool: &'a BufferPool<D>,
    plans: Plans,
}

/// Has the queries of a pass answered, and tells how many came to something else than by the map. Gives back those that
/// were given up.
fn run_pass<D: Device + Drop + Send, R: Print + Threads + Wait + Sync>(
    rt: &R,
    alloc: Global,
    served: &Served<'_, D>,
    map: &mut BTreeMap<u64, u64>,
    name: &str,
    clients: Vec<Client>,
    once_left: OnceLeft,
) -> anyhow::Result<Vec<Client>> {
    let asked = clients.len();
    let desk = answer_all(rt, alloc, served.pool, &served.plans, clients, once_left)?;
    let same = like_the_map(desk.answered.as_slice(), map)?;
    let other = asked
        .saturating_sub(desk.given_up.len())
        .saturating_sub(same);
    println!(rt; "  {name}: {other} otherwise than by the map")?;
    Ok(desk.given_up)
}

/// Tells whether the tree on the device is well-formed, and has exactly what the map has.
fn tell_tree<D: Device + Drop, E: Device, R: Print + Eprint + Wait>(
    rt: &R,
    alloc: Global,
    served: &Served<'_, D>,
    eye: &mut E,
    map: &BTreeMap<u64, u64>,
) -> anyhow::Result<()> {
    let shape = shape_of(alloc, eye)?;
    let stats = served.pool.stats(rt);
    let (keys, nodes, height) = (shape.entries.len(), shape.nodes, shape.height);
    let is_like = stats.dirty == 0 && shape.is_like(map);
    println!(rt; "  the tree is well-formed and has what the map has: {is_like}")?;
    let (done, gone) = (stats.counts.done, stats.counts.gone);
    eprintln!(rt; "  {keys} keys, {nodes} nodes, height {height}, {done} plans done, {gone} left")?;
    Ok(())
}

/// Adds each key, and looks at the tree: first each is asked once, and those whose plan was left are given up; then
/// these are asked again, until all are there.
fn insert_all<D: Device + Drop + Send, E: Device, R: Print + Eprint + Threads + Wait + Sync>(
    rt: &R,
    alloc: Global,
    served: &Served<'_, D>,
    eye: &mut E,
    map: &mut BTreeMap<u64, u64>,
    keys: u64,
) -> anyhow::Result<()> {
    let clients = clients_of(alloc, Pass::Insert, keys)?;
    let (name, once) = ("inserts that are done", OnceLeft::GiveUp);
    let left = run_pass(rt, alloc, served, map, name, clients, once)?;
    tell_tree(rt, alloc, served, eye, map)?;
    println!(rt; "  some were left: {}", !left.is_empty())?;
    let (name, once) = ("inserts that were left, again", OnceLeft::AskAgain);
    run_pass(rt, alloc, served, map, name, left, once)?;
    tell_tree(rt, alloc, served, eye, map)
}

/// The other passes, with their names.
const PASSES: [(&str, Pass); 3] = [
    ("keys that are found", Pass::Find),
    ("updates, deletes and finds", Pass::Change),
    ("scans", Pass::Scan),
];

/// Adds so many keys to a new tree, finds them, changes them and scans them, and tells how each pass went.
fn run_passes<D: Device + Drop + Send, E: Device, R: Print + Eprint + Threads + Wait + Sync>(
    rt: &R,
    alloc: Global,
    settings: &Settings,
    pool: &BufferPool<D>,
    eye: &mut E,
    keys: u64,
) -> anyhow::Result<()> {
    let plans = Plans::prepare(rt, alloc, settings, pool)?;
    let served = Served { pool, plans };
    let mut map = BTreeMap::new(alloc);
    insert_all(rt, alloc, &served, eye, &mut map, keys)?;
    for (name, pass) in PASSES {
        let clients = clients_of(alloc, pass, keys)?;
        let again = OnceLeft::AskAgain;
        run_pass(rt, alloc, &served, &mut map, name, clients, again)?;
    }
    tell_tree(rt, alloc, &served, eye, &map)
}

/// Who waits to start, and when a flusher would begin: this program writes after each pass.
const POLICY: Policy = Policy {
    queue: 16,
    bypass: 8,
    flush_from: 2,
    flush_to: 1,
};

/// All passes over a new tree, by a pool of so many frames. The calls of each end of the device fail whose number is a
/// multiple of `every`, up to 499 calls of an end; none where there is none.
///
/// # Errors
///
/// Where the pool isn't opened or closed, a pass isn't done, or memory runs out.
pub fn try_tree<R: AllocGlobal + Print + Eprint + Threads + Wait + Sync>(
    rt: &R,
    keys: u64,
    frames: u32,
    every: Option<u32>,
) -> anyhow::Result<()> {
    let alloc: Global = rt.alloc();
    let settings = settings_of(alloc, frames)?;
    let mut ends = SharedDevice::over_memory(rt, alloc, PAGES, PAGE_BYTES, CHAIRS + 2)?;
    let Some(mut eye) = ends.pop() else {
        anyhow::bail!("the device has no end");
    };
    write_map(&mut eye)?;
    write_root(&mut eye)?;
    match every {
        Some(every) => println!(rt; "{keys} keys; of the calls of a device each {every}th fails")?,
        None => println!(rt; "{keys} keys; no call of a device fails")?,
    }
    let devices = failing(alloc, ends, every)?;
    let pool = match BufferPool::open(alloc, &settings, POLICY, devices) {
        Ok(pool) => pool,
        Err((error, _devices)) => return Err(anyhow::Error::from(error)),
    };
    let ran = run_passes(rt, alloc, &settings, &pool, &mut eye, keys);
    match pool.close() {
        Ok(_closed) => ran,
        Err((error, pool)) => {
            pool.abandon();
            ran?;
            Err(anyhow::Error::from(error))
        }
    }
}
