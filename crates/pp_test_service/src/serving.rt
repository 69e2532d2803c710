//! Plays a scene, and looks at all that it leaves.

use crate::board::{Board, same};
use crate::player::changes_in;
use crate::scene::{Faults, PAGE_BYTES, PAGES, Scene, Thing};
use crate::threads::{act_all, act_between};
use crate::watched::{Pool, Watched};
use pp_buffer_pool::{BufferPool, CloseError, Closed, Stats};
use pp_device::{Device, Failing, Trouble, image};
use pp_settings::Settings;
use pp_shared::SharedDevice;
use std::alloc::Global;
use std::process::Abort;
use std::sync::{Arc, Wait};
use std::thread::Threads;
use std::time::Clock;

/// The settings of a scene: an endless life.
fn settings_of(rt: &impl Abort, alloc: Global, scene: &Scene) -> Settings {
    let text = format!(in alloc;
        "version = 2\nframes = {}\npage_bytes = {PAGE_BYTES}\nworkers = {}\nwaiting = 1\nflushes = {}\n{}",
        scene.frames, scene.workers, scene.flushes, scene.regions
    )
    .expect(rt, "memory");
    match Settings::from_text(alloc, &text) {
        Ok(settings) => settings,
        Err(_) => panic!(rt; "{}: no settings", scene.name),
    }
}

/// These writings of the flusher's end fail. Before them it reads once, as the pool is opened.
fn add_failures(rt: &impl Abort, writings: &[u32], troubles: &mut Vec<(u32, Trouble)>) {
    for writing in writings {
        troubles
            .push((writing.saturating_add(1), Trouble::Fail))
            .expect(rt, "memory");
    }
}

/// What goes amiss at the end with this number.
fn troubles(rt: &impl Abort, alloc: Global, scene: &Scene, number: u32) -> Vec<(u32, Trouble)> {
    let mut troubles = Vec::new(alloc);
    match scene.faults {
        Faults::Flusher(writings) if number == scene.workers => {
            add_failures(rt, writings, &mut troubles)
        }
        Faults::Often => {
            for time in 1..60u32 {
                troubles
                    .push((time * 40, Trouble::Fail))
                    .expect(rt, "memory");
                troubles
                    .push((time * 40 + 20, Trouble::Lie(9999, 0)))
                    .expect(rt, "memory");
            }
        }
        _ => {}
    }
    troubles
}

/// The ends of a scene: one for each chair, and one for the flusher.
fn ends_of<R: Abort + Wait + Copy + Drop>(
    rt: &R,
    alloc: Global,
    board: &Arc<Board>,
) -> Vec<Watched<R>> {
    let count = (board.scene.workers as usize).saturating_add(1);
    let ends = SharedDevice::over_memory(*rt, alloc, PAGES, PAGE_BYTES, count).expect(rt, "memory");
    let mut watched = Vec::new(alloc);
    let mut number = 0u32;
    for end in ends {
        let device = Failing::new(end, troubles(rt, alloc, board.scene, number));
        let told = Arc::try_clone(board).expect(rt, "memory");
        watched
            .push(Watched::new(*rt, told, number, device))
            .expect(rt, "memory");
        number = number.saturating_add(1);
    }
    watched
}

/// The pool of a scene, in which nothing was done.
fn opened<R: Abort + Wait + Clock + Copy + Drop>(
    rt: &R,
    alloc: Global,
    board: &Arc<Board>,
    settings: &Settings,
) -> Pool<R> {
    let ends = ends_of(rt, alloc, board);
    match BufferPool::open(alloc, settings, board.scene.policy, ends) {
        Ok(pool) => pool,
        Err((error, _ends)) => panic!(rt; "{}: not opened: {error}", board.scene.name),
    }
}

/// The pool's own counts are those of the threads, and all is at rest.
fn adds_up(rt: &impl Abort, board: &Board, stats: Stats) {
    let counts = stats.counts;
    let flushes = counts.flushes.saturating_add(counts.failed_flushes);
    let fixes = counts.hits.saturating_add(counts.misses);
    let (name, chairs) = (board.scene.name, u64::from(board.scene.workers));
    same(
        rt,
        name,
        "plans that are done",
        counts.done,
        board.number(Thing::Done),
    );
    same(
        rt,
        name,
        "plans that are gone",
        counts.gone,
        board.number(Thing::Gone),
    );
    same(rt, name, "fixes", fixes, board.number(Thing::Asked));
    same(
        rt,
        name,
        "writings of workers",
        counts.write_backs,
        board.number(Thing::Written),
    );
    same(rt, name, "flushes", flushes, board.number(Thing::Flushed));
    same(rt, name, "running peaks", stats.running_peaks, 0);
    same(rt, name, "plans that wait", u64::from(stats.waiting), 0);
    same(rt, name, "chairs", stats.chairs as u64, chairs);
}

/// So many pages are dirty, and so many things were told, as the scene says.
fn has_counts(rt: &impl Abort, board: &Board, dirty: u32) {
    let scene = board.scene;
    if let Some(want) = scene.dirty {
        same(
            rt,
            scene.name,
            "dirty pages",
            u64::from(dirty),
            u64::from(want),
        );
    }
    for counted in scene.counts {
        let (thing, want) = *counted;
        let got = board.number(thing);
        if got != want {
            panic!(rt; "{}: {got} of {thing:?}, and not {want}", scene.name);
        }
    }
}

/// The page is one of those that are dirty.
fn is_dirty<R: Abort + Wait>(rt: &R, board: &Board, pool: &Pool<R>, page: u32)
where
    R: Clock + Drop,
{
    let mut pages = [(0u32, 0u64); PAGES as usize];
    let count = pool.dirty_pages(rt, pages.as_mut_slice());
    same(
        rt,
        board.scene.name,
        "dirty pages",
        count as u64,
        u64::from(pool.stats(rt).dirty),
    );
    for (dirty, mark) in pages.iter().take(count) {
        if *dirty == page {
            same(
                rt,
                board.scene.name,
                "the mark of a dirty page",
                *mark,
                board.changes(page),
            );
            return;
        }
    }
    panic!(rt;
        "{}: page {page} couldn't be written, and isn't dirty",
        board.scene.name
    );
}

/// Closes the pool. Where a page couldn't be written it is dirty, and what the scene has in between is done.
fn close_once<R: Abort + Wait + Clock + Copy + Drop>(
    rt: &R,
    alloc: Global,
    board: &Board,
    settings: &Settings,
    pool: Pool<R>,
) -> Result<Closed<Watched<R>>, Pool<R>> {
    match pool.close() {
        Ok(closed) => Ok(closed),
        Err((error, back)) => {
            let CloseError::WriteFault(page) = error else {
                panic!(rt; "{}: not closed: {error}", board.scene.name);
            };
            is_dirty(rt, board, &back, page);
            act_between(rt, alloc, settings, &back, board);
            Err(back)
        }
    }
}

/// Closes the pool, as often as it takes.
fn close<R: Abort + Wait + Clock + Copy + Drop>(
    rt: &R,
    alloc: Global,
    board: &Board,
    settings: &Settings,
    pool: Pool<R>,
) -> Closed<Watched<R>> {
    let mut pool = pool;
    for faults in 0..1_000u32 {
        match close_once(rt, alloc, board, settings, pool) {
            Ok(closed) => {
                has_faults(rt, board, faults);
                return closed;
            }
            Err(back) => pool = back,
        }
    }
    panic!(rt; "{}: never closed", board.scene.name)
}

/// So many writings failed before the pool was closed, as the scene says.
fn has_faults(rt: &impl Abort, board: &Board, faults: u32) {
    if let Some(want) = board.scene.faults_at_close {
        let (got, want) = (u64::from(faults), u64::from(want));
        same(rt, board.scene.name, "faults at the close", got, want);
    }
}

/// The device has all changes of the page.
fn is_whole<R: Abort + Wait>(
    rt: &R,
    board: &Board,
    device: &mut SharedDevice<R>,
    page: u32,
    bytes: &mut [u8],
) {
    let name = board.scene.name;
    if bytes.len() < 16 {
        panic!(rt; "{name}: pages are too short");
    }
    if device.read(page, bytes).is_err() {
        panic!(rt; "{name}: page {page} was not read");
    }
    let (number, mark) = image::head(bytes);
    same(
        rt,
        name,
        "the page's number",
        u64::from(number),
        u64::from(page),
    );
    same(
        rt,
        name,
        "the mark on the device",
        mark,
        board.changes(page),
    );
    let there = changes_in(rt, name, &bytes[image::HEAD..]);
    same(
        rt,
        name,
        "the changes on the device",
        there,
        board.changes(page),
    );
}

/// Gives the pool up, which can't be closed for this cause.
fn give_up<R: Abort + Wait + Clock + Copy + Drop>(
    rt: &R,
    board: &Board,
    pool: Pool<R>,
    why: CloseError,
    lost: u32,
) -> Vec<Watched<R>> {
    let name = board.scene.name;
    let (error, pool) = match pool.close() {
        Ok(_closed) => panic!(rt; "{name}: closed, and not {why}"),
        Err(back) => back,
    };
    if error != why {
        panic!(rt; "{name}: {error}, and not {why}");
    }
    let (devices, dirty) = pool.abandon();
    same(
        rt,
        name,
        "pages that are lost",
        u64::from(dirty),
        u64::from(lost),
    );
    devices
}

/// The device has all changes of all pages.
fn are_whole<R: Abort + Wait>(rt: &R, alloc: Global, board: &Board, device: &mut SharedDevice<R>) {
    let mut bytes = vec![in alloc; 0u8; PAGE_BYTES].expect(rt, "memory");
    for page in 0..PAGES {
        is_whole(rt, board, device, page, bytes.as_mut_slice());
    }
}

/// All ends came back in their order; and where the pool was closed, the device has all changes of all pages.
fn are_all<R: Abort + Wait + Drop>(
    rt: &R,
    alloc: Global,
    board: &Board,
    devices: Vec<Watched<R>>,
    is_closed: bool,
) {
    let name = board.scene.name;
    let mut place = 0u32;
    for device in devices {
        let (number, mut end) = device.into_end();
        same(
            rt,
            name,
            "the number of an end",
            u64::from(number),
            u64::from(place),
        );
        if number == 0 && is_closed {
            are_whole(rt, alloc, board, &mut end);
        }
        place = place.saturating_add(1);
    }
    let ends = u64::from(board.scene.workers) + 1;
    same(rt, name, "ends", u64::from(place), ends);
}

/// Closes the pool, whose pages are then all on the device, or gives it up where the scene does.
fn ends<R: Abort + Wait + Clock + Copy + Drop>(
    rt: &R,
    alloc: Global,
    board: &Board,
    settings: &Settings,
    pool: Pool<R>,
) {
    match board.scene.gives_up {
        Some((why, lost)) => {
            let devices = give_up(rt, board, pool, why, lost);
            are_all(rt, alloc, board, devices, false);
        }
        None => {
            let Closed { devices, stats } = close(rt, alloc, board, settings, pool);
            let (name, dirty) = (board.scene.name, u64::from(stats.dirty));
            same(rt, name, "dirty pages at the close", dirty, 0);
            are_all(rt, alloc, board, devices, true);
        }
    }
}

/// Plays the scene of the board.
fn play<R: Abort + Threads + Wait + Clock + Copy + Drop + Sync + Send>(
    rt: &R,
    alloc: Global,
    board: &Arc<Board>,
) {
    let settings = settings_of(rt, alloc, board.scene);
    let pool = opened(rt, alloc, board, &settings);
    act_all(rt, alloc, &settings, &pool, board);
    let stats = pool.stats(rt);
    adds_up(rt, board, stats);
    has_counts(rt, board, stats.dirty);
    ends(rt, alloc, board, &settings, pool);
}

/// Plays the scene, so many times as long as it says.
pub fn passes_scaled<R: AllocGlobal + Abort + Threads + Wait + Clock + Copy + Drop + Sync + Send>(
    rt: &R,
    scene: &'static Scene,
    scale: u32,
) {
    let alloc = rt.alloc();
    let board = Arc::new(alloc, Board::new(rt, alloc, scene, scale)).expect(rt, "memory");
    play(rt, alloc, &board);
}

/// Plays the scene.
pub fn passes<R: AllocGlobal + Abort + Threads + Wait + Clock + Copy + Drop + Sync + Send>(
    rt: &R,
    scene: &'static Scene,
) {
    passes_scaled(rt, scene, 1);
}
