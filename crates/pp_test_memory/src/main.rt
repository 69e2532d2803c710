//! Makes each call that takes memory on a row of its own, and again where memory was refused to it.
//!
//! Each argument is a case: a call, and behind a slash its row, where there are several. What is printed around the call
//! `printing` says.
#![tactic(auto)]

mod answer;
mod books;
mod caches;
mod commands;
mod journals;
mod judging;
mod keyed;
mod making;
mod playing;
mod printing;
mod queries;
mod runs;
mod samples;
mod segments;
mod serving;
mod shared;
mod texts;
mod tried;
mod turns;
mod waiting;
mod words;

use std::env;
use std::fs::File;
use std::rt::Files;
use std::sync::Wait;
use std::thread::Threads;
use std::time::Clock;

/// Does the cases of the command line, in their order.
fn main(rt: HostRuntime) -> anyhow::Result<()> {
    for word in env::args(&rt)?.skip(1) {
        println!(rt; "{word}")?;
        case(&rt, word.as_str())?;
    }
    Ok(())
}

/// Does a case.
fn case<
    R: Files<File = File>
        + AllocGlobal
        + Print
        + Threads
        + Wait
        + Clock
        + Sync
        + Copy
        + Send
        + Drop,
>(rt: &R, word: &str) -> anyhow::Result<()> {
    let (call, row) = word.split_once("/").unwrap_or((word, ""));
    let (library, call) = call.split_once("::").unwrap_or(("", call));
    match library {
        "pp_settings" | "pp_plan" | "pp_cert" | "pp_annotate" | "pp_script" => texts::case(
            rt, call, row,
        ),
        "pp_cache" if call != "Cache::new" => caches::case(rt, call),
        "pp_keyed" if call != "KeyedCache::new" => keyed::case(rt, call),
        "pp_names" if call != "Names::new" => keyed::case(rt, call),
        "pp_arc"
        | "pp_frames"
        | "pp_bundles"
        | "pp_cache"
        | "pp_keyed"
        | "pp_names"
        | "pp_core"
        | "pp_outset"
        | "pp_device"
        | "pp_durable"
        | "pp_vault" => making::case(rt, call, row),
        "pp_shared" => shared::case(rt, call),
        "pp_play" | "pp_simulate" => playing::case(rt, call, row),
        "pp_journal" | "pp_report" => journals::case(rt, call),
        "pp_ledger" | "pp_segments" => segments::case(rt, call),
        "pp_admission" | "pp_wants" => waiting::case(rt, call),
        "pp_hall" | "pp_buffer_pool" => serving::case(rt, call),
        "pp_judge" => judging::case(rt, call, row),
        "pp_words" => words::case(rt, row),
        "pp_pool" => books::case(rt, call),
        "pp_run" if call == "Pool::run_queries" => queries::case(rt),
        "pp_run" => runs::case(rt, call),
        "pp_run_command" => commands::case(rt, call),
        _ => anyhow::bail!("there is no such library"),
    }
}
