//! The calls of the command that runs plans, and what it tells of a run.

ghost use Rattle.std.specs.Prelude.{◌≡◌};
ghost use Rattle.pp_settings.specs.declared.span.Span.TheVariants.{Bounded};

use crate::answer::Answer;
use crate::judging::bytes_of;
use crate::printing::{begin, end, twice};
use crate::tried::Tried;
use pp_judge::{RunReport, Workload};
use pp_model::{Came, Ending, Event, Move, Reply};
use pp_report::{Journal, RunRecord};
use pp_run::RunError;
use pp_run_command::{Choices, progress_line, run, stopped_line, told};
use pp_test_plain::samples::{SETTINGS, TOUCH, WRITE};
use std::alloc::{AllocError, Global};
use std::fs::File;
use std::rt::Files;
use std::sync::Wait;
use std::thread::Threads;
use std::time::Clock;
use std::{fs, io};

/// Does the case of this call.
pub fn case<
    R: Files<File = File>
        + AllocGlobal
        + Print
        + Threads
        + Wait
        + Clock
        + Sync
        + Copy
        + Send
        + Drop,
>(rt: &R, call: &str) -> anyhow::Result<()> {
    match call {
        "run" => runs(rt),
        _ => {
            let events = Journal::from_events(rt.alloc(), &TOUCHED)?;
            let done = RunRecord {
                plans: 1,
                events,
                dirty: 0,
            };
            twice(
                rt,
                &mut Telling {
                    alloc: rt.alloc(),
                    call,
                    done,
                },
            )
        }
    }
}

/// A plan that touches a page, done by the first worker.
static TOUCHED: [Event; 6] = [
    Event::Submit { plan: 0 },
    Event::Step {
        did: Move::Take { worker: 0 },
        reply: Reply::Taken { plan: 0 },
    },
    Event::Step {
        did: Move::Fix { worker: 0, page: 1 },
        reply: Reply::MustRead { frame: 0 },
    },
    Event::Step {
        did: Move::ReadDone {
            worker: 0,
            came: Came::Image(1, 0),
        },
        reply: Reply::Loaded { mark: 0 },
    },
    Event::Step {
        did: Move::Unfix { worker: 0 },
        reply: Reply::Did,
    },
    Event::Step {
        did: Move::Finish { worker: 0 },
        reply: Reply::Finished(Ending::Done),
    },
];

/// A run that is told of.
#[derive(Drop)]
struct Telling<'a> {
    alloc: Global,
    call: &'a str,
    done: RunRecord,
}

impl Tried for Telling<'_> {
    type Told = Answer;

    fn call(&mut self) -> Answer {
        match self.call {
            "told" => well(told(self.alloc, &self.done)),
            "stopped_line" => Answer::of_text(stopped_line(self.alloc, RunError::Broken(1))),
            _ => Answer::of_text(progress_line(self.alloc, 12, 200, 345, 67)),
        }
    }
}

/// The report of a run that went well.
fn well(told: Result<RunReport, AllocError>) -> Answer {
    match told {
        Ok(
            RunReport {
                text,
                is_well: true,
            },
        ) => Answer::Text(text),
        Ok(_) => Answer::Nothing,
        Err(error) => Answer::Lacking(error),
    }
}

/// What plans come to that are run over a file.
fn ran<R: Files<File = File> + AllocGlobal + Threads + Wait + Clock + Sync + Copy + Send + Drop>(
    rt: &R,
    workload: Workload,
    device: &str,
) -> Answer
    requires { workload.settings.span ≡ Bounded }
{
    match run(
        rt,
        workload,
        device,
        &Choices::new(0, None),
        None::<&mut io::Sink>,
    ) {
        Ok(done) => Answer::Two(
            "plans",
            u64::from(done.plans),
            "dirty",
            u64::from(done.dirty),
        ),
        Err(error) => Answer::Failed(anyhow::Error::from(error)),
    }
}

fn runs<
    R: Files<File = File>
        + AllocGlobal
        + Print
        + Threads
        + Wait
        + Clock
        + Sync
        + Copy
        + Send
        + Drop,
>(rt: &R) -> anyhow::Result<()> {
    let plans = bytes_of(rt.alloc(), &[TOUCH, WRITE])?;
    for _round in 0..2 {
        fs::write(rt, "device", [0; 1536].as_slice())?;
        let Ok(workload) = Workload::read(rt.alloc(), SETTINGS.as_bytes(), &plans) else {
            anyhow::bail!("no workload");
        };
        begin(rt)?;
        let told = ran(rt, workload, "device");
        if end(rt, &told)? {
            break;
        }
    }
    Ok(())
}
