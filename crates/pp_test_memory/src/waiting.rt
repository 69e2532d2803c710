//! The calls that make a queue of those that wait to start, and sleepers.

use crate::answer::Answer;
use crate::printing::twice;
use crate::tried::Tried;
use pp_admission::AdmissionQueue;
use pp_wants::Sleepers;
use std::alloc::Global;

/// Does the case of this call.
pub fn case<R: AllocGlobal + Print>(rt: &R, call: &str) -> anyhow::Result<()> {
    match call {
        "AdmissionQueue::new" | "Sleepers::new" => {
            let alloc = rt.alloc();
            twice(rt, &mut Waiting { alloc, call })
        }
        _ => anyhow::bail!("there is no such call"),
    }
}

/// Those that wait, of whom there is none yet.
#[derive(Drop)]
struct Waiting<'a> {
    alloc: Global,
    call: &'a str,
}

impl Tried for Waiting<'_> {
    type Told = Answer;

    fn call(&mut self) -> Answer {
        match self.call {
            "AdmissionQueue::new" => queue(self.alloc),
            _ => sleepers(self.alloc),
        }
    }
}

fn queue(alloc: Global) -> Answer {
    match AdmissionQueue::new(alloc, 4, 1) {
        Ok(made) => Answer::Two(
            "waiting",
            u64::from(made.len()),
            "full",
            u64::from(made.is_full()),
        ),
        Err(error) => Answer::Lacking(error),
    }
}

fn sleepers(alloc: Global) -> Answer {
    match Sleepers::new(alloc, 4) {
        Ok(made) => Answer::One("asleep", u64::from(made.get(0).is_some())),
        Err(error) => Answer::Lacking(error),
    }
}
