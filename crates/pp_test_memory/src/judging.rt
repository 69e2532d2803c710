//! The calls that judge the bytes of files.

use crate::answer::Answer;
use crate::printing::twice;
use crate::samples::{LIVES, PIN, PIN_NOTES, SCRIPT, SEGMENTS, endless_text};
use crate::tried::{Told, Tried};
use pp_judge::{
    AnnotateFiles, AuditFiles, CheckFiles, Contents, DrawFiles, Exit, JudgeError, SegmentsFiles,
    SimulateFiles, Workload, device_size, exit_of,
};
use pp_test_plain::samples::{NOTHING, SETTINGS, TOUCH, TOUCHED, WRITE};
use std::alloc::Global;
use std::fmt;

/// Does the case of this call and this row.
pub fn case<R: AllocGlobal + Print>(rt: &R, call: &str, row: &str) -> anyhow::Result<()> {
    let alloc = rt.alloc();
    let plans = bytes_of(alloc, texts_of(call, row))?;
    match call {
        "exit_of" => {
            let files = Files {
                plans,
                endless: endless_text(alloc)?,
                segments: bytes_of(alloc, &SEGMENTS)?,
            };
            twice(rt, &mut Judging { alloc, row, files })
        }
        _ => twice(rt, &mut Loading { alloc, call, plans }),
    }
}

/// The texts of a case's plans.
fn texts_of(call: &str, row: &str) -> &'static [&'static str] {
    match (call, row) {
        ("Workload::read", _) => &[TOUCH, WRITE],
        (_, "audit" | "draw") => &[TOUCH],
        (_, "audit_lives") => &[TOUCH, TOUCH],
        (_, "audit_segments") => &[NOTHING, TOUCH],
        _ => &[WRITE],
    }
}

/// The bytes of these texts.
pub fn bytes_of(alloc: Global, texts: &[&str]) -> anyhow::Result<Vec<Vec<u8>>> {
    let mut all = Vec::new(alloc);
    for text in texts {
        let mut bytes = Vec::new(alloc);
        bytes.extend_from_slice(text.as_bytes())?;
        all.push(bytes)?;
    }
    Ok(all)
}

/// The files of a case that are no constants.
#[derive(Drop)]
struct Files {
    plans: Vec<Vec<u8>>,
    /// Settings of an endless pool.
    endless: String,
    segments: Vec<Vec<u8>>,
}

/// The contents of the files of a command.
fn contents<'a>(row: &str, files: &'a Files) -> Contents<'a> {
    let settings = SETTINGS.as_bytes();
    let plans = files.plans.as_slice();
    match row {
        "check" => Contents::Check(CheckFiles {
            settings,
            plan: PIN.as_bytes(),
            certificate: PIN_NOTES.as_bytes(),
        }),
        "annotate" => Contents::Annotate(AnnotateFiles {
            settings,
            plan: PIN.as_bytes(),
        }),
        "simulate" => Contents::Simulate(SimulateFiles {
            settings,
            script: SCRIPT.as_bytes(),
            plans,
        }),
        "audit_lives" => Contents::AuditLives(AuditFiles {
            settings,
            journal: LIVES.as_bytes(),
            plans,
        }),
        "audit_segments" => Contents::AuditSegments(SegmentsFiles {
            settings: files.endless.as_bytes(),
            plans,
            files: files.segments.as_slice(),
            ended: true,
        }),
        "draw" => Contents::Draw(DrawFiles {
            settings,
            journal: TOUCHED.as_bytes(),
            plans,
            names: &[],
        }),
        _ => Contents::Audit(AuditFiles {
            settings,
            journal: TOUCHED.as_bytes(),
            plans,
        }),
    }
}

/// Files that are judged.
#[derive(Drop)]
struct Judging<'a> {
    alloc: Global,
    row: &'a str,
    files: Files,
}

impl Tried for Judging<'_> {
    type Told = Ended;

    fn call(&mut self) -> Ended {
        Ended {
            exit: exit_of(self.alloc, contents(self.row, &self.files)),
        }
    }
}

/// How a command ends.
#[derive(Drop)]
struct Ended {
    exit: Exit<'static>,
}

impl Told for Ended {
    fn is_last(&self) -> bool {
        self.exit.is_output()
    }
}

impl fmt::Display for Ended {
    fn fmt<W: fmt::Write>(&self, f: &mut fmt::Formatter<W>) -> fmt::Result {
        write!(f, "status {}: {}", self.exit.status(), self.exit)
    }
}

/// Files that a run or a new device is made of.
#[derive(Drop)]
struct Loading<'a> {
    alloc: Global,
    call: &'a str,
    plans: Vec<Vec<u8>>,
}

impl Tried for Loading<'_> {
    type Told = Answer;

    fn call(&mut self) -> Answer {
        match self.call {
            "device_size" => size(self.alloc),
            _ => workload(self.alloc, &self.plans),
        }
    }
}

fn size(alloc: Global) -> Answer {
    match device_size(alloc, SETTINGS.as_bytes()) {
        Ok(size) => Answer::Two(
            "pages",
            u64::from(size.pages),
            "bytes",
            u64::from(size.page_bytes),
        ),
        Err(error) => failed(error),
    }
}

fn workload(alloc: Global, plans: &[Vec<u8>]) -> Answer {
    match Workload::read(alloc, SETTINGS.as_bytes(), plans) {
        Ok(workload) => Answer::One("plans", workload.plans.len() as u64),
        Err(error) => failed(error),
    }
}

fn failed(error: JudgeError) -> Answer {
    Answer::Failed(anyhow::anyhow!("{error}"))
}
