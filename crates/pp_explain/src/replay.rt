//! How far a journal is true.

use crate::plans::certificate_of;
use crate::reading::plan_in;
use crate::source::Source;
use pp_cert::{Accepted, check};
use pp_model::{Move, Reply};
use pp_plan::Plan;
use pp_report::{Asked, Auditor, Line, RENEWAL_LINE, Told, line_in};
use pp_settings::Settings;
use std::alloc::{AllocError, Global};

/// A journal of some plans.
#[derive(Clone, Copy)]
pub(crate) struct Played<'a> {
    pub(crate) settings: &'a Settings,
    pub(crate) plans: &'a [Source<'a>],
    pub(crate) journal: &'a [u8],
    /// The number of the line up to which it is played, from 1.
    pub(crate) number: u64,
}

/// What the lines tell of plans. Plans are counted through all lives.
#[derive(Clone, Copy)]
pub(crate) struct Counted {
    /// How many plans the lives before have submitted, and this one.
    before: usize,
    submitted: usize,
    /// How many were taken in this life.
    taken: usize,
    /// The plan of the worker that is asked for.
    plan: Option<usize>,
}

impl Counted {
    /// How many plans were submitted.
    pub(crate) fn plans(&self) -> usize {
        self.before.saturating_add(self.submitted)
    }

    /// How many plans were submitted in this life.
    pub(crate) fn of_life(&self) -> usize {
        self.submitted
    }

    /// The first plan that waits, if one does.
    pub(crate) fn waiting(&self) -> usize {
        self.before.saturating_add(self.taken)
    }

    /// Counts a line.
    fn count(&mut self, worker: Option<u32>, line: Line) {
        if let Asked::Submit { .. } = line.asked {
            self.submitted = self.submitted.saturating_add(1);
        }
        if let (Asked::Do(Move::Take { worker: who }), Told::Answer(Reply::Taken { plan })) = (
            line.asked, line.told,
        ) {
            self.taken = self.taken.saturating_add(1);
            if worker == Some(who) {
                self.plan = Some(self.before.saturating_add(plan as usize));
            }
        }
    }

    /// Begins the next life.
    fn renew(&mut self) {
        self.before = self.plans();
        self.submitted = 0;
        self.taken = 0;
        self.plan = None;
    }
}

/// The plan of the bytes with its least certificate, if it has one.
fn accepted_in(
    alloc: Global,
    settings: &Settings,
    bytes: &[u8],
) -> Result<Option<Accepted>, AllocError> {
    let Some(certificate) = certificate_of(alloc, settings, bytes)? else {
        return Ok(None);
    };
    let Some(plan) = plan_in(alloc, settings, bytes)? else {
        return Ok(None);
    };
    match check(settings, plan, &certificate) {
        Ok(accepted) => Ok(Some(accepted)),
        Err(_) => Ok(None),
    }
}

impl<'a> Played<'a> {
    /// An audit that has passed the lines before the one that it is played to, where a life is bounded and all plans are accepted.
    pub(crate) fn auditor(&self, alloc: Global) -> Result<Option<Auditor>, AllocError> {
        let Ok(()) = self.settings.see_bounded() else {
            return Ok(None);
        };
        let Some(plans) = self.accepted(alloc)? else {
            return Ok(None);
        };
        let Ok(mut auditor) = Auditor::new(alloc, self.settings, plans) else {
            return Err(AllocError);
        };
        if self.pass_lines(&mut auditor) {
            Ok(Some(auditor))
        } else {
            Ok(None)
        }
    }

    /// The plans with their least certificates, where all have one.
    fn accepted(&self, alloc: Global) -> Result<Option<Vec<Accepted>>, AllocError> {
        let mut accepted = Vec::new(alloc);
        for plan in self.plans {
            match accepted_in(alloc, self.settings, plan.bytes)? {
                Some(plan) => accepted.push(plan)?,
                None => return Ok(None),
            }
        }
        Ok(Some(accepted))
    }

    /// Has the audit pass the lines before the one that is played to. Whether it passes all of them.
    fn pass_lines(&self, auditor: &mut Auditor) -> bool {
        let mut number = 0u64;
        for line in self.journal.split(|byte| *byte == b'\n') {
            number = number.saturating_add(1);
            if number >= self.number {
                return true;
            }
            if !line.is_empty() && auditor.pass_in_lives(number, line).is_err() {
                return false;
            }
        }
        true
    }

    /// What the lines before that one tell of plans, and of the worker's.
    pub(crate) fn counted(&self, worker: Option<u32>) -> Counted {
        let mut counted = Counted {
            before: 0,
            submitted: 0,
            taken: 0,
            plan: None,
        };
        let mut number = 0u64;
        for line in self.journal.split(|byte| *byte == b'\n') {
            number = number.saturating_add(1);
            if number >= self.number {
                return counted;
            }
            if line == RENEWAL_LINE.as_bytes() {
                counted.renew();
            } else if let Some(line) = line_in(line) {
                counted.count(worker, line);
            }
        }
        counted
    }

    /// The number of the plan that the worker runs, if one was taken.
    pub(crate) fn number_of(&self, worker: u32) -> Option<usize> {
        self.counted(Some(worker)).plan
    }

    /// The plan that the worker runs, if one was taken.
    pub(crate) fn plan_of(&self, alloc: Global, worker: u32) -> Result<Option<Plan>, AllocError> {
        let Some(number) = self.number_of(worker) else {
            return Ok(None);
        };
        match self.plans.get(number) {
            Some(plan) => plan_in(alloc, self.settings, plan.bytes),
            None => Ok(None),
        }
    }

    /// How many plans the whole journal submits.
    pub(crate) fn submits(&self) -> usize {
        let whole = Played {
            number: u64::MAX,
            ..*self
        };
        whole.counted(None).plans()
    }
}
