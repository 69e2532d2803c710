//! The check of a certificate.

ghost use Rattle.std.specs.Prelude.{◌≡◌, ◌<◌, ◌+◌, ◌^◌, ◌↔◌, ◌++◌, [], ◌∷◌, IsOk, IfOk, IfErr};
ghost use Rattle.pp_settings.specs.Settings.{geometry_of};
ghost use Rattle.pp_plan.specs.View.{sequence_of};
ghost use Rattle.pp_plan.specs.Terms.{IsPlan};
ghost use Rattle.pp_cert.specs.Limits.{most_counted};
ghost use Rattle.pp_cert.specs.Walk.{claims_of, tests, tests_with, first_fault, Certifies, walked, note_tests, sequence_tests};
ghost use Rattle.pp_cert.specs.Walk.{sequence_end, empty, same_layout, holds_nothing, no_more_notes, steps_allowed};
ghost use Rattle.pp_cert.specs.Walk.{steps_enough, peak_allowed};
ghost use Rattle.pp_cert.specs.Longest.{sequence_longest, IsLongest};
ghost use Rattle.pp_cert.specs.Accepted.{IsAccepted};

use crate::accepted::Accepted;
use crate::certificate::Certificate;
use crate::check_error::CheckError;
use crate::limits::{MOST_STEPS, most_counted};
use crate::longest::longest;
use crate::walk::Walk;
use pp_plan::{Plan, Stmt};
use pp_settings::{Layout, Settings};

/// Accepts the plan if its certificate passes every test under the layout of the settings. Otherwise it gives the plan
/// back with the first fault.
///
/// It takes no memory. What it does grows with the statements of the plan and the entries of the notes; an entry of a
/// bundle whose bound changes in a loop also costs a look at the loop's body. Nothing that the certificate says is
/// believed before it is tested.
///
/// # Errors
///
/// The plan and the first test that fails, in the order of the walk over the plan: see `CheckError`.
pub fn check(
    settings: &Settings,
    plan: Plan,
    certificate: &Certificate,
) -> Result<Accepted, (Plan, CheckError)>
    // It is Ok if and only if no test fails.
    ensures ok { IsOk result ↔ Certifies (geometry_of settings.now) plan (claims_of certificate.now) }
    // Else the plan comes back as it was, with the first fault.
    ensures err { IfErr result (λ refused. (refused.0 ≡ plan)
        × (first_fault (geometry_of settings.now) (claims_of certificate.now) (tests plan) ≡ Some refused.1)) }
    // What is accepted is the plan with the peak and the steps that were handed in.
    ensures accepted { IfOk result (λ accepted. accepted
        ≡ record { plan = plan; peak = certificate.now.peak; steps = certificate.now.steps }) }
    // What holds of it.
    ensures facts { IfOk result IsAccepted }
    // The length that the steps are tested against is that of the longest trace.
    ensures longest { IsLongest plan.layout plan.body (sequence_longest plan.body) }
{
    match fault_under(&settings.layout(), &plan, certificate) {
        Some(fault) => Err((plan, fault)),
        None => Ok(Accepted::new(plan, certificate.peak, certificate.steps)),
    }
}

/// The first test of the plan's certificate that fails under the layout of the settings, if one fails: the check of
/// a plan that is not to be handed over yet.
///
/// It takes no memory.
pub fn fault_under(layout: &Layout, plan: &Plan, certificate: &Certificate) -> Option<CheckError>
    ensures is { result ≡ first_fault layout.now (claims_of certificate.now) (tests plan.now) }
    ensures facts { IsPlan plan.now }
{
    fault_with(layout, plan, certificate, None)
}

/// The first test that fails where the bounds of bundles are counted up to `most_counted` of the plan's layout: a gather adds
/// a page up to that number, and no test says that bounds have grown in a loop as its turns want it. It is for a maker of
/// certificates, which counts so. Where no bound is as large as that and this finds no fault, the growth of bounds is all that
/// is left to test.
///
/// It takes no memory.
pub fn fault_apart_from_growth(
    layout: &Layout,
    plan: &Plan,
    certificate: &Certificate,
) -> Option<CheckError>
    ensures { result
        ≡ first_fault layout.now (claims_of certificate.now)
        (tests_with (Some (most_counted plan.now.layout)) plan.now) }
{
    let stop = most_counted(&plan.layout());
    fault_with(layout, plan, certificate, Some(stop))
}

/// The first test that fails, with bounds that are told exactly, or counted up to a stop where there is one.
fn fault_with(
    layout: &Layout,
    plan: &Plan,
    certificate: &Certificate,
    stop: Option<u32>,
) -> Option<CheckError>
    ensures is { result ≡ first_fault layout.now (claims_of certificate.now) (tests_with stop plan.now) }
    ensures facts { IsPlan plan.now }
{
    let stmts = plan.body();
    if !is_same_layout(layout, &plan.layout()) {
        return Some(CheckError::OtherSettings);
    }
    let walk = Walk {
        layout,
        certificate,
        stop,
    };
    match walk_over(&walk, stmts) {
        Err(fault) => Some(fault),
        Ok(end) => last_fault(&walk, stmts, end),
    }
}

/// Whether two layouts are the same.
fn is_same_layout(left: &Layout, right: &Layout) -> bool
    ensures { result ≡ same_layout left.now right.now }
{
    left.frames() == right.frames() && left.extents() == right.extents()
}

/// Walks over a plan's statements, and answers the place at their end.
fn walk_over(walk: &Walk<'_>, stmts: &[Stmt]) -> Result<u32, CheckError>
    requires { sequence_end 0 (sequence_of stmts.now) < 2 ^ 32 }
    ensures { result
        ≡ walked walk.now.layout.now walk.now.certificate.now
        (note_tests 0 empty ++ sequence_tests walk.now.stop 0 (sequence_of stmts.now))
        (sequence_end 0 (sequence_of stmts.now)) }
{
    let first = walk.begin()?;
    walk.sequence(first, stmts)
}

/// The fault that is found after the walk, if there is one.
fn last_fault(walk: &Walk<'_>, stmts: &[Stmt], end: u32) -> Option<CheckError>
    requires { end + 1 < 2 ^ 32 }
    ensures { result
        ≡ first_fault walk.now.layout.now (claims_of walk.now.certificate.now)
        (holds_nothing end
        ∷ no_more_notes (end + 1)
        ∷ steps_allowed
        ∷ steps_enough (sequence_longest (sequence_of stmts.now))
        ∷ peak_allowed
        ∷ []) }
{
    let certificate = walk.certificate;
    if !walk.entries(end).is_empty() {
        return Some(CheckError::EndsHolding { place: end });
    }
    if certificate.notes.len() > end as usize + 1 {
        return Some(CheckError::NotesLong { place: end + 1 });
    }
    if certificate.steps > MOST_STEPS {
        return Some(CheckError::StepsTooMany);
    }
    if certificate.steps < longest(stmts) {
        return Some(CheckError::StepsTooFew);
    }
    if certificate.peak > u64::from(walk.layout.frames()) {
        return Some(CheckError::PeakTooBig);
    }
    None
}
