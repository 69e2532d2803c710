//! Makes a certificate.

ghost use Rattle.std.specs.Prelude.{◌≡◌, ◌≤◌, IfOk, Err, Some, [], ◌∷◌, length, All};
ghost use Rattle.pp_settings.specs.Settings.{geometry_of};
ghost use Rattle.pp_plan.specs.View.{sequence_of};
ghost use Rattle.pp_plan.specs.Rules.{uses_bundle};
ghost use Rattle.pp_plan.specs.Terms.{IsPlan};
ghost use Rattle.pp_cert.specs.declared.check_error.CheckError.{CheckError};
ghost use Rattle.pp_cert.specs.Claims.{Claims, claims_of, AreClaims};
ghost use Rattle.pp_cert.specs.Limits.{most_entries, most_counted};
ghost use Rattle.pp_cert.specs.Walk.{Certifies, first_fault, tests, Test, fault_of};
ghost use Rattle.pp_cert.specs.Longest.{sequence_longest, IsLongest};
ghost use Rattle.pp_annotate.specs.Growth.{sequence_gathers};
ghost use Rattle.pp_annotate.specs.Made.{greatest, made, sequence_notes};
ghost use Rattle.pp_annotate.specs.Annotation.{annotation, AnswersAs, IfFault, IsPlansFault, IsBeforeLimits, IsTight};
ghost use Rattle.pp_annotate.specs.Annotation.{IsLeast, HasNone, HasPagesAlone, HasOwnBundles, first_failed, IsOfPlan};
ghost use Rattle.pp_annotate.specs.Annotation.{IsWall};

use crate::error::AnnotateError;
use crate::writing::Draft;
use pp_cert::{Certificate, Note, fault_apart_from_growth, longest_trace};
use pp_plan::{Plan, Stmt};
use pp_settings::Settings;
use std::alloc::{AllocError, Global};

/// Makes the least certificate of the plan: what is held at each place, the pins of the note with most as peak, and
/// the length of the longest trace as steps.
///
/// What it does grows with the statements of the plan and the entries of the notes that it writes, at most one for each slot,
/// and with the bundles and the loops around each statement; also where the plan has a fault.
///
/// # Errors
///
/// `Fault` where no certificate of the plan is accepted under the settings, with the plan's first fault as the check
/// would answer it, and `OutOfMemory` where a growth was refused.
pub fn annotate(
    alloc: Global,
    settings: &Settings,
    plan: &Plan,
) -> Result<Certificate, AnnotateError>
    // The exact answer, unless memory runs out.
    ensures exact { AnswersAs result (annotation (geometry_of settings.now) plan.now) }
    // What is made is accepted.
    ensures accepted { IfOk result (λ c. Certifies (geometry_of settings.now) plan.now (claims_of c)) }
    // Some beginning of a trace has exactly `peak` pins, and some trace has exactly `steps` actions.
    ensures tight { IfOk result (λ c. IsTight plan.now (claims_of c)) }
    // No accepted certificate has a smaller peak or fewer steps.
    ensures least { IfOk result (λ c. IsLeast (geometry_of settings.now) plan.now (claims_of c)) }
    // What is made can be written as a text.
    ensures writable { IfOk result (λ c. AreClaims settings.now plan.now (claims_of c)) }
    // A fault is answered only where no certificate is accepted.
    ensures only { IfFault result (λ fault. HasNone (geometry_of settings.now) plan.now) }
    // And it is never one of how a certificate was written.
    ensures faults { IfFault result IsPlansFault }
    // Where the check refuses some certificate without bundles of a plan of version 1 for such a fault of the plan, before it
    // comes to the limits, that is the answer, at the same place.
    ensures same { plan.now.version ≡ 1 → (d : Claims) (fault : CheckError) → HasPagesAlone d
        → first_fault (geometry_of settings.now) d (tests plan.now) ≡ Some fault
        → IsBeforeLimits fault
        → AnswersAs result (Err fault) }
    // Of any plan: no certificate comes past the fault that is answered, where that is one of what the plan does.
    ensures wall { IfFault result (λ fault. IsBeforeLimits fault → IsWall (geometry_of settings.now) plan.now fault) }
    // Of any plan of which no run gathers more pages than are counted: where the first test that some certificate fails is one of
    // what the plan does, its fault is the answer. The certificate may note any bounds inside its loops.
    ensures own { sequence_gathers plan.now.body ≤ most_counted plan.now.layout → (d : Claims) (test : Test)
        → HasOwnBundles plan.now d
        → first_failed (geometry_of settings.now) d (tests plan.now) ≡ Some test
        → IsOfPlan test
        → AnswersAs result (Err (fault_of test)) }
{
    let layout = settings.layout();
    let certificate = made(alloc, plan)?;
    match fault_apart_from_growth(&layout, plan, &certificate) {
        Some(fault) => Err(AnnotateError::Fault(fault)),
        None => Ok(certificate),
    }
}

/// The certificate that is made of the plan, whether it is accepted or not.
fn made(alloc: Global, plan: &Plan) -> Result<Certificate, AllocError>
    ensures is { IfOk result (λ c. claims_of c ≡ made plan.now) }
    // The length that the steps are counted from is that of the longest trace.
    ensures longest { IsLongest plan.now.layout plan.now.body (sequence_longest plan.now.body) }
    // No note has more entries than a plan may have slots, whether the plan has a fault or not.
    ensures few { IfOk result (λ c. All (λ note. length note ≤ most_entries) (claims_of c).notes) }
    // What holds of every plan.
    ensures facts { IsPlan plan.now }
{
    let steps = longest_trace(plan);
    let stmts = plan.body();
    let notes = notes_of(alloc, plan, stmts)?;
    let peak = greatest(&notes) as u64;
    Ok(Certificate { peak, steps, notes })
}

/// The notes of the plan's statements, the first of which is empty.
fn notes_of(alloc: Global, plan: &Plan, stmts: &[Stmt]) -> Result<Vec<Note>, AllocError>
    ensures { IfOk result (λ notes. notes.items
        ≡ [] ∷ sequence_notes (most_counted plan.now.layout) (uses_bundle plan.now.body) (sequence_of stmts.now) []) }
{
    let mut draft = Draft::new(alloc);
    draft.write(alloc, &[])?;
    draft.sequence(alloc, plan, &[], stmts)?;
    Ok(draft.into_notes())
}

/// The most pages that a note pins.
#[tactic(auto, using(crate::proofs::Walk::walks))]
fn greatest(notes: &[Note]) -> u128
    ensures { result ≡ greatest notes.now }
{
    let mut most = 0;
    for note in notes {
        most = most.max(note.pins());
    }
    most
}
