//! Plans that are looked at, and submitted, before the threads of a run begin.

ghost use Rattle.std.specs.Prelude.{◌≡◌, ◌≤◌, ◌+◌, ◌^◌, [], IfOk, IfErr, OnOk, IsOk, nat_le, nat_lt, length, sum_by};
ghost use Rattle.pp_settings.specs.Limits.{most_plans, most_bounded_events};
ghost use Rattle.pp_cert.specs.Walk.{same_layout};
ghost use Rattle.pp_model.specs.Budget.{cost_of};
ghost use Rattle.pp_model.specs.Submitting.{after_submits, error_where};
ghost use Rattle.pp_pool.specs.Parts.{settings_of, plans_of, state_of};
ghost use Rattle.pp_run.specs.Planned.{AreRefused, AreTakenIn, HasRoomFor, plans_in};
ghost use Rattle.pp_run.specs.Runs.{submits};

use pp_cert::Accepted;
use pp_model::SubmitError;
use pp_pool::Book;
use pp_settings::Layout;
use pp_settings::limits::{MOST_BOUNDED_EVENTS, MOST_PLANS};

/// How many events besides submits the journal of a pool with this layout needs, where these plans are submitted behind `count`
/// others that need so many. Nothing is submitted.
///
/// # Errors
///
/// The refusal of the first plan that isn't taken in.
pub(crate) fn need_of(
    layout: &Layout,
    count: usize,
    need: u64,
    plans: &[Accepted],
) -> Result<u64, SubmitError>
    requires few { count ≤ most_plans }
    requires low { need ≤ 2 ^ 33 }
    ensures taken { IfOk result (AreTakenIn layout.now count need plans.now) }
    ensures low { IfOk result (λ all. all ≤ 2 ^ 33) }
    ensures few { OnOk result (count + length plans.now ≤ most_plans) }
    ensures refused { IfErr result (AreRefused layout.now count need plans.now) }
{
    match plans.split_first() {
        None => Ok(need),
        Some((plan, rest)) => match fault(layout, count, need, plan) {
            Some(error) => Err(error),
            None => need_of(layout, count + 1, need + plan.cost(), rest),
        },
    }
}

/// As [`need_of`], of plans that each come with a work.
pub(crate) fn need_of_queries<W>(
    layout: &Layout,
    count: usize,
    need: u64,
    plans: &[(Accepted, W)],
) -> Result<u64, SubmitError>
    requires few { count ≤ most_plans }
    requires low { need ≤ 2 ^ 33 }
    ensures taken { IfOk result (AreTakenIn layout.now count need (plans_in plans.now)) }
    ensures low { IfOk result (λ all. all ≤ 2 ^ 33) }
    ensures few { OnOk result (count + length plans.now ≤ most_plans) }
    ensures refused { IfErr result (AreRefused layout.now count need (plans_in plans.now)) }
{
    match plans.split_first() {
        None => Ok(need),
        Some(((plan, _), rest)) => match fault(layout, count, need, plan) {
            Some(error) => Err(error),
            None => need_of_queries(layout, count + 1, need + plan.cost(), rest),
        },
    }
}

/// Why this plan isn't taken in behind `count` others that need so many events; None where it is.
fn fault(layout: &Layout, count: usize, need: u64, plan: &Accepted) -> Option<SubmitError>
    requires { need ≤ 2 ^ 33 }
    ensures { result ≡ error_where (same_layout layout.now plan.now.plan.layout) (nat_le most_plans count)
        (nat_lt most_bounded_events (need + cost_of plan.now)) }
{
    let _facts = plan.plan();
    if !is_same_layout(layout, &plan.layout()) {
        return Some(SubmitError::OtherSettings);
    }
    if count >= MOST_PLANS {
        return Some(SubmitError::TooManyPlans);
    }
    if need + plan.cost() > MOST_BOUNDED_EVENTS {
        return Some(SubmitError::JournalLimit);
    }
    None
}

/// Whether two layouts are the same.
fn is_same_layout(left: &Layout, right: &Layout) -> bool
    ensures { result ≡ same_layout left.now right.now }
{
    left.frames() == right.frames() && left.extents() == right.extents()
}

/// Submits the plans in their order to a book in whose life nothing was done, and answers how many there are. They were looked at,
/// and there is room for them.
pub(crate) fn submit_all(book: &mut Book, plans: Vec<Accepted>) -> u16
    requires fresh { (book.old.journal ≡ []) × (plans_of book.old ≡ []) }
    requires taken { IsOk (after_submits (state_of book.old) plans.items) }
    requires room { HasRoomFor book.old (sum_by cost_of plans.items + length plans.items) }
    ensures plans { plans_of book.new ≡ plans.items }
    ensures count { result ≡ length plans.items }
    ensures journal { book.new.journal ≡ submits 0 (length plans.items) }
    ensures settings { settings_of book.new ≡ settings_of book.old }
    ensures outset { book.new.began ≡ book.old.began }
    ensures page_bytes { book.new.vault.page_bytes ≡ book.old.vault.page_bytes }
{
    book.known();
    let mut count = 0u16;
    for plan in plans {
        match book.submit(plan) {
            Ok(_) => {}
            Err(_) => unreachable!(),
        }
        count += 1;
    }
    count
}
