//! Laws of runs over one pool. The functions do nothing: their contracts are the laws.

ghost use Rattle.std.specs.Prelude.{map};
ghost use Rattle.pp_run.specs.RunLives.{NewHasNotLived, RunsAreLives, LivesAreAudited};

use pp_pool::Journal;
use pp_report::laws::whole_lives_are_audited;

/// The runs over one pool are its lives, from a new pool on: so say the clauses `life` and `pool` of each
/// [`Pool::run`](crate::Pool::run).
pub fn runs_are_lives()
    ensures new { NewHasNotLived }
    ensures next { RunsAreLives }
{}

/// What the runs over one pool leave is accepted: the verdict of [`audit_lives`](pp_report::audit_lives) on the journals of all
/// runs, in one text with the line [`RENEWAL_LINE`](pp_report::RENEWAL_LINE) between two, is the number of its lines.
pub fn lives_are_audited(journals: &[Journal], last: &Journal)
    ensures { LivesAreAudited (map (λ events. events.items) journals.now) last.now.items }
{
    whole_lives_are_audited(journals, last);
}
