//! Laws of journals as texts, and of reports. The functions do nothing: their contracts are the laws.

ghost use Rattle.std.specs.Prelude.{◌≡◌, ◌⊎◌, ◌++◌, ℕ, List, Ok, codes, length, map};
ghost use Rattle.std.specs.List.{AllByRecursion};
ghost use Rattle.pp_settings.specs.Settings.{Configuration};
ghost use Rattle.pp_settings.specs.declared.span.Span.TheVariants.{Bounded};
ghost use Rattle.pp_cert.specs.Accepted.{Acceptance};
ghost use Rattle.pp_model.specs.declared.event.Event.{Event};
ghost use Rattle.pp_report.specs.declared.line.Line.{Line};
ghost use Rattle.pp_report.specs.Auditing.{auditing};
ghost use Rattle.pp_report.specs.AuditingLives.{renewal_line, auditing_lives};
ghost use Rattle.pp_report.specs.Audits.{IsWhole, IsAudited};
ghost use Rattle.pp_report.specs.Complete.{EachHasRow};
ghost use Rattle.pp_report.specs.Lines.{journal_words, FitsEvent, Says, Spells};
ghost use Rattle.pp_report.specs.Lives.{lives_words, lives_lines, AreWholeJournals, IsAuditedLives, HasNoRenewal};

use crate::events::{each_has_numbers, have_numbers};
use pp_journal::Journal;

/// What is written is read: the text of events that may stand in a journal spells them, and no others. What is read is
/// written again: a text that spells events is their text, or lacks its last line feed.
pub fn journals_are_read_back()
    ensures spells { (es : List Event) → AllByRecursion FitsEvent es → Spells (journal_words es) es }
    ensures once { (text : List ℕ) (es fs : List Event) → Spells text es → Spells text fs → es ≡ fs }
    ensures again { (text : List ℕ) (es : List Event) → Spells text es
        → (text ≡ journal_words es) ⊎ (text ++ codes "\n" ≡ journal_words es) }
{}

/// A report leaves no plan out: in the true journal of a life, the first or a later one, at whose end all plans are submitted, none
/// waits or is with a worker, and no flush is in flight, each plan was taken, and the turn at it ends; so it has a line.
pub fn reports_are_complete()
    ensures each { (es : List Event) → EachHasRow es }
{}

/// What was done to the end is accepted: where these events are a true journal of plans in a bounded life, at whose end they
/// are all submitted and ended, the verdict of [`audit`](crate::audit) on the text that
/// [`journal_text`](crate::journal_text) writes of them is their number.
///
/// It is handed the events since a text has no number of more bits than an event has. Plans' numbers have 64 in an event and 32
/// in a text: so it speaks of a bounded life, which takes no more than 256 plans in.
pub fn whole_journals_are_audited(events: &Journal)
    ensures text { (c : Configuration) (plans : List Acceptance) → c.span ≡ Bounded → IsWhole c plans events.now.items
        → IsAudited c plans (journal_words events.now.items) (length events.now.items) }
    ensures verdict { (c : Configuration) (plans : List Acceptance) → c.span ≡ Bounded → IsWhole c plans events.now.items
        → auditing c plans (journal_words events.now.items) ≡ Ok (length events.now.items) }
{
    have_numbers(events);
}

/// Bounded lives that were gone through to their end are accepted: where these are the journals of whole lives of a pool with
/// some plans, the verdict of [`audit_lives`](crate::audit_lives) on their text is the number of its lines. The text has
/// behind each journal but the last the line [`RENEWAL_LINE`](crate::RENEWAL_LINE).
pub fn whole_lives_are_audited(journals: &[Journal], last: &Journal)
    ensures text { (c : Configuration) (plans : List Acceptance) → c.span ≡ Bounded
        → AreWholeJournals c plans (map (λ events. events.items) journals.now) last.now.items
        → IsAuditedLives c plans (lives_words (map (λ events. events.items) journals.now) last.now.items)
        (length (lives_lines (map (λ events. events.items) journals.now) last.now.items)) }
    ensures verdict { (c : Configuration) (plans : List Acceptance) → c.span ≡ Bounded
        → AreWholeJournals c plans (map (λ events. events.items) journals.now) last.now.items
        → auditing_lives c plans (lives_words (map (λ events. events.items) journals.now) last.now.items)
        ≡ Ok (length (lives_lines (map (λ events. events.items) journals.now) last.now.items)) }
{
    each_has_numbers(journals);
    have_numbers(last);
}

/// One life is a case of several: without the line between two lives [`audit_lives`](crate::audit_lives) and
/// [`audit`](crate::audit) say the same, and whatever journal the latter accepts has no such line. It is no line of a journal,
/// so the latter refuses it as such.
pub fn one_life_is_audited_alike()
    ensures alike { (c : Configuration) (plans : List Acceptance) (text : List ℕ) → HasNoRenewal text
        → auditing_lives c plans text ≡ auditing c plans text }
    ensures accepted { (c : Configuration) (plans : List Acceptance) (text : List ℕ) (n : ℕ)
        → IsAudited c plans text n → auditing_lives c plans text ≡ Ok n }
    ensures apart { (line : Line) → Says renewal_line line → ⊥ }
{}
