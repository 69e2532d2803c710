//! Laws of segments as texts. The functions do nothing: their contracts are the laws.

ghost use Rattle.std.specs.Prelude.{◌≡◌, Bool, List, None, Ok, length};
ghost use Rattle.std.specs.List.{AllByRecursion};
ghost use Rattle.pp_settings.specs.Settings.{Configuration};
ghost use Rattle.pp_cert.specs.Accepted.{Acceptance};
ghost use Rattle.pp_model.specs.Pool.{State};
ghost use Rattle.pp_segments.specs.Lines.{FitsLine};
ghost use Rattle.pp_segments.specs.Segments.{ToldSegment, all_lines, texts_from};
ghost use Rattle.pp_segments.specs.Auditing.{told_count, begin_fault, auditing};
ghost use Rattle.pp_segments.specs.Audits.{EndsSo, AreTrueSegments, IsAuditedSegments};

/// What was done is accepted: where these are true segments, and their numbers are such as a line may have, the verdict
/// of [`audit_segments`](crate::audit_segments) on the texts that [`segment_text`](crate::segment_text) writes of them,
/// one for each, is how many lines and segments there are.
pub fn true_segments_are_audited()
    ensures texts { (c : Configuration) (prepared : List Acceptance) (ended : Bool) (told : List ToldSegment)
        (s : State) → begin_fault c prepared ≡ None → AreTrueSegments c prepared told s
        → AllByRecursion FitsLine (all_lines told) → EndsSo ended s
        → IsAuditedSegments c prepared ended (texts_from 0 0 told) (told_count (length (all_lines told)))
        (told_count (length told)) }
    ensures verdict { (c : Configuration) (prepared : List Acceptance) (ended : Bool) (told : List ToldSegment)
        (s : State) → begin_fault c prepared ≡ None → AreTrueSegments c prepared told s
        → AllByRecursion FitsLine (all_lines told) → EndsSo ended s
        → auditing c prepared ended (texts_from 0 0 told)
        ≡ Ok (told_count (length (all_lines told)), told_count (length told)) }
{}
