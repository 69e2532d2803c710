//! Laws of every reached state: of every state to which a true journal leads, in the first life of a pool or a later one, over
//! plans that the checker accepted.

ghost use Rattle.std.specs.Prelude.{◌≡◌, ◌≤◌, length};
ghost use Rattle.pp_arc.specs.Bounds.{IsWithinBounds};
ghost use Rattle.pp_frames.specs.Marks.{IsSound};
ghost use Rattle.pp_model.specs.Pool.{State, Settings, opening};
ghost use Rattle.pp_model.specs.Budget.{running_peaks};
ghost use Rattle.pp_model.specs.Reached.{IsSettings, IsReached};
ghost use Rattle.pp_model.specs.Marks.{marks};
ghost use Rattle.pp_model.specs.Laws.{WithinPeaks, NoneStuck, FlushHoldsAlone, InOrder, LatchesAgree, OneErrand};
ghost use Rattle.pp_model.specs.Laws.{BoundFalls, RefusedLeaves, BoundRises, DoneWithinBound, StaysReached};
ghost use Rattle.pp_model.specs.Laws.{JournalGrows, JournalTakesIn, MarksTell, OnePageChanges, CachedAreFramed};
ghost use Rattle.pp_model.specs.Laws.{FrameIsLeft, PinIsLeft, SlotsAreOfAKind, DirtyAreKept, HeldAreKnown, LoadedAreKnown};
ghost use Rattle.pp_model.specs.Segments.{SegmentsAreAJournal};
ghost use Rattle.pp_model.specs.Laws.{MarksAreTheJournals, MarksFollow, MarksAreSmall, PlansAreAccounted};
ghost use Rattle.pp_model.specs.Laws.{RenewalSetsBound, RenewalStaysReached, LivesAreReached, RenewalLeaves, RenewalAnswers, RenewalOpens};
ghost use Rattle.pp_model.specs.Laws.{RestHasNoTurn, RestHoldsNothing, RestKeepsDirty};
ghost use Rattle.pp_model.specs.Laws.{NextWhileUnderWay, NextIsOpen};
ghost use Rattle.pp_model.specs.Laws.{SeatsAreWorkers, PlansAreOfTheLayout, PagesAreOfTheLayout, DoneBeginsATrace};
ghost use Rattle.pp_model.specs.Ready.{OpensEmpty, ReadyAreCached, ReadyStand, ReadyAreApart, FramedAreReadyOrAway};
ghost use Rattle.pp_model.specs.Ready.{AwayAreOfPages, AwayAreApart, SharedAreReady, ExclusiveAreAway, LoadingAreAway};
ghost use Rattle.pp_model.specs.Ready.{StillKeeps, ReadVacates, WriteLeaves, WrittenKeeps, UnwrittenEnters};
ghost use Rattle.pp_model.specs.Ready.{LoadedEnters, UnreadReturns, SharedStays, ExclusiveLeaves, SharedGoes};
ghost use Rattle.pp_model.specs.Ready.{ExclusiveEnters, UnwoundEnters, FlushedAreReady, SubmitKeeps, AwayKeep};
ghost use Rattle.pp_model.specs.Ready.{VictimsKeep, RenewalKeeps};
ghost use Rattle.pp_model.specs.Shapes.{RepliesFit};
ghost use Rattle.pp_model.specs.Alone.{FlushStays, FlushStarts, FlushEnds, SettingsStay, OthersSit, AllSit};
ghost use Rattle.pp_model.specs.Alone.{SubmitLeaves};
ghost use Rattle.pp_model.specs.Dirty.{DirtyRises, DirtyFalls, CleanAreEvicted};

/// A state is of its settings. It has a seat for each worker and a note for each page, and its plans are of its layout.
/// No page past the last one is cached or remembered, held, loaded, written back or flushed.
pub fn states_are_of_their_settings()
    ensures seats { (s : State) → IsReached s → SeatsAreWorkers s }
    ensures plans { (s : State) → IsReached s → PlansAreOfTheLayout s }
    ensures pages { (s : State) → IsReached s → PagesAreOfTheLayout s }
{}

/// What a worker has done begins a trace of its plan, whether it acts, waits for an errand or leaves. Each of its slots holds
/// nothing, one page of its own, or the pages of a bundle, of which none is latched.
pub fn workers_follow_their_plans()
    ensures begun { (s : State) → IsReached s → DoneBeginsATrace s }
    ensures slots { (s : State) → IsReached s → SlotsAreOfAKind s }
{}

/// Room: the peaks of all plans that run sum to at most the frames, and each worker holds and loads at most its peak, by pins.
pub fn peaks_fit()
    ensures together { (s : State) → IsReached s → running_peaks s ≤ s.settings.layout.frames }
    ensures each { (s : State) → IsReached s → WithinPeaks s }
{}

/// No worker can find all frames fixed at a fix that its plan asks. A fix that has to wait for the flusher waits for
/// nobody else.
pub fn frames_suffice()
    ensures none_stuck { (s : State) → IsReached s → NoneStuck s }
    ensures flush_alone { (s : State) → IsReached s → FlushHoldsAlone s }
{}

/// Latches are asked by rising classes, and those on one page are all S or a single X.
pub fn latches_agree()
    ensures in_order { (s : State) → IsReached s → InOrder s }
    ensures on_a_page { (s : State) → IsReached s → LatchesAgree s }
{}

/// No page has two errands out, of workers or of the flusher: it is read for one worker alone, or written back as a
/// victim for one alone, or flushed.
pub fn errands_are_apart()
    ensures one { (s : State) → IsReached s → OneErrand s }
{}

/// ARC's bounds hold of the state's lists.
pub fn lists_are_bounded()
    ensures bounds { (s : State) → IsReached s → IsWithinBounds s.lists }
{}

/// Each move that is done lowers the bound by 1 at least, one that is refused leaves the state, and a plan that is
/// taken in raises the bound by its cost. So a list of moves has at most as many done ones as the bound at its start. After a
/// renewal the bound is twice the flushes of the settings.
pub fn moves_are_bounded()
    ensures falls { (s : State) → IsReached s → BoundFalls s }
    ensures refused { (s : State) → RefusedLeaves s }
    ensures rises { (s : State) → IsReached s → BoundRises s }
    ensures renewals { (s : State) → RenewalSetsBound s }
    ensures lists { (s : State) → IsReached s → DoneWithinBound s }
{}

/// The opening state is reached, and so is whatever follows a reached state, also by moves, plans and renewals that are
/// refused. A journal grows by what is done, whichever state it begins in. Where a pool is renewed, a new life begins, whose
/// journal is empty; and the opening state of each life is reached.
pub fn runs_stay_reached()
    ensures opens { (k : Settings) → IsSettings k → IsReached (opening k) }
    ensures goes_on { (s : State) → IsReached s → StaysReached s }
    ensures steps { (s : State) → JournalGrows s }
    ensures submits { (s : State) → JournalTakesIn s }
    ensures renews { (s : State) → RenewalStaysReached s }
    ensures lives { (k : Settings) → IsSettings k → LivesAreReached k }
{}

/// The plans are accounted for: each that was taken is with exactly one worker, or was ended exactly once, and no other
/// is with a worker or was ended. So a plan that isn't ended waits or is with a worker.
pub fn plans_are_accounted()
    ensures each { (s : State) → IsReached s → PlansAreAccounted s }
{}

/// A page has a frame exactly where it is cached. No frame has two pages, each is one of the pool's, there are no more
/// pins in all than frames, and no page has more latches than pins: the map of the marks is sound. Where the cache
/// isn't full a frame is free, and where a plan asks a fix or a gather there is room for its pin.
pub fn frames_are_apart()
    ensures framed { (s : State) → IsReached s → CachedAreFramed s }
    ensures sound { (s : State) → IsReached s → IsSound (marks s) }
    ensures frame { (s : State) → IsReached s → FrameIsLeft s }
    ensures pin { (s : State) → IsReached s → PinIsLeft s }
{}

/// A page that is newer than the device's is cached, or it is written back as a victim. A page that a slot holds has a
/// known mark, and so has one that is cached and not being loaded. The known mark of a page is the one that any journal of
/// the state tells of it: the stamp of the last unlatch or unwinding of X on it, else of its first good reading. A reading is
/// good where the image names the page, and its stamp is below 2^62. In a later life the mark with which the life began comes
/// before the reading. No mark comes near 2^64, now or after the moves that are left.
pub fn marks_are_kept()
    ensures dirty { (s : State) → IsReached s → DirtyAreKept s }
    ensures held { (s : State) → IsReached s → HeldAreKnown s }
    ensures cached { (s : State) → IsReached s → LoadedAreKnown s }
    ensures journals { (s : State) → IsReached s → MarksAreTheJournals s }
    ensures follow { (s : State) → IsReached s → MarksFollow s }
    ensures small { (s : State) → IsReached s → MarksAreSmall s }
{}

/// The map of the marks has of each page what the state says of it, and changes as the state does, page by page.
pub fn marks_go_by_page()
    ensures tell { (s : State) → MarksTell s }
    ensures change { (s t : State) → s.settings.layout.frames ≡ t.settings.layout.frames
        → length s.notes ≡ length t.notes → OnePageChanges s t }
{}

/// A page is ready where it is cached, not being loaded and not latched X, and no other page is: it stands in its
/// frame, which is its alone, with its known mark. A page that has a frame and isn't ready has its image away from
/// there. In a new pool no page is ready and no image is away.
pub fn frames_are_ready()
    ensures opens { (k : Settings) → OpensEmpty k }
    ensures cached { (s : State) → IsReached s → ReadyAreCached s }
    ensures stand { (s : State) → IsReached s → ReadyStand s }
    ensures apart { (s : State) → IsReached s → ReadyAreApart s }
    ensures or_away { (s : State) → IsReached s → FramedAreReadyOrAway s }
    ensures away { (s : State) → AwayAreOfPages s }
    ensures away_apart { (s : State) → IsReached s → AwayAreApart s }
    ensures shared { (s : State) → IsReached s → SharedAreReady s }
    ensures exclusive { (s : State) → IsReached s → ExclusiveAreAway s }
    ensures loading { (s : State) → IsReached s → LoadingAreAway s }
{}

/// What a fix and its errand do to the ready pages and the images, by what they are answered. Most replies leave all as
/// it was. A victim leaves, and enters again where it could not be written; a page that was read enters, and one that
/// was not leaves its frame to nobody.
pub fn fixes_move_images()
    ensures still { (s : State) → IsReached s → StillKeeps s }
    ensures read { (s : State) → IsReached s → ReadVacates s }
    ensures write { (s : State) → IsReached s → WriteLeaves s }
    ensures written { (s : State) → IsReached s → WrittenKeeps s }
    ensures unwritten { (s : State) → IsReached s → UnwrittenEnters s }
    ensures loaded { (s : State) → IsReached s → LoadedEnters s }
    ensures unread { (s : State) → IsReached s → UnreadReturns s }
    ensures submit { (s : State) → SubmitKeeps s }
    ensures renewal { (s : State) → RenewalKeeps s }
{}

/// What latches and their ends do to them. Where a page gets latched, or its flush begins, it is ready; under X it
/// leaves, and when that latch ends it enters again with its raised mark.
pub fn latches_move_images()
    ensures shared_stays { (s : State) → IsReached s → SharedStays s }
    ensures shared_goes { (s : State) → IsReached s → SharedGoes s }
    ensures exclusive_leaves { (s : State) → IsReached s → ExclusiveLeaves s }
    ensures exclusive_enters { (s : State) → IsReached s → ExclusiveEnters s }
    ensures unwound_enters { (s : State) → IsReached s → UnwoundEnters s }
    ensures flushed { (s : State) → IsReached s → FlushedAreReady s }
{}

/// While a page's image is away, the page keeps its frame and its mark, and a victim that is written back keeps its
/// mark.
pub fn images_away_keep_marks()
    ensures away { (s : State) → IsReached s → AwayKeep s }
    ensures victims { (s : State) → IsReached s → VictimsKeep s }
{}

/// Each move is refused, or answered as a move of its kind is when it is done.
pub fn replies_fit()
    ensures fit { (s : State) → RepliesFit s }
{}

/// The flush in flight is the flusher's alone: it begins and ends by the flusher's moves, and workers' moves leave it.
pub fn flushes_go_by_flushers()
    ensures stays { (s : State) → FlushStays s }
    ensures starts { (s : State) → FlushStarts s }
    ensures ends { (s : State) → FlushEnds s }
{}

/// A worker's move leaves the seats of all others, one of the flusher's leaves all seats, and none changes the settings.
/// A plan that is submitted leaves the seats, the flush and the settings. A renewal leaves these, and all that is known of
/// pages.
pub fn moves_leave_others()
    ensures others { (s : State) → OthersSit s }
    ensures flusher { (s : State) → AllSit s }
    ensures settings { (s : State) → SettingsStay s }
    ensures submit { (s : State) → SubmitLeaves s }
    ensures renewal { (s : State) → RenewalLeaves s }
{}

/// There is a next turn while a plan waits, a worker has a plan or a flush is in flight, and only then. It is open: its
/// moves are possible, whatever is decided in them. So neither latches nor full frames ever stop all who could move.
pub fn next_turn_is_open()
    ensures some { (s : State) → IsReached s → NextWhileUnderWay s }
    ensures possible { (s : State) → IsReached s → NextIsOpen s }
{}

/// A page becomes newer than the device's only where a latch X on it ends, and is so no longer only where the device has
/// it: it was written back as a victim, or a flush of it went well and no latch X on it ended meanwhile. A page whose
/// frame is read into at once isn't newer.
pub fn dirty_pages_are_written()
    ensures rises { (s : State) → DirtyRises s }
    ensures falls { (s : State) → DirtyFalls s }
    ensures evicted { (s : State) → CleanAreEvicted s }
{}

/// A pool is at rest exactly where there is no next turn. Then no slot holds or loads a page, and each page that is newer
/// than the device's is cached.
pub fn rest_is_quiet()
    ensures ends { (s : State) → IsReached s → RestHasNoTurn s }
    ensures nothing { (s : State) → RestHoldsNothing s }
    ensures dirty { (s : State) → IsReached s → RestKeepsDirty s }
{}

/// A pool is renewed exactly where it is at rest and every known mark is below 2^63; that it isn't at rest is told first, and
/// else the least page whose mark is higher. A renewal leads to the opening state, but for ARC's lists and what is noted of
/// pages; one that is refused leaves the state.
pub fn renewals_go_by_rest()
    ensures answers { (s : State) → RenewalAnswers s }
    ensures opens { (s : State) → IsReached s → RenewalOpens s }
{}

/// Journals of which each begins in the state to which the one before it leads are, one behind the other, a true journal.
pub fn segments_are_a_journal()
    ensures joined { (o : State) → SegmentsAreAJournal o }
{}
