//! Who is handed the segments of a ledger.

ghost use Rattle.std.specs.Prelude.{◌≡◌, ◌≤◌, true};
ghost use Rattle.pp_ledger.specs.Segments.{Segment, is_ready};

use crate::segment::Segment;

/// Who is handed each segment that a [`LedgerSite`](crate::LedgerSite) takes out, to write it down.
///
/// Each sink says what it does with the full segment by a relation of its own, `keeps`: from the sink as it was, with
/// the segment that it is handed and the one that it gives, to the sink as it is then. So a caller knows of each
/// segment what became of it.
///
/// There is none here, since a sink can't fail, and what it does belongs to its host. It may write the segment down,
/// empty it ([`Segment::clear`]) and give it back; or give it away to a thread that writes, and take one that this
/// thread has emptied.
pub trait Sink {
    ghost keeps: { Self → (full : Segment) → (next : Segment) → Self → Type 0 };

    /// Takes a segment that was taken out, and gives one in which a ledger can go on: it is empty, and has memory for
    /// an event ([`Segment::is_ready`]).
    ///
    /// The ledger goes on meanwhile in another one, which it has already. A site that is shared holds its lock, so a
    /// sink that waits makes all workers wait.
    fn next(&mut self, full: Segment) -> Segment
        requires room { 1 ≤ full.capacity }
        ensures given { keeps self.old full result self.new }
        ensures ready { is_ready result ≡ true };
}
