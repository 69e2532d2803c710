//! Laws of the segments of a ledger, on the states of the model.

ghost use Rattle.pp_model.specs.Pool.{State};
ghost use Rattle.pp_ledger.specs.Taken.{TakenAreAJournal};

/// Segments that were taken out of a ledger one after the other are one true journal, from the state in which the
/// first begins. The prepared plans that they name are those that were submitted, in order. Each tells rightly how
/// many segments and plans came before it, and names as many plans as it has submits.
pub fn taken_segments_are_a_journal()
    ensures joined { (o : State) → TakenAreAJournal o }
{}
