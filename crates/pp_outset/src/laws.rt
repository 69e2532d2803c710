//! Laws of outsets, on the states of the model.

ghost use Rattle.pp_model.specs.Pool.{Settings, State};
ghost use Rattle.pp_core.specs.Parts.{Parts};
ghost use Rattle.pp_outset.specs.Outsets.{Outset};
ghost use Rattle.pp_outset.specs.OutsetLaws.{NewOpens, NextOpens, NextKeeps, OpensWith, NextIsReached, HasRoom};

/// The life of a new pool begins in the opening state of the settings. Each other life begins in the opening state with the
/// outset that the life before left, which is reached.
pub fn lives_open_with_outsets()
    ensures new { (k : Settings) → NewOpens k }
    ensures next { (s : State) → NextOpens s }
    ensures keeps { (s : State) → NextKeeps s }
    ensures with { (k : Settings) → (o : Outset) → OpensWith k o }
    ensures reached { (s : State) → NextIsReached s }
{}

/// An outset with which a life begins has room for what that life leaves.
pub fn outsets_have_room()
    ensures room { (k : Settings) → (o : Outset) → (f : Parts) → HasRoom k o f }
{}
