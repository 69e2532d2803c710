//! Laws of plans, for the proofs of callers.

ghost use Rattle.std.specs.Prelude.{◌≡◌, ◌↔◌, List, length};
ghost use Rattle.pp_plan.specs.declared.action.Action.{Action};
ghost use Rattle.pp_plan.specs.declared.action.Ask.TheVariants.{End};
ghost use Rattle.pp_cursor.specs.Asked.{asked};
ghost use Rattle.pp_cursor.specs.Cursor.{NamesAction, IsAskOf};
ghost use Rattle.pp_plan.specs.PlanTraces.{IsTraceOf, PlanAsks};
ghost use Rattle.pp_plan.specs.Terms.{Terms, IsPlan};
ghost use Rattle.pp_plan.specs.Traces.{Begins};

/// What a plan asks after a list of actions, as a function, is what its traces say.
pub fn asked_is_what_traces_say()
    // The plan asks an action if and only if the function's value names it.
    ensures named { (p : Terms) (t : List Action) (a : Action) → IsPlan p
        → PlanAsks p t a ↔ NamesAction p.layout (asked p t) a }
    // A list that begins a trace is a whole trace if and only if the value is the end.
    ensures ended { (p : Terms) (t : List Action) → IsPlan p → Begins p.layout p.body t
        → IsTraceOf p t ↔ (asked p t ≡ End) }
    // A slot that is asked for is below the number of slots, a region below the number of regions.
    ensures within { (p : Terms) (t : List Action) → IsPlan p
        → IsAskOf (length p.slots) (length p.layout.extents) (asked p t) }
{}
