//! Writes the notes of a plan, in the order of their places.

ghost use Rattle.std.specs.Prelude.{◌≡◌, ◌++◌, [], ◌∷◌, IfOk, OnOk};
ghost use Rattle.pp_plan.specs.Tree.{loop};
ghost use Rattle.pp_plan.specs.Rules.{uses_bundle};
ghost use Rattle.pp_plan.specs.View.{statement_of, sequence_of, alternatives_of};
ghost use Rattle.pp_cert.specs.Limits.{most_counted};
ghost use Rattle.pp_cert.specs.Notes.{bound_at};
ghost use Rattle.pp_annotate.specs.Growth.{rise, risen, with_rise, first_note};
ghost use Rattle.pp_annotate.specs.Made.{after_statement, after_sequence, after_first, statement_notes, sequence_notes};
ghost use Rattle.pp_annotate.specs.Made.{branches_notes};

use crate::entries::{bound_at, bounded, gathered, held_as, inserted, removed, scattered};
use crate::growth::first_bound;
use pp_cert::{Entry, Held, Note, most_counted};
use pp_plan::{Body, Branches, Plan, Stmt};
use pp_settings::limits::MOST_SLOTS;
use std::alloc::{AllocError, Global};

/// What is noted at the first place of the body of a loop of so many turns, where this is noted just before the loop.
/// `AllocError` where memory runs out.
#[tactic(auto, using(crate::proofs::Rises::rises))]
pub fn first_note(
    alloc: Global,
    plan: &Plan,
    turns: u16,
    body: &Body,
    before: &[Entry],
) -> Result<Vec<Entry>, AllocError>
    ensures { IfOk result (λ first. first.items
        ≡ first_note (most_counted plan.now.layout) (uses_bundle plan.now.body) turns body.now before.now) }
{
    let stop = most_counted(&plan.layout());
    let mut first = Vec::from_slice(alloc, before)?;
    for slot in 0..MOST_SLOTS {
        if plan.is_bundle(slot) {
            first = risen(alloc, turns, body, slot, first, stop)?;
        }
    }
    Ok(first)
}

/// The note with the bound that the bundle has at the first place of the body.
fn risen(
    alloc: Global,
    turns: u16,
    body: &Body,
    slot: u8,
    note: Vec<Entry>,
    stop: u32,
) -> Result<Vec<Entry>, AllocError>
    ensures { IfOk result (λ first. first.items
        ≡ with_rise slot (risen stop (bound_at note.items slot) (rise turns body.now slot)) note.items) }
{
    let before = bound_at(&note, slot);
    let bound = first_bound(turns, body, slot, before, stop);
    if bound == before {
        return Ok(note);
    }
    bounded(alloc, &note, slot, bound)
}

/// The notes that are written so far. A call that runs out of memory may leave some of its notes.
#[derive(Drop)]
pub(crate) struct Draft {
    notes: Vec<Note>,
}

impl Draft {
    /// Without a note.
    pub(crate) fn new(alloc: Global) -> Draft
        ensures { result.notes.items ≡ [] }
    {
        Draft {
            notes: Vec::new(alloc),
        }
    }

    /// The notes in the order in which they were written.
    pub(crate) fn into_notes(self) -> Vec<Note>
        ensures { result ≡ self.notes }
    {
        self.notes
    }

    /// Writes one more note.
    pub(crate) fn write(&mut self, alloc: Global, entries: &[Entry]) -> Result<(), AllocError>
        ensures { OnOk result (self.new.notes.items ≡ self.old.notes.items ++ entries.now ∷ []) }
    {
        let note = Note::new(Vec::from_slice(alloc, entries)?);
        self.notes.push(note)?;
        Ok(())
    }

    /// Writes the notes of statements after the first one, where this is noted before them. Answers what is noted
    /// after them.
    #[cycle(writing)]
    #[tactic(auto, using(crate::proofs::Walk::walks))]
    pub(crate) fn sequence(
        &mut self,
        alloc: Global,
        plan: &Plan,
        before: &[Entry],
        stmts: &[Stmt],
    ) -> Result<Vec<Entry>, AllocError>
        ensures notes { OnOk result (self.new.notes.items
            ≡ self.old.notes.items
            ++ sequence_notes (most_counted plan.now.layout) (uses_bundle plan.now.body) (sequence_of stmts.now) before.now) }
        ensures after { IfOk result (λ after. after.items
            ≡ after_sequence (most_counted plan.now.layout) (uses_bundle plan.now.body) (sequence_of stmts.now) before.now) }
    {
        let mut current = Vec::from_slice(alloc, before)?;
        for stmt in stmts {
            current = self.statement(alloc, plan, &current, stmt)?;
            self.write(alloc, &current)?;
        }
        Ok(current)
    }

    /// Writes the notes inside one statement, where this is noted before it. Answers what is noted after it.
    #[cycle(writing)]
    #[tactic(auto, using(crate::proofs::Walk::walks))]
    fn statement(
        &mut self,
        alloc: Global,
        plan: &Plan,
        before: &[Entry],
        stmt: &Stmt,
    ) -> Result<Vec<Entry>, AllocError>
        ensures notes { OnOk result (self.new.notes.items
            ≡ self.old.notes.items
            ++ statement_notes (most_counted plan.now.layout) (uses_bundle plan.now.body) (statement_of stmt.now) before.now) }
        ensures after { IfOk result (λ after. after.items
            ≡ after_statement (most_counted plan.now.layout) (uses_bundle plan.now.body) (statement_of stmt.now) before.now) }
    {
        match stmt {
            Stmt::Fix { slot, region } => {
                let entry = Entry::Slot {
                    slot: *slot,
                    region: *region,
                    held: Held::Free,
                };
                inserted(alloc, before, entry)
            }
            Stmt::Unfix { slot } => removed(alloc, before, *slot),
            Stmt::Latch { slot, mode } => held_as(alloc, before, Held::from(*mode), *slot),
            Stmt::Unlatch { slot } => held_as(alloc, before, Held::Free, *slot),
            Stmt::Gather { slot, .. } => {
                gathered(alloc, before, *slot, most_counted(&plan.layout()))
            }
            Stmt::Scatter { slot } => scattered(alloc, before, *slot),
            Stmt::Loop { count, body } => self.turns(alloc, plan, before, *count, body),
            Stmt::Choice { branches } => self.choice(alloc, plan, before, branches),
        }
    }

    /// Writes the notes of a body, the first of which is this one. Answers what is noted at its end.
    #[cycle(writing)]
    #[tactic(auto, using(crate::proofs::Walk::walks))]
    fn inside(
        &mut self,
        alloc: Global,
        plan: &Plan,
        before: &[Entry],
        body: &Body,
    ) -> Result<Vec<Entry>, AllocError>
        ensures notes { OnOk result (self.new.notes.items
            ≡ self.old.notes.items
            ++ (before.now ∷ sequence_notes (most_counted plan.now.layout) (uses_bundle plan.now.body) body.now before.now)) }
        ensures after { IfOk result (λ after. after.items
            ≡ after_sequence (most_counted plan.now.layout) (uses_bundle plan.now.body) body.now before.now) }
    {
        self.write(alloc, before)?;
        self.sequence(alloc, plan, before, body.stmts())
    }

    /// Writes the notes of a loop's body, where this is noted before the loop. Answers what is noted at the body's end.
    #[cycle(writing)]
    #[tactic(auto, using(crate::proofs::Walk::walks))]
    fn turns(
        &mut self,
        alloc: Global,
        plan: &Plan,
        before: &[Entry],
        count: u16,
        body: &Body,
    ) -> Result<Vec<Entry>, AllocError>
        ensures notes { OnOk result (self.new.notes.items
            ≡ self.old.notes.items
            ++ statement_notes (most_counted plan.now.layout) (uses_bundle plan.now.body) (loop count body.now) before.now) }
        ensures after { IfOk result (λ after. after.items
            ≡ after_statement (most_counted plan.now.layout) (uses_bundle plan.now.body) (loop count body.now) before.now) }
    {
        let first = first_note(alloc, plan, count, body, before)?;
        self.inside(alloc, plan, &first, body)
    }

    /// Writes the notes of a choice's branches, where this is noted before it. Answers what is noted at the end of the
    /// first one.
    #[cycle(writing)]
    #[tactic(auto, using(crate::proofs::Walk::walks))]
    fn choice(
        &mut self,
        alloc: Global,
        plan: &Plan,
        before: &[Entry],
        branches: &Branches,
    ) -> Result<Vec<Entry>, AllocError>
        ensures notes { OnOk result (self.new.notes.items
            ≡ self.old.notes.items
            ++ branches_notes (most_counted plan.now.layout) (uses_bundle plan.now.body) branches.now before.now) }
        ensures after { IfOk result (λ after. after.items
            ≡ after_first (most_counted plan.now.layout) (uses_bundle plan.now.body) branches.now before.now) }
    {
        let Some((first, later)) = branches.bodies().split_first() else {
            return Vec::from_slice(alloc, before);
        };
        let after = self.inside(alloc, plan, before, first)?;
        self.later(alloc, plan, before, later)?;
        Ok(after)
    }

    /// Writes the notes of the second and later branches of a choice, where this is noted before it.
    #[cycle(writing)]
    #[tactic(auto, using(crate::proofs::Walk::walks))]
    fn later(
        &mut self,
        alloc: Global,
        plan: &Plan,
        before: &[Entry],
        bodies: &[Body],
    ) -> Result<(), AllocError>
        ensures { OnOk result (self.new.notes.items
            ≡ self.old.notes.items
            ++ branches_notes (most_counted plan.now.layout) (uses_bundle plan.now.body) (alternatives_of bodies.now) before.now) }
    {
        for body in bodies {
            self.inside(alloc, plan, before, body)?;
        }
        Ok(())
    }
}
