//! The places of a plan, and what is held at them.

use crate::entries::{after, pins_of};
use pp_annotate::first_note;
use pp_cert::{Entry, Note};
use pp_locate::Step;
use pp_plan::{Body, Branches, Plan, Stmt};
use pp_settings::limits::MOST_DEPTH;
use std::alloc::{AllocError, Global};

/// Where a place lies.
#[derive(Clone, Copy)]
pub(crate) enum Role {
    /// Before the statement.
    Before,
    /// At the end of the body of the statement, a loop.
    LoopEnd,
    /// At the end of the branch of this number of the statement, a choice.
    BranchEnd(usize),
    /// At the end of the plan, behind all statements.
    End,
}

/// A place of a plan.
#[derive(Drop)]
pub(crate) struct Place {
    /// Where it lies.
    pub(crate) role: Role,
    /// The number of its statement; at the plan's end, how many statements there are.
    pub(crate) number: u32,
    /// The way to its statement.
    pub(crate) steps: Vec<Step<'static>>,
    /// What is held there.
    pub(crate) held: Vec<Entry>,
    /// Whether it stands in a loop in which a bundle grows, so that only the last turn holds so much there.
    pub(crate) grows: bool,
    /// At the end of a loop's body, what its last turn begins with; at that of a branch, what the first branch ends with.
    pub(crate) due: Vec<Entry>,
}

/// The place of this number, if the plan has it. Places are numbered from 0: one before each statement, then those of
/// its bodies, and one at each body's end.
pub(crate) fn place_of(
    alloc: Global,
    plan: &Plan,
    number: u32,
) -> Result<Option<Place>, AllocError> {
    Ok(walked(alloc, plan, &[], number, u32::MAX)?.found)
}

/// The first place before the one of this number whose note isn't what is held there, if there is one.
pub(crate) fn other_note(
    alloc: Global,
    plan: &Plan,
    notes: &[Note],
    number: u32,
) -> Result<Option<u32>, AllocError> {
    Ok(walked(alloc, plan, notes, number, u32::MAX)?.other)
}

/// How many places the plan has.
pub(crate) fn places_of(alloc: Global, plan: &Plan) -> Result<u32, AllocError> {
    Ok(walked(alloc, plan, &[], u32::MAX, u32::MAX)?.place)
}

/// A fix or a gather with which more pages are held than there may be.
#[derive(Drop)]
pub(crate) struct Excess {
    /// How many pages are held with it.
    pub(crate) pins: u32,
    /// The number of the place behind it.
    pub(crate) behind: u32,
    /// The place of the statement, with what is held behind it.
    pub(crate) place: Place,
}

/// The first fix or gather of the plan with which more than so many pages are held.
pub(crate) fn excess_of(
    alloc: Global,
    plan: &Plan,
    most: u32,
) -> Result<Option<Excess>, AllocError> {
    Ok(walked(alloc, plan, &[], u32::MAX, most)?.excess)
}

/// A walk over a plan that looks for a place.
#[derive(Drop)]
struct Walk<'n> {
    plan: &'n Plan,
    wanted: u32,
    /// Notes that what is held is compared with.
    notes: &'n [Note],
    /// The first place that the walk has passed and whose note is another one.
    other: Option<u32>,
    /// The number of the next place.
    place: u32,
    /// The number of the next statement.
    number: u32,
    /// The way to where the walk stands.
    steps: Vec<Step<'static>>,
    /// Whether it stands in a loop in which a bundle grows.
    grows: bool,
    /// How many pages may be held, and the first statement with which more are.
    most: u32,
    excess: Option<Excess>,
    found: Option<Place>,
}

/// A walk over the plan, beside these notes, that has come to the place of this number, or to the plan's end. So many pages
/// may be held.
fn walked<'n>(
    alloc: Global,
    plan: &'n Plan,
    notes: &'n [Note],
    wanted: u32,
    most: u32,
) -> Result<Walk<'n>, AllocError> {
    let mut walk = Walk {
        plan,
        wanted,
        notes,
        other: None,
        place: 0,
        number: 0,
        steps: Vec::new(alloc),
        grows: false,
        most,
        excess: None,
        found: None,
    };
    walk.go(alloc)?;
    Ok(walk)
}

impl Walk<'_> {
    /// Walks over the whole plan, up to the place that is wanted.
    fn go(&mut self, alloc: Global) -> Result<(), AllocError> {
        let plan = self.plan;
        let held = self.statements(alloc, MOST_DEPTH, Step::Key("body"), &[], plan.body())?;
        if let Some(held) = held {
            self.arrive(alloc, Role::End, self.number, &held, &[])?;
        }
        Ok(())
    }

    /// Whether this is noted at the place where the walk stands. Where no note is left, none differs.
    fn is_noted(&self, held: &[Entry]) -> bool {
        match self.notes.get(self.place as usize) {
            Some(note) => note.entries() == held,
            None => true,
        }
    }

    /// Comes to the next place, of the statement with this number. Whether it is the one.
    fn arrive(
        &mut self,
        alloc: Global,
        role: Role,
        number: u32,
        held: &[Entry],
        due: &[Entry],
    ) -> Result<bool, AllocError> {
        if self.place != self.wanted {
            if self.other.is_none() && !self.is_noted(held) {
                self.other = Some(self.place);
            }
            self.place = self.place.saturating_add(1);
            return Ok(false);
        }
        self.found = Some(self.place_as(alloc, role, number, held, due)?);
        Ok(true)
    }

    /// The place where the walk stands, of the statement with this number.
    fn place_as(
        &self,
        alloc: Global,
        role: Role,
        number: u32,
        held: &[Entry],
        due: &[Entry],
    ) -> Result<Place, AllocError> {
        Ok(Place {
            role,
            number,
            steps: Vec::from_slice(alloc, &self.steps)?,
            held: Vec::from_slice(alloc, held)?,
            grows: self.grows,
            due: Vec::from_slice(alloc, due)?,
        })
    }

    /// Notes that this is held behind the statement with this number, the one that the walk has just come to.
    fn hold(&mut self, alloc: Global, number: u32, held: &[Entry]) -> Result<(), AllocError> {
        let pins = pins_of(held);
        if pins > self.most && self.excess.is_none() {
            self.excess = Some(Excess {
                pins,
                behind: self.place,
                place: self.place_as(alloc, Role::Before, number, held, &[])?,
            });
        }
        Ok(())
    }

    /// Walks over the statements of a list that this step leads to, where this is held before them. Answers what is held
    /// after them, unless the place is among them.
    #[cycle(walk)]
    fn statements(
        &mut self,
        alloc: Global,
        levels: u8,
        step: Step<'static>,
        before: &[Entry],
        stmts: &[Stmt],
    ) -> Result<Option<Vec<Entry>>, AllocError> {
        self.steps.push(step)?;
        let mut held = Vec::from_slice(alloc, before)?;
        for (item, stmt) in stmts.iter().enumerate() {
            self.steps.push(Step::Item(item))?;
            match self.statement(alloc, levels, &held, stmt)? {
                Some(after) => held = after,
                None => return Ok(None),
            }
            self.steps.pop();
        }
        self.steps.pop();
        Ok(Some(held))
    }

    /// Walks over one statement.
    #[cycle(walk)]
    fn statement(
        &mut self,
        alloc: Global,
        levels: u8,
        before: &[Entry],
        stmt: &Stmt,
    ) -> Result<Option<Vec<Entry>>, AllocError> {
        let number = self.number;
        if self.arrive(alloc, Role::Before, number, before, &[])? || levels == 0 {
            return Ok(None);
        }
        self.number = number.saturating_add(1);
        match stmt {
            Stmt::Loop { count, body } => {
                self.turns(alloc, levels - 1, number, before, *count, body)
            }
            Stmt::Choice { branches } => self.choice(alloc, levels - 1, number, before, branches),
            _ => {
                let held = after(alloc, self.plan, before, stmt)?;
                if matches!(stmt, Stmt::Fix { .. } | Stmt::Gather { .. }) {
                    self.hold(alloc, number, &held)?;
                }
                Ok(Some(held))
            }
        }
    }

    /// Walks over the body of a loop of so many turns, in its last turn.
    #[cycle(walk)]
    fn turns(
        &mut self,
        alloc: Global,
        levels: u8,
        number: u32,
        before: &[Entry],
        count: u16,
        body: &Body,
    ) -> Result<Option<Vec<Entry>>, AllocError> {
        let first = first_note(alloc, self.plan, count, body, before)?;
        let outer = self.grows;
        self.grows = outer || pins_of(&first) > pins_of(before);
        let held = self.statements(alloc, levels, Step::Key("body"), &first, body.stmts())?;
        let Some(held) = held else {
            return Ok(None);
        };
        if self.arrive(alloc, Role::LoopEnd, number, &held, &first)? {
            return Ok(None);
        }
        self.grows = outer;
        Ok(Some(held))
    }

    /// Walks over the branches of a choice.
    #[cycle(walk)]
    fn choice(
        &mut self,
        alloc: Global,
        levels: u8,
        number: u32,
        before: &[Entry],
        branches: &Branches,
    ) -> Result<Option<Vec<Entry>>, AllocError> {
        let mut first = None;
        for (branch, body) in branches.bodies().iter().enumerate() {
            self.steps.push(Step::Key("choice"))?;
            let step = Step::Item(branch);
            let Some(held) = self.statements(alloc, levels, step, before, body.stmts())? else {
                return Ok(None);
            };
            self.steps.pop();
            let due = first.as_ref().unwrap_or(&held);
            if self.arrive(alloc, Role::BranchEnd(branch), number, &held, due)? {
                return Ok(None);
            }
            if first.is_none() {
                first = Some(held);
            }
        }
        match first {
            Some(held) => Ok(Some(held)),
            None => Ok(Some(Vec::from_slice(alloc, before)?)),
        }
    }
}
