//! Loops that make a plan's longest trace too long.

use pp_cert::MOST_STEPS;
use pp_plan::{Plan, Stmt};
use pp_settings::limits::MOST_DEPTH;

/// A loop of more actions than a plan may have.
#[derive(Clone, Copy)]
pub(crate) struct Multiplied {
    /// Its number, from 0 in the order in which statements begin.
    pub(crate) number: u32,
    /// Its turns.
    pub(crate) turns: u16,
    /// The most actions of one turn.
    pub(crate) each: u64,
    /// Those of all turns.
    pub(crate) all: u64,
}

/// How many actions the longest trace of the plan has, and the first loop that has more than a plan may have, and none such
/// in it.
pub(crate) fn multiplied_in(plan: &Plan) -> (u64, Option<Multiplied>) {
    let mut search = Search {
        next: 0,
        found: None,
    };
    let longest = search.body(MOST_DEPTH, plan.body());
    (longest, search.found)
}

/// A search for it.
#[derive(Clone, Copy)]
struct Search {
    /// The number of the next statement.
    next: u32,
    found: Option<Multiplied>,
}

impl Search {
    /// The most actions of the statements, one behind the other.
    #[cycle(seek)]
    fn body(&mut self, levels: u8, stmts: &[Stmt]) -> u64 {
        let mut actions = 0u64;
        for stmt in stmts {
            actions = actions.saturating_add(self.statement(levels, stmt));
        }
        actions
    }

    /// The most actions of the statement.
    #[cycle(seek)]
    fn statement(&mut self, levels: u8, stmt: &Stmt) -> u64 {
        let number = self.next;
        self.next = number.saturating_add(1);
        if levels == 0 {
            return 1;
        }
        match stmt {
            Stmt::Loop { count, body } => {
                let each = self.body(levels - 1, body.stmts());
                self.turns(number, *count, each)
            }
            Stmt::Choice { branches } => {
                let mut most = 0;
                for body in branches.bodies() {
                    most = most.max(self.body(levels - 1, body.stmts()));
                }
                most.saturating_add(1)
            }
            _ => 1,
        }
    }

    /// The actions of so many turns of a loop.
    fn turns(&mut self, number: u32, turns: u16, each: u64) -> u64 {
        let all = each.saturating_mul(u64::from(turns));
        if self.found.is_none() && all > MOST_STEPS {
            self.found = Some(Multiplied {
                number,
                turns,
                each,
                all,
            });
        }
        all
    }
}
