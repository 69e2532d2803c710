//! A work that is told of its plans and is lent pages: a player that meets the cues of these calls too.

ghost use Rattle.std.specs.Prelude.{◌≡◌, ◌⊎◌, false};

use crate::board::Board;
use crate::case::Call;
use crate::player::Player;
use pp_pool::{End, Held, Loan, Work};
use std::time::Clock;

/// The work of a worker.
#[derive(Drop)]
pub struct Lent<'a, R> {
    rt: R,
    board: &'a Board,
    player: Player<'a, R>,
    /// The plan that it was told of last. A life takes 256.
    plan: u32,
}

impl<'a, R: Clock> Lent<'a, R> {
    /// A work that wasn't called yet.
    pub fn new(rt: R, board: &'a Board, player: Player<'a, R>) -> Lent<'a, R> {
        Lent {
            rt,
            board,
            player,
            plan: 0,
        }
    }
}

impl<'a, R: Clock> Work for Lent<'a, R> {
    ghost begins_leaves = { λ work plan after. Unit {0} };

    ghost ended_leaves = { λ work end after. Unit {0} };

    ghost reach_gives = { λ work bytes. Unit {0} };

    ghost rework_leaves = { λ work off before left after. Unit {0} };

    ghost wants_rework_gives = { λ wanted. Unit {0} };

    fn begins(&mut self, plan: u64) {
        self.plan = (plan % 256) as u32;
        self.board.meet(&self.rt, Call::Begin, self.plan);
    }

    fn ended(&mut self, _end: End) {
        self.board.meet(&self.rt, Call::End, self.plan);
    }

    fn page(&mut self, region: u8, first: u32, count: u32) -> u32 {
        self.player.page(region, first, count)
    }

    fn branch(&mut self, count: u16) -> u16 {
        self.player.branch(count)
    }

    fn reach(&self) -> usize {
        self.player.reach()
    }

    fn change(&mut self, page: u32, body: &mut [u8]) {
        self.player.change(page, body);
    }

    fn see(&mut self, page: u32, mark: u64, image: &[u8]) {
        self.player.see(page, mark, image);
    }

    fn wants_rework() -> bool
        ensures given { Unit {0} ⊎ (result ≡ false) }
    {
        true
    }

    fn rework<L: Loan>(&mut self, off: u8, held: &mut Held<L>) {
        self.board.note(held.page(off).is_some());
        self.board.meet(&self.rt, Call::Rework, u32::from(off));
    }
}
