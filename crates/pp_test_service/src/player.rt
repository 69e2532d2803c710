//! The work of every scene: it tells pages as its steps say, counts the changes of a page in its body, and looks
//! whether the pages that it is handed have all changes of before.

ghost use Rattle.std.specs.Prelude.{◌≤◌, length};

use crate::board::{Board, same};
use crate::scene::{ANY, Call, Step, Thing};
use pp_buffer_pool::{ExecuteError, Outcome};
use pp_device::image;
use pp_pool::{End, Work};
use std::process::Abort;
use std::time::Clock;

/// A work.
#[derive(Drop)]
pub struct Player<'a, R> {
    rt: &'a R,
    board: &'a Board,
    steps: &'static [Step],
    next: usize,
    /// What the next number is made from that looks like chance, where it tells pages so.
    chance: Option<u32>,
    /// Whether it sees copies, whose pages may have been changed since.
    sees_copies: bool,
    /// The plan that was taken, and how it ended.
    pub plan: Option<u64>,
    end: Option<End>,
}

/// How many changes a body tells of: by its first bytes, and in part by its last one.
pub fn changes_in(rt: &impl Abort, name: &str, body: &[u8]) -> u64
    requires { 4 ≤ length body.now }
{
    let number = u64::from(u32::from_le_bytes([body[0], body[1], body[2], body[3]]));
    same(
        rt,
        name,
        "the last byte",
        u64::from(body[body.len() - 1]),
        number % 256,
    );
    number
}

/// Has a body tell of so many changes.
fn set_changes(body: &mut [u8], changes: u64)
    requires { 4 ≤ length body.old }
{
    let bytes = ((changes % 4_294_967_296) as u32).to_le_bytes();
    let last = body.len() - 1;
    body[last] = bytes[0];
    body[..4].copy_from_slice(&bytes);
}

impl<'a, R: Abort + Clock> Player<'a, R> {
    /// A work that tells the pages of these steps.
    pub fn new(rt: &'a R, board: &'a Board, steps: &'static [Step]) -> Player<'a, R> {
        Player {
            rt,
            board,
            steps,
            next: 0,
            chance: None,
            sees_copies: false,
            plan: None,
            end: None,
        }
    }

    /// A work that tells pages by chance. No two begin with the same number.
    pub fn by_chance(rt: &'a R, board: &'a Board, number: usize) -> Player<'a, R> {
        let mut player = Player::new(rt, board, &[]);
        player.chance = Some((number % 65_536) as u32);
        player
    }

    /// The same work, which sees copies.
    pub fn on_copies(self) -> Player<'a, R> {
        let mut player = self;
        player.sees_copies = true;
        player
    }

    /// Before a plan.
    pub fn restart(&mut self) {
        self.next = 0;
        self.plan = None;
        self.end = None;
    }

    /// The test fails where the work was told otherwise than the call answers.
    pub fn ended_as(&self, answer: Result<Outcome, ExecuteError>) {
        let want = match answer {
            Ok(Outcome::Done) => Some(End::Done),
            Ok(Outcome::Gone { page, why }) => Some(End::Gone { page, why }),
            Err(_) => None,
        };
        if self.end != want || self.plan.is_some() != want.is_some() {
            panic!(self.rt;
                "{}: {answer:?}, but the work was told {:?}",
                self.board.scene.name, self.end
            );
        }
    }

    /// The next number by chance; 0 where it tells pages by steps.
    fn number(&mut self) -> u32 {
        let Some(chance) = self.chance else {
            return 0;
        };
        let next = chance.wrapping_mul(1_664_525).wrapping_add(1_013_904_223);
        self.chance = Some(next);
        next >> 16
    }

    /// How far behind the first page of its region the next page is, once that may be told.
    fn behind(&mut self) -> u32 {
        let Some(Step(behind, until)) = self.steps.get(self.next).copied() else {
            return self.number();
        };
        self.next = self.next.saturating_add(1);
        self.board.wait(self.rt, until);
        behind
    }

    /// The test fails where the page that this worker has latched hasn't all changes of before.
    fn note(&self, page: u32, what: &str, changes: u64) {
        if changes != self.board.changes(page) {
            panic!(self.rt;
                "{}: {what} of page {page} tells of {changes} changes, and not {}",
                self.board.scene.name,
                self.board.changes(page)
            );
        }
    }
}

impl<'a, R: Abort + Clock> Work for Player<'a, R> {
    ghost begins_leaves = { λ work plan after. Unit {0} };

    ghost ended_leaves = { λ work end after. Unit {0} };

    fn begins(&mut self, plan: u64) {
        self.plan = Some(plan);
        self.board.tell(Thing::Begun);
        self.board
            .meet(self.rt, Call::Begin, (plan % 65_536) as u32);
    }

    fn ended(&mut self, end: End) {
        self.end = Some(end);
        self.board.tell(Thing::Over);
        let plan = self.plan.unwrap_or(0);
        self.board.meet(self.rt, Call::End, (plan % 65_536) as u32);
    }

    fn page(&mut self, _region: u8, first: u32, count: u32) -> u32 {
        let page = first + self.behind() % count;
        self.board.tell(Thing::Asked);
        page
    }

    fn branch(&mut self, count: u16) -> u16 {
        self.board.meet(self.rt, Call::Branch, ANY);
        (self.number() % u32::from(count)) as u16
    }

    fn change(&mut self, page: u32, body: &mut [u8]) {
        let changes = changes_in(self.rt, self.board.scene.name, body);
        self.note(page, "the body", changes);
        set_changes(body, changes.saturating_add(1));
        self.board.tell_change(page);
        self.board.tell(Thing::Changed);
        self.board.meet(self.rt, Call::Change, page);
    }

    fn see(&mut self, page: u32, mark: u64, image: &[u8]) {
        let changes = changes_in(self.rt, self.board.scene.name, &image[image::HEAD..]);
        same(self.rt, self.board.scene.name, "the mark", mark, changes);
        if !self.sees_copies || self.board.changes(page) < changes {
            self.note(page, "the image", changes);
        }
        self.board.tell(Thing::Seen);
        self.board.meet(self.rt, Call::See, page);
    }
}
