//! The work of a run: choices that go round from a seed, and bodies whose first byte counts.

ghost use Rattle.std.specs.Prelude.{◌≡◌, ◌+◌, ◌<◌, ◌≤◌, length};
ghost use Rattle.pp_device.specs.Image.{head_of};
ghost use Rattle.pp_run_command.specs.Choices.{after_choice, choice, new_rounds, raised};

use pp_pool::Work;

/// The work of one worker.
///
/// Its k-th choice, pages and branches together and k from 0, takes number (seed + worker + k) mod n among n. A page that
/// it latches X gets 1 added to the first byte of its body, where 255 becomes 0. With a page that it latches S it does
/// nothing.
#[derive(Clone, Copy, Debug, PartialEq, Eq)]
pub struct Rounds {
    seed: u32,
    worker: u32,
    /// How many choices were made. It stays at 2^32 - 1, which is far more than a journal has events.
    choices: u32,
}

impl Rounds {
    /// The work of the worker with this number, which made no choice yet.
    pub fn new(seed: u32, worker: u32) -> Rounds
        ensures { result ≡ new_rounds seed worker }
    {
        Rounds {
            seed,
            worker,
            choices: 0,
        }
    }

    /// How many choices were made.
    pub(crate) fn made(&self) -> u32
        ensures { result ≡ self.now.choices }
    {
        self.choices
    }

    /// The number that the next choice takes among `count`, from 0.
    pub(crate) fn choose(&mut self, count: u32) -> u32
        requires { 1 ≤ count }
        ensures number { result ≡ choice self.old count }
        ensures below { result < count }
        ensures after { self.new ≡ after_choice self.old }
    {
        let sum = u64::from(self.seed) + u64::from(self.worker) + u64::from(self.choices);
        self.choices = self.choices.saturating_add(1);
        (sum % u64::from(count)) as u32
    }
}

impl Work for Rounds {
    ghost page_gives = { λ work region first count page after.
        (page ≡ first + choice work count) × (after ≡ after_choice work) };

    ghost branch_gives = { λ work count branch after. (branch ≡ choice work count) × (after ≡ after_choice work) };

    ghost reach_gives = { λ work bytes. bytes ≡ 0 };

    ghost change_leaves = { λ work page before left after. (left ≡ raised before) × (after ≡ work) };

    ghost see_leaves = { λ work page mark image after. after ≡ work };

    fn page(&mut self, _region: u8, first: u32, count: u32) -> u32 {
        first + self.choose(count)
    }

    fn branch(&mut self, count: u16) -> u16 {
        self.choose(u32::from(count)) as u16
    }

    fn change(&mut self, _page: u32, body: &mut [u8]) {
        raise_first(body);
    }

    // It looks at nothing.
    fn reach(&self) -> usize {
        0
    }

    fn see(&mut self, _page: u32, _mark: u64, _image: &[u8]) {}
}

/// Adds 1 to the first byte, where 255 becomes 0.
pub(crate) fn raise_first(body: &mut [u8])
    ensures { body.new ≡ raised body.old }
{
    if !body.is_empty() {
        body[0] = body[0].wrapping_add(1);
    }
}
