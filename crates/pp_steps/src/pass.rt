//! By what a host names what it runs.

ghost use Rattle.std.specs.Prelude.{◌≡◌, ◌<◌, ◌+◌, ◌*◌, ◌/◌, ◌%◌};
ghost use Rattle.pp_steps.specs.Passes.{number_of, told_by, IsPass};

/// How many bells there may be: a pass goes to the host as one number of 64 bits, and its lower 16 are the bell.
const BELLS: u64 = 65_536;

/// The greatest turn of a seat: 2^48 - 1, all that the other 48 bits of a pass count. A seat that has had so many gives no
/// further pass, so that none is told twice.
pub(crate) const LAST_TURN: u64 = 281_474_976_710_655;

/// By what a host names one that waits, or that runs: its bell, and how many had that seat before. It is a number, and is
/// tested at each call.
#[derive(Clone, Copy, Debug, PartialEq, Eq)]
pub struct Pass {
    /// The bell: of one that runs its chair's number; of one that waits its place in the queue, beyond all chairs; the
    /// flusher's is the last.
    pub bell: u32,
    /// Which turn of its seat it is. The first is 1, so that the number 0 is no pass.
    pub turn: u64,
}

impl Pass {
    /// The pass of this number.
    pub fn of(number: u64) -> Pass
        ensures { result ≡ record { bell = number % 65536; turn = number / 65536 } }
    {
        Pass {
            bell: (number % BELLS) as u32,
            turn: number / BELLS,
        }
    }

    /// The number of the pass, of which [`Pass::of`] makes the same pass again, where the pass is one that a pool gave.
    pub fn number(self) -> u64
        ensures is { result ≡ told_by self }
        ensures number { IsPass self → result ≡ number_of self }
        ensures back { IsPass self → (result % 65536 ≡ self.bell) × (result / 65536 ≡ self.turn) }
    {
        (self.turn % (LAST_TURN + 1)) * BELLS + u64::from(self.bell) % BELLS
    }
}
