//! What is left where a run over a kept pool gives no record.

ghost use Rattle.std.specs.Prelude.{◌≡◌};
ghost use Rattle.pp_run.specs.Unrun.{dirty_left};

use crate::pool::Pool;
use crate::stalled::Stalled;
use pp_cert::Accepted;

/// What is left where a run over a kept pool gives no record. The compiler refuses code that lets it fall.
pub enum Unrun<D, W> {
    /// Nothing was done.
    Unbegun(Unbegun<D, W>),
    /// The plans were submitted, and moves may have been done.
    Stalled(Stalled),
}

/// A run that wasn't begun: all that was handed over for it, as it was.
pub struct Unbegun<D, W> {
    pub pool: Pool,
    pub plans: Vec<Accepted>,
    pub devices: Vec<D>,
    pub works: Vec<W>,
}

impl<D: Drop, W: Drop> Unrun<D, W> {
    /// Gives the pool up, and answers how many pages were newer than the device's: what was changed in them is lost.
    pub fn close(self) -> u32
        ensures { result ≡ dirty_left self }
    {
        match self {
            Unrun::Unbegun(unbegun) => {
                let Unbegun {
                    pool,
                    plans: _plans,
                    devices: _devices,
                    works: _works,
                } = unbegun;
                pool.close()
            }
            Unrun::Stalled(stalled) => {
                let (_journal, dirty) = stalled.close();
                dirty
            }
        }
    }
}
