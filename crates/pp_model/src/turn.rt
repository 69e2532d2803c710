//! Whose move is possible next.

ghost use Rattle.std.specs.Prelude.{Some};

use std::fmt;

/// Who can move next, whatever it then decides.
#[derive(Clone, Copy, Debug, PartialEq, Eq)]
pub enum Turn {
    /// The device, which answers this worker's errand.
    Device(u32),
    /// The device, which answers the flusher's errand.
    FlushDevice,
    /// This worker, which runs its plan or leaves it.
    Act(u32),
    /// This idle worker, which takes the first plan that waits.
    Take(u32),
}

impl fmt::Display for Turn {
    ghost use Rattle.pp_model.specs.Words.{turn_words};

    ghost output = { λ turn. Some (turn_words turn) };

    fn fmt<W: fmt::Write>(&self, f: &mut fmt::Formatter<W>) -> fmt::Result {
        match self {
            Turn::Device(worker) => write!(f, "device {worker}"),
            Turn::FlushDevice => f.write_str("flushdevice"),
            Turn::Act(worker) => write!(f, "act {worker}"),
            Turn::Take(worker) => write!(f, "take {worker}"),
        }
    }
}
