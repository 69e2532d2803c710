//! Writing a text as far as a writer takes it.

ghost use Rattle.std.specs.Prelude.{◌≤◌, IfSome, IsTrue, MatchOption, length, take};
ghost use Rattle.std.specs.Io.KnownBytes.{Appends, Keeps};
ghost use Rattle.pp_cli.specs.Telling.{IsBegun};

use std::io::{ErrorKind, Write};

/// Writes the bytes until all are written or the writer fails, and sees that they leave its buffer. Whether it took all.
#[tactic(auto, using(crate::proofs::Written::pieces))]
pub fn put<W: Write>(to: &mut W, bytes: &[u8]) -> bool
    // The writer has a front of them more, whatever happens.
    ensures begun { IsBegun (W.contents to.old) (W.contents to.new) bytes.now }
    ensures whole { IsTrue result → Appends (W.contents to.old) (W.contents to.new) bytes.now }
{
    let mut done = 0;
    for _ in 0..u64::MAX {
        if done == bytes.len() {
            return to.flush().is_ok();
        }
        let Some(count) = put_piece(to, &bytes[done..]) else {
            return false;
        };
        done += count;
    }
    false
}

/// Writes a piece of the bytes. How many that are, none after an interruption; nothing where the writer takes no more.
#[tactic(auto, using(crate::proofs::Written::pieces))]
fn put_piece<W: Write>(to: &mut W, bytes: &[u8]) -> Option<usize>
    ensures within { IfSome result (λ count. count ≤ length bytes.now) }
    ensures piece { MatchOption result (Keeps (W.contents to.old) (W.contents to.new))
        (λ count. Appends (W.contents to.old) (W.contents to.new) (take count bytes.now)) }
{
    match to.write(bytes) {
        Ok(0) => None,
        Ok(count) => Some(count),
        Err(error) if error.kind() == ErrorKind::Interrupted => Some(0),
        Err(_) => None,
    }
}
