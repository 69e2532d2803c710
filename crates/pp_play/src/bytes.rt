//! Write and look: cues that reach the body of a page that a worker has latched.

ghost use Rattle.std.specs.Prelude.{◌≡◌, ◌≢◌, ℕ, true, Some, length, slice_get};
ghost use Rattle.pp_vault.specs.Parts.{Parts};
ghost use Rattle.pp_vault.specs.Holding.{slot_by};
ghost use Rattle.pp_vault.specs.Hands.{GuardFits};
ghost use Rattle.pp_vault.specs.HandLaws.{FitsIn};
ghost use Rattle.pp_vault.specs.StandsFor.{StandsFor, IsKept};
ghost use Rattle.pp_core.specs.Queries.{held_of};
ghost use Rattle.pp_model.specs.Pool.{State};
ghost use Rattle.pp_script.specs.declared.cue.Cue.{Cue};
ghost use Rattle.pp_script.specs.declared.cue.Cue.TheVariants as cue;
ghost use Rattle.pp_play.specs.Plays.{is_write, is_look, Tells};
ghost use Rattle.pp_play.specs.Doing.{HandPlays};
ghost use Rattle.pp_play.specs.FirstBytes.{line_of_first, WritesInto, LooksWith, SeesWith};
ghost use Rattle.pp_play.specs.AnyHands.{IsHandLine};

use crate::guards::put;
use crate::line::Line;
use pp_vault::{Guard, Hand, Vault};

/// A worker sets the first byte of the body of a page that it has latched X.
#[tactic(auto, using(crate::proofs::Answered::write_asks))]
pub(crate) fn write(hand: Hand, slot: u32, byte: u8) -> (Hand, Line)
    ensures stage { result.0.stage ≡ hand.stage }
    ensures tells { (cue : Cue) → is_write cue ≡ true → (s : State) → Tells s cue result.1 s }
    ensures own { (v : Parts) (w : ℕ) → IsHandLine v (Some hand) (Some result.0) (cue.Write w slot byte) result.1 }
    ensures plays { (v : Parts) (w : ℕ) → FitsIn v w hand
        → HandPlays v w hand (cue.Write w slot byte) result.1 v result.0 }
{
    let Hand { stage, mut guards } = hand;
    let line = match guards.take(slot) {
        Some(guard) => {
            let (guard, line) = written(guard, byte);
            put(&mut guards, guard);
            line
        }
        None => Line::NoLatch,
    };
    (Hand { stage, guards }, line)
}

/// The guard with this byte at the front of its body, where it has one.
#[tactic(auto, using(crate::proofs::Answered::write_asks))]
fn written(guard: Guard, byte: u8) -> (Guard, Line)
    ensures slot { slot_by result.0 ≡ slot_by guard }
    ensures tells { (cue : Cue) → is_write cue ≡ true → (s : State) → Tells s cue result.1 s }
    ensures into { WritesInto byte guard result.1 result.0 }
{
    match guard {
        Guard::Write(mut guard) => {
            let line = match guard.body_mut().first_mut() {
                Some(first) => {
                    *first = byte;
                    Line::Wrote
                }
                None => Line::NoLatch,
            };
            (Guard::Write(guard), line)
        }
        guard => (guard, Line::NoLatch),
    }
}

/// A worker looks at the first byte of the body of a page that it has latched.
#[tactic(auto, using(crate::proofs::Answered::look_asks))]
pub(crate) fn look(vault: &Vault, hand: Hand, slot: u32) -> (Hand, Line)
    ensures stage { result.0.stage ≡ hand.stage }
    ensures tells { (cue : Cue) → is_look cue ≡ true → (s : State) → Tells s cue result.1 s }
    ensures own { (w : ℕ) → IsHandLine vault.now (Some hand) (Some result.0) (cue.Look w slot) result.1 }
    ensures plays { (w : ℕ) → FitsIn vault.now w hand
        → HandPlays vault.now w hand (cue.Look w slot) result.1 vault.now result.0 }
{
    let Hand { stage, mut guards } = hand;
    let line = match guards.take(slot) {
        Some(guard) => {
            let line = looked(vault, &guard);
            put(&mut guards, guard);
            line
        }
        None => Line::NoLatch,
    };
    (Hand { stage, guards }, line)
}

/// The first byte of the body of the guard's page, where it is latched.
#[tactic(auto, using(crate::proofs::Answered::look_asks))]
fn looked(vault: &Vault, guard: &Guard) -> Line
    ensures tells { (cue : Cue) → is_look cue ≡ true → (s : State) → Tells s cue result s }
    ensures sees { (s : State) → StandsFor vault.now s → SeesWith vault.now s guard.now result }
    ensures looks { (s : State) → StandsFor vault.now s → (w slot : ℕ)
        → GuardFits vault.now.page_bytes s w slot guard.now
        → LooksWith vault.now s (held_of s w slot) guard.now result }
{
    match guard {
        Guard::Pin(_) => Line::NoLatch,
        Guard::Read(guard) => match vault.see(guard) {
            Some(body) => first_byte(body),
            None => Line::NoLatch,
        },
        Guard::Write(guard) => first_byte(guard.body()),
        Guard::Bundle(_) => Line::NoLatch,
    }
}

/// The first byte of a body, where it has one.
fn first_byte(body: &[u8]) -> Line
    ensures { result ≡ line_of_first (slice_get body.now 0) }
{
    match body.first() {
        Some(byte) => Line::Looked(*byte),
        None => Line::NoLatch,
    }
}
