//! What the vault says of wants.

ghost use Rattle.std.specs.Prelude.{◌≡◌};
ghost use Rattle.std.specs.Option.{is_none};
ghost use Rattle.pp_model.specs.Moves.{is_possible};
ghost use Rattle.pp_model.specs.Pool.{State, frame_of};
ghost use Rattle.pp_vault.specs.StandsFor.{StandsFor};
ghost use Rattle.pp_wants.specs.WakeUps.{lacks_room, may_go, is_alike};

use crate::want::Want;
use pp_model::Delay;
use pp_vault::{Move, Refusal, Vault};

/// Whether a worker with this want needn't sleep: its move is possible, or it is a take and no plan waits any more.
pub(crate) fn may_go(vault: &Vault, worker: u32, want: Want) -> bool
    ensures { (s : State) → StandsFor vault.now s → result ≡ may_go s worker want }
{
    match want {
        Want::Take => !lacks_room(vault.refusal(&Move::Take { worker })),
        Want::Fix { page } => is_possible(vault, &Move::Fix { worker, page }),
        Want::Latch { .. } => is_possible(vault, &Move::Latch { worker }),
    }
}

/// Whether a take is refused since the plan that waits first has no room.
fn lacks_room(refusal: Option<Refusal>) -> bool
    ensures { result ≡ lacks_room refusal }
{
    matches!(refusal, Some(Refusal::NotNow(Delay::NoRoom)))
}

/// Whether the move is possible.
fn is_possible(vault: &Vault, asked: &Move) -> bool
    ensures { (s : State) → StandsFor vault.now s → result ≡ is_possible s asked.now }
{
    vault.refusal(asked).is_none()
}

/// Whether the second want is for what the first one is for.
pub(crate) fn is_alike(vault: &Vault, want: Want, other: Want) -> bool
    ensures { (s : State) → StandsFor vault.now s → result ≡ is_alike s want other }
{
    match (want, other) {
        (Want::Take, Want::Take) => true,
        (Want::Fix { page }, Want::Fix { page: other }) => {
            has_no_frame(vault, page) && has_no_frame(vault, other)
        }
        (Want::Latch { page, exclusive }, Want::Latch { page: other, .. }) => {
            exclusive && page == other
        }
        _ => false,
    }
}

/// Whether the page has no frame.
fn has_no_frame(vault: &Vault, page: u32) -> bool
    ensures { (s : State) → StandsFor vault.now s → result ≡ is_none (frame_of s page) }
{
    vault.core().frame_of(page).is_none()
}
