//! Two of several guards of pages that are latched X, whose bodies are changed together.

ghost use Rattle.std.specs.Prelude.{◌≡◌, ◌<◌, ◌≤◌, vec_len, vec_capacity};
ghost use Rattle.std.specs.List.{insert};
ghost use Rattle.pp_pool.specs.Together.{ChangesAt, ChangesBoth};

use pp_vault::WriteGuard;

/// Changes the bodies of the guards at two places, of which the first comes before the second.
pub(crate) fn change_rising<R, F: FnOnce(&mut [u8], &mut [u8]) -> R>(
    guards: &mut Vec<WriteGuard>,
    first: usize,
    second: usize,
    change: F,
) -> R
    requires order { first < second }
    requires there { second < vec_len guards.old }
    requires callable { F.IsAlwaysCallable change }
    ensures changed { ChangesAt F.FnOnce change first second guards.old.items result guards.new.items }
    ensures capacity { vec_capacity guards.new ≡ vec_capacity guards.old }
{
    let mut other = guards.remove(second);
    let one = &mut guards[first];
    let answer = change_bodies(one, &mut other, change);
    put_at(guards, second, other);
    answer
}

/// The same, where the first comes behind the second.
pub(crate) fn change_falling<R, F: FnOnce(&mut [u8], &mut [u8]) -> R>(
    guards: &mut Vec<WriteGuard>,
    first: usize,
    second: usize,
    change: F,
) -> R
    requires order { second < first }
    requires there { first < vec_len guards.old }
    requires callable { F.IsAlwaysCallable change }
    ensures changed { ChangesAt F.FnOnce change first second guards.old.items result guards.new.items }
    ensures capacity { vec_capacity guards.new ≡ vec_capacity guards.old }
{
    let mut one = guards.remove(first);
    let other = &mut guards[second];
    let answer = change_bodies(&mut one, other, change);
    put_at(guards, first, one);
    answer
}

/// Changes the bodies of two guards.
fn change_bodies<R, F: FnOnce(&mut [u8], &mut [u8]) -> R>(
    one: &mut WriteGuard,
    other: &mut WriteGuard,
    change: F,
) -> R
    requires { F.IsAlwaysCallable change }
    ensures { ChangesBoth F.FnOnce change one.old other.old result one.new other.new }
{
    change(one.body_mut(), other.body_mut())
}

/// Puts the guard at this place, for which there is room.
fn put_at(guards: &mut Vec<WriteGuard>, place: usize, guard: WriteGuard)
    requires place { place ≤ vec_len guards.old }
    requires room { vec_len guards.old < vec_capacity guards.old }
    ensures items { guards.new.items ≡ insert guards.old.items place guard }
    ensures capacity { vec_capacity guards.new ≡ vec_capacity guards.old }
{
    match guards.insert(place, guard) {
        Ok(()) => {}
        Err(_) => unreachable!(),
    }
}
