//! What is done with those that wait, in the order in which they came.

ghost use Rattle.std.specs.Prelude.{◌≡◌, ◌<◌, map, None, IfSome};
ghost use Rattle.pp_admission.specs.Queues.{next_among, holder, marked, overtaken_by, awakened, any_asleep};
ghost use Rattle.pp_admission.specs.Places.{IsPlaceOf, AreOvertakenBelow};

use crate::Waiting;

/// The number of the ticket of the one that may start while so many pages are free.
pub(crate) fn next_of(line: &[Waiting], bypass: u32, room: u64) -> Option<u64>
    ensures { result ≡ next_among bypass room line.now }
{
    for one in line {
        if one.peak <= room {
            return Some(one.ticket);
        }
        if one.overtaken >= bypass {
            return None;
        }
    }
    None
}

/// The one that has this ticket.
pub(crate) fn holder(line: &[Waiting], ticket: u64) -> Option<Waiting>
    ensures { result ≡ holder ticket line.now }
{
    match place_of(line, ticket) {
        Some(place) => Some(line[place]),
        None => None,
    }
}

/// The place of the one that has this ticket.
pub(crate) fn place_of(line: &[Waiting], ticket: u64) -> Option<usize>
    ensures some { IfSome result (λ place. IsPlaceOf ticket line.now place) }
    ensures none { result ≡ None → holder ticket line.now ≡ None }
{
    for (place, one) in line.iter().enumerate() {
        if one.ticket == ticket {
            return Some(place);
        }
    }
    None
}

/// The same, but overtaken once more if it came before this ticket.
fn overtaken_by(one: Waiting, ticket: u64) -> Waiting
    requires { one.ticket < ticket → one.overtaken < 4294967295 }
    ensures { result ≡ overtaken_by ticket one }
{
    if one.ticket < ticket {
        Waiting {
            overtaken: one.overtaken + 1,
            ..one
        }
    } else {
        one
    }
}

/// Each one that came before this ticket is overtaken once more.
pub(crate) fn overtake(line: &mut [Waiting], ticket: u64)
    requires { AreOvertakenBelow 4294967295 ticket line.old }
    ensures { line.new ≡ map (overtaken_by ticket) line.old }
{
    for one in line {
        *one = overtaken_by(*one, ticket);
    }
}

/// The same, but asleep or awake as told if it has this ticket.
fn marked(one: Waiting, ticket: u64, is_asleep: bool) -> Waiting
    ensures { result ≡ marked ticket is_asleep one }
{
    if one.ticket == ticket {
        Waiting { is_asleep, ..one }
    } else {
        one
    }
}

/// Marks the one that has this ticket as asleep or awake.
pub(crate) fn mark(line: &mut [Waiting], ticket: u64, is_asleep: bool)
    ensures { line.new ≡ map (marked ticket is_asleep) line.old }
{
    for one in line {
        *one = marked(*one, ticket, is_asleep);
    }
}

/// Wakes everybody, and tells whether somebody was asleep.
pub(crate) fn wake(line: &mut [Waiting]) -> bool
    ensures woken { line.new ≡ map awakened line.old }
    ensures some { result ≡ any_asleep line.old }
{
    let mut some = false;
    for one in line {
        some |= one.is_asleep;
        one.is_asleep = false;
    }
    some
}
