//! Numbers slots by the byte order of their names.

ghost use Rattle.std.specs.Prelude.{◌≡◌, ◌≤◌, ◌<◌, IfOk, false, length, map, string_bytes, ℕ, slice_index_or};
ghost use Rattle.pp_plan.specs.Numbering.{in_byte_order, place_in, numbered, numbered_statement, numbered_branches};
ghost use Rattle.pp_plan.specs.View.{statement_of};

use crate::limits::MOST_SLOTS;
use crate::progress::{is_marked, position_of};
use crate::stmt::{Body, Branches, Stmt};
use std::alloc::AllocError;

/// The names in byte order.
pub(crate) fn in_byte_order(names: &Vec<String>) -> Result<Vec<String>, AllocError>
    ensures names { IfOk result (λ v. map string_bytes v.items ≡ in_byte_order (map string_bytes names.now.items)) }
    ensures count { IfOk result (λ v. length v.items ≡ length names.now.items) }
{
    let mut ordered = names.clone()?;
    ordered.sort_unstable();
    Ok(ordered)
}

/// For each slot by first use, its number in byte order.
pub(crate) fn new_numbers(ordered: &[String], names: &[String]) -> [u8; MOST_SLOTS]
    requires ordered { length ordered.now ≤ MOST_SLOTS }
    requires names { length names.now ≤ MOST_SLOTS }
    ensures { (k : ℕ) → slice_index_or result k 0
        ≡ place_in (map string_bytes ordered.now) (map string_bytes names.now) k }
{
    let mut numbers = [0; MOST_SLOTS];
    for slot in 0..names.len() {
        numbers[slot] = position_of(ordered, names[slot].as_str()).unwrap_or(0);
    }
    numbers
}

/// The new number of a slot.
fn new_number(numbers: &[u8; MOST_SLOTS], slot: u8) -> u8
    ensures { result ≡ slice_index_or numbers.now slot 0 }
{
    match numbers.get(usize::from(slot)) {
        Some(number) => *number,
        None => 0,
    }
}

/// For each of so many slots by its new number, whether it is a bundle; `old` has the number by which the table knows it.
pub(crate) fn new_bundles(
    bundles: &[bool; MOST_SLOTS],
    old: &[u8; MOST_SLOTS],
    count: usize,
) -> [bool; MOST_SLOTS]
    requires { count ≤ MOST_SLOTS }
    ensures slots { (k : ℕ) → k < count → slice_index_or result k false
        ≡ slice_index_or bundles.now (slice_index_or old.now k 0) false }
    ensures past { (k : ℕ) → count ≤ k → slice_index_or result k false ≡ false }
{
    let mut table = [false; MOST_SLOTS];
    for slot in 0..count {
        table[slot] = is_marked(bundles, old[slot]);
    }
    table
}

/// Gives each slot of the body its new number.
#[cycle(numbering)]
pub(crate) fn renumber(body: &mut Body, numbers: &[u8; MOST_SLOTS])
    ensures { body.new ≡ numbered (λ k. slice_index_or numbers.now k 0) body.old }
{
    let stmts = &mut body.stmts;
    for i in 0..stmts.len() {
        renumber_statement(&mut stmts[i], numbers);
    }
}

/// The same for the slot of a step, or for the bodies inside the statement.
#[cycle(numbering)]
fn renumber_statement(stmt: &mut Stmt, numbers: &[u8; MOST_SLOTS])
    ensures { statement_of stmt.new ≡ numbered_statement (λ k. slice_index_or numbers.now k 0) (statement_of stmt.old) }
{
    match stmt {
        Stmt::Fix { slot, .. } => *slot = new_number(numbers, *slot),
        Stmt::Unfix { slot } => *slot = new_number(numbers, *slot),
        Stmt::Latch { slot, .. } => *slot = new_number(numbers, *slot),
        Stmt::Unlatch { slot } => *slot = new_number(numbers, *slot),
        Stmt::Gather { slot, .. } => *slot = new_number(numbers, *slot),
        Stmt::Scatter { slot } => *slot = new_number(numbers, *slot),
        Stmt::Loop { body, .. } => renumber(body, numbers),
        Stmt::Choice { branches } => renumber_branches(branches, numbers),
    }
}

/// The same for each branch.
#[cycle(numbering)]
fn renumber_branches(branches: &mut Branches, numbers: &[u8; MOST_SLOTS])
    ensures { branches.new ≡ numbered_branches (λ k. slice_index_or numbers.now k 0) branches.old }
{
    let bodies = &mut branches.bodies;
    for i in 0..bodies.len() {
        renumber(&mut bodies[i], numbers);
    }
}
