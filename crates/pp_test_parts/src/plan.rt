//! Tests of plans: each public call once, at its limits.

ghost use Rattle.pp_cursor.specs.Cursor.{IsCursorOf};

use crate::common::{is_printed, same, two_regions};
use pp_cursor::Cursor;
use pp_plan::{Action, Ask, Plan, PlanError, Stmt};
use std::alloc::Global;
use std::process::Abort;
use std::test::*;

/// Twice: fix a root, then nothing or go on to a leaf, unfix. Then three times two choices of one empty branch.
const WALK: &str = "\
{\"body\":[\
{\"body\":[{\"fix\":\"a\",\"region\":\"root\"},\
{\"choice\":[[],[{\"unfix\":\"a\"},{\"fix\":\"a\",\"region\":\"leaf\"}]]},\
{\"unfix\":\"a\"}],\"loop\":2},\
{\"body\":[{\"body\":[{\"choice\":[[]]}],\"loop\":2}],\"loop\":3}],\
\"version\":1}";

/// One turn after another: what is asked, and then an action, with whether it is followed.
fn walk(rt: &impl Abort, plan: &Plan, cursor: &mut Cursor, turns: &[(Ask, Action, bool)])
    requires { IsCursorOf plan.now cursor.old }
    ensures { IsCursorOf plan.now cursor.new }
{
    for (ask, action, is_followed) in turns {
        let asked = cursor.ask(plan);
        let is_ok = cursor.follow(plan, *action).is_ok();
        same(rt, (asked, is_ok), (*ask, *is_followed));
    }
}

#[test]
fn a_walk_is_followed(rt: HostRuntime) -> Result<(), Fail> {
    let settings = two_regions(rt.alloc(), 3)?;
    let plan = Plan::from_text(rt.alloc(), &settings, WALK)?;
    let mut cursor = Cursor::new(&plan);
    let root = Ask::Fix { slot: 0, region: 0 };
    let leaf = Ask::Fix { slot: 0, region: 1 };
    let two = Ask::Choose { branches: 2 };
    let one = Ask::Choose { branches: 1 };
    let unfix = Ask::Unfix { slot: 0 };
    let turns = [
        (root, Action::Fix { slot: 0, page: 3 }, true),
        (two, Action::Choose { branch: 2 }, false),
        (two, Action::Choose { branch: 0 }, true),
        (unfix, Action::Unfix { slot: 1 }, false),
        (unfix, Action::Unfix { slot: 0 }, true),
        (root, Action::Fix { slot: 0, page: 4 }, false),
        (root, Action::Fix { slot: 0, page: 0 }, true),
        (two, Action::Choose { branch: 1 }, true),
        (unfix, Action::Unfix { slot: 0 }, true),
        (leaf, Action::Fix { slot: 0, page: 15 }, false),
        (leaf, Action::Fix { slot: 0, page: 24 }, false),
        (leaf, Action::Fix { slot: 0, page: 23 }, true),
        (unfix, Action::Unfix { slot: 0 }, true),
        (one, Action::Unfix { slot: 0 }, false),
        (one, Action::Choose { branch: 0 }, true),
        (one, Action::Choose { branch: 0 }, true),
        (one, Action::Choose { branch: 0 }, true),
        (one, Action::Choose { branch: 0 }, true),
        (one, Action::Choose { branch: 0 }, true),
        (one, Action::Choose { branch: 1 }, false),
        (one, Action::Choose { branch: 0 }, true),
        (Ask::End, Action::Choose { branch: 0 }, false),
    ];
    walk(&rt, &plan, &mut cursor, &turns);
    let asked = cursor.ask(&plan);
    same(&rt, asked, Ask::End);
    Ok(())
}

/// A plan of 32 names, `s0` to `s31` in this order, each in an unfix.
fn many_names(alloc: Global) -> Result<String, Fail> {
    let mut text = String::from_str(alloc, "{\"body\":[")?;
    for i in 0..32u32 {
        if i > 0 {
            text.push(',')?;
        }
        text.push_str(format!(in alloc; "{{\"unfix\":\"s{i}\"}}")?.as_str())?;
    }
    text.push_str("],\"version\":1}")?;
    Ok(text)
}

#[test]
fn slots_have_the_byte_order_of_their_names(rt: HostRuntime) -> Result<(), Fail> {
    let settings = two_regions(rt.alloc(), 3)?;
    let text = many_names(rt.alloc())?;
    let plan = Plan::from_text(rt.alloc(), &settings, text.as_str())?;
    for (slot, name) in [
        (0u8, "s0"),
        (1, "s1"),
        (2, "s10"),
        (12, "s2"),
        (23, "s3"),
        (31, "s9"),
    ] {
        if slot < plan.slots() {
            same(&rt, plan.slot_name(slot), name);
        }
        same(&rt, plan.slot(name), Some(slot));
    }
    let last = match plan.body() {
        [.., Stmt::Unfix { slot }] => *slot,
        _ => 255,
    };
    same(&rt, (plan.slots(), plan.slot("s32"), last), (32, None, 25));
    let again = plan.to_text(rt.alloc(), &settings)?;
    same(&rt, again.as_str(), text.as_str());
    Ok(())
}

#[test]
fn bodies_and_branches_are_seen(rt: HostRuntime) -> Result<(), Fail> {
    let settings = two_regions(rt.alloc(), 3)?;
    let plan = Plan::from_text(rt.alloc(), &settings, WALK)?;
    let seen = match plan.body() {
        [Stmt::Loop { count, body }, _] => match body.stmts() {
            [_, Stmt::Choice { branches }, _] => (*count, branches.bodies().len()),
            _ => (0, 0),
        },
        _ => (0, 0),
    };
    let is_same = plan.layout() == settings.layout();
    same(&rt, (seen, is_same), ((2, 2), true));
    Ok(())
}

#[test]
fn refusals_have_rows_and_words(rt: HostRuntime) -> Result<(), Fail> {
    for (error, number, name, statement, words) in [
        (
            PlanError::NotJson,
            11u8,
            "NotJson",
            None,
            "the text is not JSON",
        ),
        (
            PlanError::NoSuchStatement(3),
            12,
            "NoSuchStatement",
            Some(3u32),
            "statement 3 is none of fix, unfix, latch, unlatch, loop and choice, nor gather or scatter in version 2",
        ),
        (
            PlanError::WrongField(0),
            13,
            "WrongField",
            Some(0),
            "statement 0 has a wrong key or value",
        ),
        (
            PlanError::BadName(1),
            14,
            "BadName",
            Some(1),
            "statement 1 has a slot name out of form",
        ),
        (
            PlanError::NoSuchRegion(2),
            15,
            "NoSuchRegion",
            Some(2),
            "statement 2 names a region that the settings don't have",
        ),
        (
            PlanError::Range(4),
            16,
            "Range",
            Some(4),
            "statement 4 is out of range",
        ),
        (
            PlanError::TooDeep(16),
            17,
            "TooDeep",
            Some(16),
            "statement 16 is nested too deep",
        ),
        (
            PlanError::TooMany(32),
            18,
            "TooMany",
            Some(32),
            "statement 32 is one too many, or its slot is",
        ),
        (
            PlanError::OutOfMemory,
            19,
            "OutOfMemory",
            None,
            "out of memory",
        ),
        (
            PlanError::MixedSlot(5),
            20,
            "MixedSlot",
            Some(5),
            "statement 5 uses one slot as a bundle and as a plain slot",
        ),
    ] {
        let got = (error.number(), error.name(), error.statement());
        same(&rt, got, (number, name, statement));
        is_printed(&rt, rt.alloc(), error, words)?;
    }
    Ok(())
}
