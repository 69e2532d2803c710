//! Certificates: how they are made, written, read and checked at their limits, and how refusals are told.

use crate::common::{is_printed, same, two_regions};
use pp_annotate::{AnnotateError, annotate, inserted};
use pp_cert::{
    CertError, Certificate, CheckError, Entry, Held, Note, check, fault_under, longest_trace,
};
use pp_plan::Plan;
use pp_settings::Settings;
use std::alloc::{AllocError, Global};
use std::process::Abort;
use std::test::*;

#[test]
fn faults_are_printed(rt: HostRuntime) -> Result<(), Fail> {
    let most = u32::MAX;
    for (fault, want) in [
        (CheckError::NotesShort { place: 0 }, "31 NotesShort at 0"),
        (CheckError::NotesLong { place: 9 }, "32 NotesLong at 9"),
        (CheckError::NoteDiffers { place: 8 }, "33 NoteDiffers at 8"),
        (CheckError::SlotInUse { place: 0 }, "34 SlotInUse at 0"),
        (CheckError::NotFixed { place: 8 }, "35 NotFixed at 8"),
        (
            CheckError::StillLatched { place: 7 },
            "36 StillLatched at 7",
        ),
        (CheckError::NotLatched { place: 8 }, "37 NotLatched at 8"),
        (
            CheckError::AgainstOrder { place: 3 },
            "38 AgainstOrder at 3",
        ),
        (CheckError::OverPeak { place: 3 }, "39 OverPeak at 3"),
        (CheckError::LoopChanges { place: 2 }, "40 LoopChanges at 2"),
        (
            CheckError::BranchDiffers { place: 3 },
            "41 BranchDiffers at 3",
        ),
        (
            CheckError::EndsHolding { place: most },
            "42 EndsHolding at 4294967295",
        ),
        (CheckError::StepsTooFew, "43 StepsTooFew"),
        (CheckError::StepsTooMany, "44 StepsTooMany"),
        (CheckError::PeakTooBig, "45 PeakTooBig"),
        (CheckError::OtherSettings, "46 OtherSettings"),
    ] {
        is_printed(&rt, rt.alloc(), fault.refusal(), want)?;
        let made = AnnotateError::Fault(fault);
        is_printed(&rt, rt.alloc(), made.refusal(), want)?;
    }
    Ok(())
}

#[test]
fn refusals_of_texts_are_printed(rt: HostRuntime) -> Result<(), Fail> {
    for (error, want) in [
        (CertError::NotJson, "21 NotJson"),
        (CertError::WrongField, "22 WrongField"),
        (CertError::UnknownName, "23 UnknownName"),
        (CertError::TooMany, "24 TooMany"),
        (CertError::WrongKind, "25 WrongKind"),
        (CertError::OutOfMemory, "19 OutOfMemory"),
    ] {
        is_printed(&rt, rt.alloc(), error.refusal(), want)?;
    }
    let refusal = AnnotateError::OutOfMemory.refusal();
    is_printed(&rt, rt.alloc(), refusal, "19 OutOfMemory")
}

#[test]
fn refusals_are_told_to_people(rt: HostRuntime) -> Result<(), Fail> {
    let fault = CheckError::OverPeak { place: 3 };
    let want = "the note at place 3 pins more pages than the peak";
    is_printed(&rt, rt.alloc(), fault, want)?;
    is_printed(&rt, rt.alloc(), AnnotateError::Fault(fault), want)?;
    is_printed(
        &rt,
        rt.alloc(),
        CertError::TooMany,
        "the certificate has too many notes, or a note has too many entries",
    )
}

#[test]
fn refusals_have_their_parts(rt: HostRuntime) {
    let fault = CheckError::LoopChanges { place: 2 };
    let made = AnnotateError::Fault(fault);
    same(&rt, (fault.number(), fault.name()), (40, "LoopChanges"));
    same(&rt, fault.place(), Some(2));
    same(&rt, (made.number(), made.name()), (40, "LoopChanges"));
    same(&rt, made.place(), Some(2));
    let error = CertError::UnknownName;
    same(&rt, (error.number(), error.name()), (23, "UnknownName"));
}

#[test]
fn a_note_gives_its_entries_back(rt: HostRuntime) -> Result<(), Fail> {
    let entries = [
        Entry::Slot {
            slot: 0,
            region: 1,
            held: Held::S,
        },
        Entry::Slot {
            slot: 31,
            region: 63,
            held: Held::Free,
        },
    ];
    let note = Note::new(entries.to_vec(rt.alloc())?);
    same(&rt, note.entries(), entries.as_slice());
    let back = note.into_entries();
    same(&rt, back.as_slice(), entries.as_slice());
    Ok(())
}

/// A certificate of three notes, the first of which is empty.
fn three_notes(alloc: Global, second: Entry, third: &[Entry]) -> Result<Certificate, Fail> {
    let mut notes = Vec::new(alloc);
    notes.push(Note::new(Vec::new(alloc)))?;
    notes.push(Note::new([second].to_vec(alloc)?))?;
    notes.push(Note::new(third.to_vec(alloc)?))?;
    Ok(Certificate {
        peak: 9,
        steps: 9,
        notes,
    })
}

/// The number and the place of the fault: 0 where there is none, and 9 where it has no place.
fn told_of(fault: Option<CheckError>) -> (u8, u32) {
    match fault {
        Some(fault) => (fault.number(), fault.place().unwrap_or(9)),
        None => (0, 9),
    }
}

#[test]
fn a_bundle_is_no_expected_note(rt: HostRuntime) -> Result<(), Fail> {
    let alloc = rt.alloc();
    let settings = two_regions(alloc, 9)?;
    let text = "{\"body\":[{\"fix\":\"a\",\"region\":\"leaf\"},{\"unfix\":\"a\"}],\"version\":1}";
    let plan = Plan::from_text(alloc, &settings, text)?;
    let page = Entry::Slot {
        slot: 0,
        region: 1,
        held: Held::Free,
    };
    let bundle = Entry::Bundle { slot: 0, bound: 1 };
    for (second, third, number, place) in [
        (bundle, [bundle].as_slice(), 33, 1),
        (page, [bundle].as_slice(), 33, 2),
        (page, [].as_slice(), 0, 9),
    ] {
        let certificate = three_notes(alloc, second, third)?;
        let fault = fault_under(&settings.layout(), &plan, &certificate);
        same(&rt, told_of(fault), (number, place));
    }
    Ok(())
}

#[test]
fn a_refused_plan_comes_back(rt: HostRuntime) -> Result<(), Fail> {
    let settings = two_regions(rt.alloc(), 3)?;
    let others = two_regions(rt.alloc(), 2)?;
    let text = "{\"body\":[{\"unfix\":\"a\"}],\"version\":1}";
    let plan = Plan::from_text(rt.alloc(), &settings, text)?;
    let certificate = Certificate {
        peak: 0,
        steps: 0,
        notes: Vec::new(rt.alloc()),
    };
    let Err((plan, fault)) = check(&others, plan, &certificate) else {
        panic!(rt; "not refused")
    };
    same(&rt, (fault.number(), plan.body().len()), (46, 1));
    same(&rt, longest_trace(&plan), 1);
    let own = fault_under(&settings.layout(), &plan, &certificate);
    same(&rt, told_of(own).0, 31);
    let Err(error) = annotate(rt.alloc(), &others, &plan) else {
        panic!(rt; "annotated")
    };
    same(&rt, error.number(), 46);
    Ok(())
}

/// A bundle that a loop makes larger, up to six pages, beside a root.
const BUNDLE: &str = "{\"body\":[{\"fix\":\"a\",\"region\":\"root\"},\
{\"body\":[{\"gather\":\"g\",\"region\":\"leaf\"},{\"gather\":\"g\",\"region\":\"leaf\"}],\"loop\":3},\
{\"scatter\":\"g\"},{\"unfix\":\"a\"}],\"version\":2}";

/// A plan with a bundle, and its certificate, are checked under the settings for which the plan was read, and refused under
/// others, with fewer frames or with more. Then the plan comes back, and is accepted under its own.
#[test]
fn a_bundle_is_checked_under_its_own_settings(rt: HostRuntime) -> Result<(), Fail> {
    let alloc = rt.alloc();
    let settings = two_regions(alloc, 7)?;
    let mut plan = Plan::from_text(alloc, &settings, BUNDLE)?;
    let certificate = annotate(alloc, &settings, &plan)?;
    for frames in [6, 8] {
        let others = two_regions(alloc, frames)?;
        match check(&others, plan, &certificate) {
            Ok(_) => panic!(rt; "accepted for {frames} frames"),
            Err((back, fault)) => {
                same(&rt, told_of(Some(fault)), (46, 9));
                plan = back;
            }
        }
        let made = annotate(alloc, &others, &plan);
        same(&rt, made.err().map_or(0, |error| error.number()), 46);
    }
    match check(&settings, plan, &certificate) {
        Ok(accepted) => same(&rt, (accepted.peak(), accepted.steps()), (7, 9)),
        Err((_plan, fault)) => panic!(rt; "refused: {fault}"),
    }
    Ok(())
}

/// Writes the piece so many times.
fn repeat(text: &mut String, piece: &str, count: u32) -> Result<(), AllocError> {
    for _ in 0..count {
        text.push_str(piece)?;
    }
    Ok(())
}

/// A plan of 4,096 statements that holds 32 slots for nearly all of them.
fn greatest_plan(alloc: Global) -> Result<String, Fail> {
    let mut text = String::from_str(alloc, "{\"body\":[{\"fix\":\"s0\",\"region\":\"root\"}")?;
    for i in 1u8..32 {
        let fix = format!(in alloc; ",{{\"fix\":\"s{i}\",\"region\":\"leaf\"}}")?;
        text.push_str(&fix)?;
    }
    repeat(
        &mut text,
        ",{\"latch\":\"s0\",\"mode\":\"X\"},{\"unlatch\":\"s0\"}",
        2016,
    )?;
    for i in 0u8..32 {
        let unfix = format!(in alloc; ",{{\"unfix\":\"s{i}\"}}")?;
        text.push_str(&unfix)?;
    }
    text.push_str("],\"version\":1}")?;
    Ok(text)
}

/// Makes the plan's certificate, writes it, reads it back and writes it again; gives what was read.
fn made_again(
    rt: &impl Abort,
    alloc: Global,
    settings: &Settings,
    plan: &Plan,
) -> Result<Certificate, Fail> {
    let text = annotate(alloc, settings, plan)?.to_text(alloc, settings, plan)?;
    assert!(rt; text.len() > 2_000_000);
    let certificate = Certificate::from_text(alloc, settings, plan, &text)?;
    let again = certificate.to_text(alloc, settings, plan)?;
    same(rt, again.as_str(), text.as_str());
    Ok(certificate)
}

#[test]
fn the_greatest_plan_is_annotated_and_checked(rt: HostRuntime) -> Result<(), Fail> {
    let settings = two_regions(rt.alloc(), 32)?;
    let plan = Plan::from_text(rt.alloc(), &settings, &greatest_plan(rt.alloc())?)?;
    let certificate = made_again(&rt, rt.alloc(), &settings, &plan)?;
    let Ok(accepted) = check(&settings, plan, &certificate) else {
        panic!(rt; "not accepted")
    };
    let figures = (accepted.peak(), accepted.steps(), accepted.cost());
    same(&rt, figures, (32, 4096, 12_322));
    same(&rt, accepted.layout().frames(), 32);
    same(&rt, accepted.plan().body().len(), 4096);
    Ok(())
}

/// A plan of 4,096 fixes of one slot.
fn fixes_of_one_slot(alloc: Global) -> Result<String, Fail> {
    let mut text = String::from_str(alloc, "{\"body\":[{\"fix\":\"a\",\"region\":\"leaf\"}")?;
    repeat(&mut text, ",{\"fix\":\"a\",\"region\":\"leaf\"}", 4095)?;
    text.push_str("],\"version\":1}")?;
    Ok(text)
}

#[test]
fn a_slot_is_noted_once(rt: HostRuntime) -> Result<(), Fail> {
    let settings = two_regions(rt.alloc(), 3)?;
    let plan = Plan::from_text(rt.alloc(), &settings, &fixes_of_one_slot(rt.alloc())?)?;
    let Err(error) = annotate(rt.alloc(), &settings, &plan) else {
        panic!(rt; "annotated")
    };
    same(&rt, (error.number(), error.place()), (34, Some(1)));
    let page = Entry::Slot {
        slot: 0,
        region: 1,
        held: Held::Free,
    };
    let once = inserted(rt.alloc(), &[], page)?;
    let again = inserted(rt.alloc(), &once, page)?;
    same(&rt, again.as_slice(), [page].as_slice());
    Ok(())
}

/// A loop of 5,000 turns that gather two pages or three.
const UNEVEN: &str = "{\"body\":[{\"body\":[{\"gather\":\"b\",\"region\":\"leaf\"},{\"choice\":[\
    [{\"gather\":\"b\",\"region\":\"leaf\"}],\
    [{\"gather\":\"b\",\"region\":\"leaf\"},{\"gather\":\"b\",\"region\":\"leaf\"}]]}],\
    \"loop\":5000},{\"scatter\":\"b\"}],\"version\":2}";

/// A certificate of it with the bounds of a first turn.
const UNEVEN_NOTES: &str =
    "{\"notes\":[{},{},{\"b\":1},{\"b\":1},{\"b\":2},{\"b\":1},{\"b\":2},{\"b\":3},\
    {\"b\":2},{\"b\":2},{}],\"peak\":3,\"steps\":20001}";

#[test]
fn bounds_that_are_too_large_are_alike(rt: HostRuntime) -> Result<(), Fail> {
    let settings = two_regions(rt.alloc(), 3)?;
    let plan = Plan::from_text(rt.alloc(), &settings, UNEVEN)?;
    let Err(error) = annotate(rt.alloc(), &settings, &plan) else {
        panic!(rt; "annotated")
    };
    same(&rt, (error.number(), error.place()), (45, None));
    let certificate = Certificate::from_text(rt.alloc(), &settings, &plan, UNEVEN_NOTES)?;
    let fault = fault_under(&settings.layout(), &plan, &certificate);
    same(&rt, told_of(fault), (41, 7));
    Ok(())
}

/// What a program would say of a certificate with so many empty notes and then the last one, under the empty plan.
fn answer(alloc: Global, settings: &Settings, count: u32, last: &str) -> Result<u8, Fail> {
    let plan = Plan::from_text(alloc, settings, "{\"body\":[],\"version\":1}")?;
    let mut text = String::from_str(alloc, "{\"notes\":[{}")?;
    repeat(&mut text, ",{}", count)?;
    text.push_str(last)?;
    text.push_str("],\"peak\":0,\"steps\":0}")?;
    match Certificate::from_text(alloc, settings, &plan, &text) {
        Ok(_) => Ok(0),
        Err(error) => Ok(error.number()),
    }
}

#[test]
fn notes_have_their_limit(rt: HostRuntime) -> Result<(), Fail> {
    let settings = two_regions(rt.alloc(), 3)?;
    for (count, last, want) in [
        (69_999u32, "", 0u8),
        (70_000, "", 24),
        (69_999, ",0", 24),
        (69_998, ",0", 22),
    ] {
        let got = answer(rt.alloc(), &settings, count, last)?;
        same(&rt, (count, got), (count, want));
    }
    Ok(())
}
