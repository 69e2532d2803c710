//! The whole program, over two writers.

ghost use Rattle.std.specs.Prelude.{◌≡◌, ◌≢◌, ◌≤◌, ◌⊎◌, IfErr, IfOk, IfSome, None, false, true, map, option_map};
ghost use Rattle.std.specs.IoError.{error_kind};
ghost use Rattle.pp_judge.specs.Answers.{seen};
ghost use Rattle.pp_words.specs.CommandLine.{asked};
ghost use Rattle.pp_words.specs.Faults.{asks_for_help};
ghost use Rattle.pp_cli.specs.Clashes.{writes_a_file};
ghost use Rattle.pp_cli.specs.Runs.{ComesOfWords, Explains, IsRun, IsWarnedOf};

use crate::bar::Bar;
use crate::clashing::{clash_of, misplaced};
use crate::fault::fault;
use crate::files::perform;
use crate::telling::tell;
use pp_judge::Exit;
use pp_words::{JobError, job};
use std::convert::AsStr;
use std::fs::File;
use std::io;
use std::io::{ErrorKind, Write};
use std::rt::Files;
use std::sync::Wait;
use std::thread::Threads;
use std::time::Clock;

/// Does what the words ask for, the program's name first, and answers the status. Where there is a terminal, it shows how
/// far a long job is.
///
/// 0: done. 1: refused; standard output has the one line `refused N NAME` with what it is about, and standard error
/// explains it. 2: the words are no command, can't be read, or would have a file overwritten that isn't to be lost; the
/// fault is on standard error. 3: a file can't be read or written, or standard output can't be written; standard error
/// names it and says why, but for a standard output that nobody reads any more. Or a device is in use. Or a run left a
/// plan or a flush undone, or its journal unwritten; standard output has its report then. 4: out of memory.
pub fn serve<
    R: Files<File = File> + AllocGlobal + Threads + Wait + Clock + Sync + Copy + Send + Drop,
    S: AsStr,
    O: Write,
    E: Write,
    P: Write + Send + Drop,
>(rt: &R, words: Result<&[S], &io::Error>, out: &mut O, err: &mut E, terminal: Option<P>) -> u8
    // There are no other statuses.
    ensures status { result ≤ 4 }
    // Words that ask for a job are a bad command line only where the job writes a file: two of them name it, or it has
    // something that isn't to be lost.
    ensures words { IfOk words.entry (λ words. result ≡ 2
        → IfSome (asked (map S.text words.now)) (λ command. writes_a_file command ≡ true)) }
    // Words that ask for no job are no refusal of files.
    ensures nothing { IfOk words.entry (λ words. asked (map S.text words.now) ≡ None → result ≢ 1) }
    // Words that ask for no job and no help are a bad command line, unless memory ran out.
    ensures mistake { IfOk words.entry (λ words. asked (map S.text words.now) ≡ None
        → asks_for_help (map S.text words.now) ≡ false → (result ≡ 2) ⊎ (result ≡ 4)) }
    // What the words ask for is done on some bytes as the contents of the files, and told: the status is that of what
    // is told in the end, an output has exactly its text more on standard output, and a complaint leaves standard output
    // as it was. Before a run standard error may have warnings of its plans and its device. Behind a refusal and behind what
    // texts come to it has nothing more, or a paragraph about one of the files that the words name, as far as it takes that;
    // behind a report what is told of the run beside it; behind another output it has nothing more.
    ensures run { IfOk words.entry (λ words.
        IsRun O.contents E.contents (map S.text words.now) result out.old out.new err.old err.new) }
    // Words that can't be read are a complaint: a bad command line, or want of memory where reading them failed by
    // that.
    ensures unread { IfErr words.entry (λ _. out.new ≡ out.old) }
    ensures wordless { IfErr words.entry (λ error. error_kind error.now ≢ ErrorKind.OutOfMemory → result ≡ 2) }
    ensures memory { IfErr words.entry (λ error. error_kind error.now ≡ ErrorKind.OutOfMemory → result ≡ 4) }
{
    match words {
        Ok(words) => serve_words(rt, words, out, err, &mut Bar::on(terminal)),
        Err(error) => tell(fault(error, Exit::Wordless), None, out, err)
            .exit
            .status(),
    }
}

/// As [`serve`], of words that were read, with a bar that shows how far a long job is.
fn serve_words<
    R: Files<File = File> + AllocGlobal + Threads + Wait + Clock + Sync + Copy + Send + Drop,
    S: AsStr,
    O: Write,
    E: Write,
    P: Write + Send,
>(rt: &R, words: &[S], out: &mut O, err: &mut E, bar: &mut Bar<P>) -> u8
    ensures status { result ≤ 4 }
    ensures words { result ≡ 2 → IfSome (asked (map S.text words.now)) (λ command. writes_a_file command ≡ true) }
    ensures nothing { asked (map S.text words.now) ≡ None → result ≢ 1 }
    ensures mistake { asked (map S.text words.now) ≡ None → asks_for_help (map S.text words.now) ≡ false
        → (result ≡ 2) ⊎ (result ≡ 4) }
    ensures run { IsRun O.contents E.contents (map S.text words.now) result out.old out.new err.old err.new }
{
    let mut note = None;
    let exit = exit_of_words(rt, words, err, bar, &mut note);
    tell(exit, note.as_deref(), out, err).exit.status()
}

/// What the words come to, the program's name first, before anything is told; and what stands on standard error behind it.
#[tactic(auto, using(crate::proofs::Beside::clash_quiet))]
fn exit_of_words<
    'a,
    R: Files<File = File> + AllocGlobal + Threads + Wait + Clock + Sync + Copy + Send + Drop,
    S: AsStr,
    E: Write,
    P: Write + Send,
>(rt: &R, words: &'a [S], err: &mut E, bar: &mut Bar<P>, note: &mut Option<Vec<u8>>) -> Exit<'a>
    requires { note.old ≡ None }
    ensures comes { ComesOfWords (map S.text words.entry.now) (seen result) }
    ensures explained { Explains (asked (map S.text words.entry.now)) (seen result)
        (option_map (λ text. text.items) note.new) }
    ensures warned { IsWarnedOf E.contents (asked (map S.text words.entry.now)) err.old err.new }
{
    match job(rt.alloc(), words) {
        Ok(job) => match clash_of(rt, &job) {
            Some(clash) => misplaced(rt.alloc(), clash),
            None => perform(rt, job, err, bar, note),
        },
        Err(JobError::Shown(text)) => Exit::Shown(text),
        Err(JobError::Words(text)) => Exit::Misused(text),
        Err(JobError::OutOfMemory) => Exit::OutOfMemory,
    }
}
