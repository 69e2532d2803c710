//! How a run of the program ends: the status, and the text.

ghost use Rattle.std.specs.Prelude.{◌≡◌, Some};
ghost use Rattle.pp_judge.specs.Answers.{figures_of, is_output_of, refused_by, seen, status_of};
ghost use Rattle.pp_judge.specs.Lines.{fault_text, figures_line, text_of};

use crate::error::JudgeError;
use pp_cert::Accepted;
use pp_segments::AuditedSegments;
use pp_shown::ShownPath;
use std::fmt;

/// What a run comes to: what is told of it, where, and the status.
#[derive(Debug, Drop)]
pub enum Exit<'a> {
    /// The certificate is accepted, with these figures.
    Done(Figures),
    /// The text of the certificate that was made, without a line feed.
    Made(String),
    /// The lines of a script that was played, each with its line feed.
    Simulated(String),
    /// A device with so many pages is written anew.
    Formatted(u32),
    /// Plans were run over a device: the report.
    Ran(RunReport),
    /// A run gives no report, since the pool doesn't take a plan in or a worker came to no good end: the line that says so,
    /// which ends with a line feed.
    Stopped(String),
    /// A journal with so many lines is a true one.
    Audited(u64),
    /// Segments with so many lines, and so many of them, are those of a true journal.
    AuditedSegments(AuditedSegments),
    /// The picture of a true journal, which ends with a line feed.
    Drawn(String),
    /// The help or the version, which ends with a line feed.
    Shown(String),
    /// A file is refused, or the certificate.
    Refused(JudgeError),
    /// The words are no command: the fault's text, which ends with a line feed.
    Misused(String),
    /// The words of the command line can't be read.
    Wordless,
    /// A text was written to the file that the command names for it, and nothing is printed.
    Kept,
    /// The device at this path is in use by another run.
    InUse(&'a str),
    /// A file can't be read.
    Unread(FileFault<'a>),
    /// A file can't be written.
    Unwritten(FileFault<'a>),
    /// Memory ran out.
    OutOfMemory,
}

/// A file that can't be read or written.
#[derive(Clone, Copy, Debug, PartialEq, Eq)]
pub struct FileFault<'a> {
    /// Its path, as it was given; `-` is standard output.
    pub path: &'a str,
    /// Why, in the system's words, as in `No such file or directory`.
    pub cause: &'static str,
}

/// The path as it is shown, and why, as in `plan.json: No such file or directory`.
impl fmt::Display for FileFault<'_> {
    ghost output = { λ fault. Some (fault_text fault.path.now fault.cause.now) };

    fn fmt<W: fmt::Write>(&self, f: &mut fmt::Formatter<W>) -> fmt::Result {
        let path = ShownPath(self.path);
        write!(f, "{path}: {}", self.cause)
    }
}

/// What is told of plans that were run.
#[derive(Debug, Drop)]
pub struct RunReport {
    /// The report, each line with its line feed.
    pub text: String,
    /// Whether every plan was done and every flush written, and the journal kept where one is wanted.
    pub is_well: bool,
}

/// What is printed of an accepted plan.
#[derive(Clone, Copy, Debug, PartialEq, Eq)]
pub struct Figures {
    /// A bound on the slots held at once, as the certificate declares it.
    pub peak: u64,
    /// A bound on the actions of a trace, as the certificate declares it.
    pub steps: u64,
    /// The most events that a journal needs for the plan once it is submitted: three for each step, and 34 more.
    pub cost: u64,
}

impl Figures {
    /// The figures of an accepted plan.
    pub fn of(accepted: &Accepted) -> Figures
        ensures { result ≡ figures_of accepted.now }
    {
        Figures {
            peak: accepted.peak(),
            steps: accepted.steps(),
            cost: accepted.cost(),
        }
    }
}

/// As in `accepted peak 2 steps 8 cost 58`.
impl fmt::Display for Figures {
    ghost output = { λ figures. Some (figures_line figures) };

    fn fmt<W: fmt::Write>(&self, f: &mut fmt::Formatter<W>) -> fmt::Result {
        let Figures { peak, steps, cost } = *self;
        write!(f, "accepted peak {peak} steps {steps} cost {cost}")
    }
}

impl Exit<'_> {
    /// The status of a program that ends so.
    pub fn status(&self) -> u8
        ensures { result ≡ status_of (seen self.now) }
    {
        match self {
            Exit::Done(_)
            | Exit::Made(_)
            | Exit::Simulated(_)
            | Exit::Formatted(_)
            | Exit::Audited(_)
            | Exit::AuditedSegments(_)
            | Exit::Drawn(_)
            | Exit::Shown(_)
            | Exit::Kept => 0,
            Exit::Ran(report) if report.is_well => 0,
            Exit::Refused(_) | Exit::Stopped(_) => 1,
            Exit::Misused(_) | Exit::Wordless => 2,
            Exit::Ran(_) | Exit::InUse(_) | Exit::Unread(_) | Exit::Unwritten(_) => 3,
            Exit::OutOfMemory => 4,
        }
    }

    /// Whether what there is to say goes to standard output; else it goes to standard error.
    pub fn is_output(&self) -> bool
        ensures { result ≡ is_output_of (seen self.now) }
    {
        match self {
            Exit::Done(_)
            | Exit::Made(_)
            | Exit::Simulated(_)
            | Exit::Formatted(_)
            | Exit::Ran(_)
            | Exit::Stopped(_)
            | Exit::Audited(_)
            | Exit::AuditedSegments(_)
            | Exit::Drawn(_)
            | Exit::Shown(_)
            | Exit::Kept
            | Exit::Refused(_) => true,
            Exit::Misused(_)
            | Exit::Wordless
            | Exit::InUse(_)
            | Exit::Unread(_)
            | Exit::Unwritten(_)
            | Exit::OutOfMemory => false,
        }
    }
}

/// What is printed, ended by a line feed; a script's lines have one each.
impl fmt::Display for Exit<'_> {
    ghost output = { λ exit. Some (text_of (seen exit)) };

    fn fmt<W: fmt::Write>(&self, f: &mut fmt::Formatter<W>) -> fmt::Result {
        match self {
            Exit::Done(figures) => writeln!(f, "{figures}"),
            Exit::Made(text) => writeln!(f, "{text}"),
            Exit::Formatted(pages) => writeln!(f, "formatted {pages} pages"),
            Exit::Ran(report) => f.write_str(report.text.as_str()),
            Exit::Audited(lines) => writeln!(f, "audited {lines} lines"),
            Exit::AuditedSegments(AuditedSegments { lines, segments }) => writeln!(
                f,
                "audited {lines} lines in {segments} segments"
            ),
            Exit::Refused(refusal) => writeln!(f, "{refusal}"),
            Exit::Simulated(text)
            | Exit::Stopped(text)
            | Exit::Drawn(text)
            | Exit::Shown(text)
            | Exit::Misused(text) => f.write_str(text.as_str()),
            Exit::Wordless => f.write_str("error: the words can't be read\n"),
            Exit::Kept => f.write_str(""),
            Exit::InUse(path) => {
                let path = ShownPath(path);
                writeln!(f, "{path} is in use")
            }
            Exit::Unread(fault) => writeln!(f, "fault reading {fault}"),
            Exit::Unwritten(fault) => writeln!(f, "fault writing {fault}"),
            Exit::OutOfMemory => f.write_str("out of memory\n"),
        }
    }
}

/// Want of memory is an exit of its own.
impl From<JudgeError> for Exit<'_> {
    ghost from_gives = { λ refusal exit. exit ≡ refused_by refusal };

    fn from(refusal: JudgeError) -> Self {
        if refusal.is_want_of_memory() {
            Exit::OutOfMemory
        } else {
            Exit::Refused(refusal)
        }
    }
}
