//! A row: what is asked, and of which texts.

use crate::section::Section;
use pp_explain::Source;
use pp_judge::{
    AnnotateFiles, AuditFiles, CheckFiles, Contents, DrawFiles, SegmentsFiles, SimulateFiles,
};
use pp_text::small_number;
use std::alloc::{AllocError, Global};
use std::rt::Files;
use std::{fs, io};

/// What is asked of the texts.
#[derive(Clone, Copy, Debug, PartialEq, Eq)]
pub enum Question {
    /// Which settings the text spells.
    Settings,
    /// Which plan the second text spells under the settings of the first.
    Plan,
    /// Which script the text spells.
    Script,
    /// The file of a device that is written anew under the settings.
    Format,
    /// Whether the third text is a certificate of the plan.
    Check,
    /// The least certificate of the plan.
    Annotate,
    /// What playing the script of the second text comes to, over a pool with the plans of those behind it.
    Simulate,
    /// Whether the second text is a true journal of a pool with the plans of those behind it.
    Audit,
    /// Whether the second text is the true journals of a pool's lives with the plans of those behind it.
    AuditLives,
    /// Whether the texts behind `--` are the segments of an endless pool's journal with the plans before it.
    Segments,
    /// The same, where nothing may be left to do at their end.
    EndedSegments,
    /// The picture of the journal of the second text.
    Draw,
    /// What is said of a run that stops since the log of the worker of the last text is another one.
    Mismatch,
    /// The same where the worker met a slip.
    Broken,
    /// The same where the worker's thread wasn't started.
    NoThread,
    /// The warning of a key that stands twice in the last text.
    Repeated,
    /// None of these.
    Unknown,
}

/// A question with its texts.
#[derive(Drop)]
pub struct Row<'a> {
    /// The question.
    pub question: Question,
    /// The names of the files; `-` is a text that stands in the row.
    pub names: Vec<&'a str>,
    /// Their bytes.
    pub texts: Vec<Vec<u8>>,
    /// How many of them stand before a word `--`; 0 where there is none.
    pub before: usize,
}

impl<'a> Row<'a> {
    /// The row that the line spells.
    pub fn read<R: Files + AllocGlobal>(
        rt: &R,
        section: Section,
        line: &'a str,
    ) -> io::Result<Row<'a>> {
        let (words, text) = match line.split_once(" = ") {
            Some((words, text)) => (words, Some(text)),
            None => (line, None),
        };
        let (question, files) = asked(section, words);
        let mut row = Row {
            question,
            names: Vec::new(rt.alloc()),
            texts: Vec::new(rt.alloc()),
            before: 0,
        };
        for name in files.split(" ") {
            if name == "--" {
                row.before = row.texts.len();
            } else if !name.is_empty() {
                row.read_file(rt, section.folder(), name)?;
            }
        }
        if let Some(text) = text {
            row.add("-", text.as_bytes().to_vec(rt.alloc())?)?;
        }
        Ok(row)
    }

    /// Adds a file of the folder. Behind its name `*3` says that it stands three times.
    fn read_file<R: Files + AllocGlobal>(
        &mut self,
        rt: &R,
        folder: &str,
        name: &'a str,
    ) -> io::Result<()> {
        let (name, times) = name.split_once("*").unwrap_or((name, "1"));
        let path = format!(in rt.alloc(); "{folder}/{name}")?;
        let bytes = fs::read(rt, path.as_str())?;
        for _ in 1..small_number(times).unwrap_or(1) {
            self.add(name, bytes.clone()?)?;
        }
        self.add(name, bytes)?;
        Ok(())
    }

    /// Adds a text.
    fn add(&mut self, name: &'a str, bytes: Vec<u8>) -> Result<(), AllocError> {
        self.names.push(name)?;
        self.texts.push(bytes)?;
        Ok(())
    }

    /// The texts with their names.
    pub fn sources(&self, alloc: Global) -> Result<Vec<Source<'_>>, AllocError> {
        let mut sources = Vec::new(alloc);
        for (path, bytes) in self.names.iter().zip(self.texts.iter()) {
            sources.push(Source { path, bytes })?;
        }
        Ok(sources)
    }

    /// The command with its texts, where the question is one that the program has.
    pub fn contents(&self) -> Option<Contents<'_>> {
        match (self.question, self.texts.as_slice()) {
            (Question::Check, [settings, plan, certificate]) => Some(Contents::Check(CheckFiles {
                settings,
                plan,
                certificate,
            })),
            (Question::Annotate, [settings, plan]) => Some(Contents::Annotate(AnnotateFiles {
                settings,
                plan,
            })),
            (Question::Simulate, [settings, script, plans @ ..]) => Some(Contents::Simulate(
                SimulateFiles {
                    settings,
                    script,
                    plans,
                },
            )),
            (Question::Audit, [settings, journal, plans @ ..]) => Some(Contents::Audit(
                AuditFiles {
                    settings,
                    journal,
                    plans,
                },
            )),
            (Question::AuditLives, [settings, journal, plans @ ..]) => Some(Contents::AuditLives(
                AuditFiles {
                    settings,
                    journal,
                    plans,
                },
            )),
            (Question::Segments, [settings, ..]) => Some(self.segments(settings, false)),
            (Question::EndedSegments, [settings, ..]) => Some(self.segments(settings, true)),
            (Question::Draw, [settings, journal, plans @ ..]) => Some(Contents::Draw(DrawFiles {
                settings,
                journal,
                plans,
                names: self.names.get(2..).unwrap_or(&[]),
            })),
            _ => None,
        }
    }

    /// Whether it is about segments.
    pub fn has_segments(&self) -> bool {
        matches!(self.question, Question::Segments | Question::EndedSegments)
    }

    /// The command that audits the texts behind `--` as segments, with the plans between the settings and that word.
    fn segments<'b>(&'b self, settings: &'b [u8], ended: bool) -> Contents<'b> {
        Contents::AuditSegments(SegmentsFiles {
            settings,
            plans: self.texts.get(1..self.before).unwrap_or(&[]),
            files: self.texts.get(self.before..).unwrap_or(&[]),
            ended,
        })
    }
}

/// What the words of a row of this section ask, and the names of the files behind that.
fn asked(section: Section, words: &str) -> (Question, &str) {
    match section {
        Section::Pictures => (Question::Draw, words),
        Section::Verdicts => match words.strip_prefix("lives ") {
            Some(files) => (Question::AuditLives, files),
            None => (Question::Audit, words),
        },
        Section::Cuts => named(words.strip_prefix("cut ").unwrap_or(words)),
        _ => named(words),
    }
}

/// The question that these words begin with, and what stands behind it.
fn named(words: &str) -> (Question, &str) {
    let (word, files) = words.split_once(" ").unwrap_or((words, ""));
    (question_of(word), files)
}

/// The questions by their names.
static QUESTIONS: [(&str, Question); 15] = [
    ("settings", Question::Settings),
    ("plan", Question::Plan),
    ("script", Question::Script),
    ("format", Question::Format),
    ("check", Question::Check),
    ("annotate", Question::Annotate),
    ("simulate", Question::Simulate),
    ("audit", Question::Audit),
    ("lives", Question::AuditLives),
    ("segments", Question::Segments),
    ("ended", Question::EndedSegments),
    ("mismatch", Question::Mismatch),
    ("broken", Question::Broken),
    ("nothread", Question::NoThread),
    ("repeated", Question::Repeated),
];

/// The question of this name.
fn question_of(name: &str) -> Question {
    for (word, question) in &QUESTIONS {
        if *word == name {
            return *question;
        }
    }
    Question::Unknown
}
