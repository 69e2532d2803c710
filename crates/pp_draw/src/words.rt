//! Words of a picture: names with their letters escaped, pages by their regions, and spans of lines.

use crate::column::{PageAt, Wait};
use crate::row::Shown;
use pp_settings::Settings;
use std::fmt;

/// A text with the letters escaped that mean something in XML.
#[derive(Clone, Copy)]
pub(crate) struct Escaped<'a>(pub &'a str);

impl fmt::Display for Escaped<'_> {
    fn fmt<W: fmt::Write>(&self, f: &mut fmt::Formatter<W>) -> fmt::Result {
        for letter in self.0.chars() {
            write_letter(f, letter)?;
        }
        Ok(())
    }
}

/// A letter as XML has it.
fn write_letter<W: fmt::Write>(f: &mut fmt::Formatter<W>, letter: char) -> fmt::Result {
    match letter {
        '&' => f.write_str("&amp;"),
        '<' => f.write_str("&lt;"),
        '>' => f.write_str("&gt;"),
        '"' => f.write_str("&quot;"),
        '\'' => f.write_str("&apos;"),
        letter if is_hidden(letter) => f.write_char('?'),
        letter => f.write_char(letter),
    }
}

/// Whether a letter has no place in a picture: a control, one that turns the direction of what follows, or one that XML hasn't.
fn is_hidden(letter: char) -> bool {
    matches!(
        letter,
        '\u{0}'..='\u{1f}'
            | '\u{7f}'..='\u{9f}'
            | '\u{200b}'..='\u{200f}'
            | '\u{2028}'..='\u{202e}'
            | '\u{2066}'..='\u{2069}'
            | '\u{feff}'
            | '\u{fffe}'
            | '\u{ffff}'
    )
}

/// The most letters of a plan's name that are shown. Of a longer one the rest is left out, so that more bars have room for
/// their names.
const NAME: usize = 40;

/// What a plan is called: the name of its file, without the folders; and its number where no file is known.
#[derive(Clone, Copy)]
pub(crate) struct PlanName<'a> {
    pub names: &'a [&'a str],
    pub plan: u64,
}

impl PlanName<'_> {
    /// The name of the plan's file, if one is known.
    fn file(&self) -> Option<&str> {
        let path = *self.names.get(self.plan as usize)?;
        let name = path.rsplit("/").next()?;
        if name.is_empty() { None } else { Some(name) }
    }

    /// Whether the plan's file is known.
    pub(crate) fn is_known(&self) -> bool {
        self.file().is_some()
    }

    /// How many letters are shown.
    pub(crate) fn letters(&self) -> u64 {
        match self.file() {
            Some(name) => name.chars().take(NAME).count() as u64,
            None => 8,
        }
    }
}

impl fmt::Display for PlanName<'_> {
    fn fmt<W: fmt::Write>(&self, f: &mut fmt::Formatter<W>) -> fmt::Result {
        match self.file() {
            Some(name) => {
                for letter in name.chars().take(NAME) {
                    write_letter(f, letter)?;
                }
                Ok(())
            }
            None => write!(f, "plan {}", self.plan),
        }
    }
}

/// A page with the name of its region, as in `data page 17`.
#[derive(Clone, Copy)]
pub(crate) struct Page<'a> {
    pub settings: &'a Settings,
    pub page: u32,
}

impl fmt::Display for Page<'_> {
    fn fmt<W: fmt::Write>(&self, f: &mut fmt::Formatter<W>) -> fmt::Result {
        let page = self.page;
        match self.settings.region_of(page) {
            Some(region) => write!(f, "{} page {page}", Escaped(self.settings.name(region))),
            None => write!(f, "page {page}"),
        }
    }
}

/// Some lines of a journal, by the first and the last of them.
#[derive(Clone, Copy)]
pub(crate) struct Span {
    pub first: u64,
    pub last: u64,
}

impl fmt::Display for Span {
    fn fmt<W: fmt::Write>(&self, f: &mut fmt::Formatter<W>) -> fmt::Result {
        let Span { first, last } = *self;
        if first == last {
            write!(f, "line {first}")
        } else {
            write!(f, "lines {first} to {last}")
        }
    }
}

/// What is shown, in words.
#[derive(Clone, Copy)]
pub(crate) struct Told<'a> {
    pub settings: &'a Settings,
    pub shown: Shown,
}

impl fmt::Display for Told<'_> {
    fn fmt<W: fmt::Write>(&self, f: &mut fmt::Formatter<W>) -> fmt::Result {
        let settings = self.settings;
        match self.shown {
            Shown::Leaves => f.write_str("leaves its plan"),
            Shown::Reads { page } => write!(f, "reads {}", Page { settings, page }),
            Shown::Writes { page, victim } => write!(
                f,
                "writes {} back for {}",
                Page {
                    settings,
                    page: victim,
                },
                Page { settings, page }
            ),
            Shown::Waits(Wait::Latch { page }) => {
                write!(f, "waits for a latch on {}", Page { settings, page })
            }
            Shown::Waits(Wait::Room) => f.write_str("waits for room"),
            Shown::Shares { page } => write!(f, "S on {}", Page { settings, page }),
            Shown::Changes { page } => write!(f, "X on {}", Page { settings, page }),
            Shown::Flushes { page } => write!(f, "flushes {}", Page { settings, page }),
            Shown::Stands(at) => write_page(f, settings, at),
        }
    }
}

/// The page that stands in a frame, its mark, whether it is changed, and whether it is latched X.
fn write_page<W: fmt::Write>(
    f: &mut fmt::Formatter<W>,
    settings: &Settings,
    at: PageAt,
) -> fmt::Result {
    write!(
        f,
        "{}",
        Page {
            settings,
            page: at.page,
        }
    )?;
    if let Some(mark) = at.mark {
        write!(f, " mark {mark}")?;
    }
    if at.is_dirty {
        f.write_str(" changed")?;
    }
    if at.is_exclusive {
        f.write_str(" X")?;
    }
    Ok(())
}
