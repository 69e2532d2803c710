//! The sections of rows.

/// What is asked of the rows that stand together.
#[derive(Clone, Copy, Debug, PartialEq, Eq)]
pub enum Section {
    /// What is printed of a command or a text.
    Answers,
    /// What is printed where the last text is cut after every byte. A row begins with `cut`.
    Cuts,
    /// The refusal, and the paragraph that explains it.
    Explanations,
    /// The picture of a journal.
    Pictures,
    /// The verdict on a journal, of a refusal with its words for people.
    Verdicts,
    /// Whether a text is a line of a journal.
    Lines,
}

/// The lines at which sections begin.
static HEADINGS: [(&str, Section); 6] = [
    ("[answers]", Section::Answers),
    ("[cuts]", Section::Cuts),
    ("[explanations]", Section::Explanations),
    ("[pictures]", Section::Pictures),
    ("[verdicts]", Section::Verdicts),
    ("[lines]", Section::Lines),
];

impl Section {
    /// The section that begins at this line, where one does.
    pub fn beginning_at(line: &str) -> Option<Section> {
        for (heading, section) in &HEADINGS {
            if *heading == line {
                return Some(*section);
            }
        }
        None
    }

    /// Whether the line is one of its rows.
    pub fn has(self, line: &str) -> bool {
        self == Section::Lines || !line.is_empty() && !line.starts_with("#")
    }

    /// The folder of the files that its rows name.
    pub fn folder(self) -> &'static str {
        match self {
            Section::Answers | Section::Cuts => "answers",
            Section::Explanations => "explanations",
            Section::Pictures => "pictures",
            Section::Verdicts => "verdicts",
            Section::Lines => "lines",
        }
    }

    /// What is printed between a row and its answer, and behind that.
    pub fn frame(self) -> (&'static str, &'static str) {
        match self {
            Section::Answers | Section::Verdicts | Section::Lines => (": ", ""),
            Section::Cuts => (":", ""),
            Section::Explanations => ("\n", ""),
            Section::Pictures => ("\n", "\n"),
        }
    }
}
