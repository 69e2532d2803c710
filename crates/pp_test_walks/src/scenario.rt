//! Scripts with their settings and plans.

use crate::common::text_in;
use crate::shape::Shape;
use pp_cert::Accepted;
use pp_device::Trouble;
use pp_script::{Cue, Script};
use pp_settings::Settings;
use pp_test_plain::accepted;
use std::alloc::{AllocError, Global};
use std::rt::Files;

/// A script, its settings, its plans, and behind these a plan for each region that reads one page.
pub struct Scenario {
    pub settings: Settings,
    pub cues: Vec<Cue>,
    pub troubles: Vec<(u32, Trouble)>,
    /// How many plans the script has.
    pub plans: usize,
    texts: Vec<String>,
    pub shapes: Vec<Shape>,
}

impl Drop for Scenario {
    fn drop(self) {
        let Scenario {
            settings: _,
            cues: _,
            troubles: _,
            plans: _,
            texts: _,
            shapes: _,
        } = self;
    }
}

/// The settings of the file.
fn settings_in<R: Files + AllocGlobal>(rt: &R, name: &str) -> anyhow::Result<Settings> {
    let text = text_in(rt, "scripts", name)?;
    Ok(Settings::from_text(rt.alloc(), text.as_str())?)
}

/// The script of the file.
fn script_in<R: Files + AllocGlobal>(rt: &R, name: &str) -> anyhow::Result<Script> {
    let text = text_in(rt, "scripts", name)?;
    Ok(Script::from_text(rt.alloc(), text.as_str())?)
}

/// The scenario of the files with the settings and the script, before it has plans.
fn opened<R: Files + AllocGlobal>(
    rt: &R,
    settings: &str,
    script: &str,
) -> anyhow::Result<Scenario> {
    let settings = settings_in(rt, settings)?;
    let (cues, troubles) = script_in(rt, script)?.into_parts();
    Ok(Scenario::new(rt.alloc(), settings, cues, troubles))
}

/// The text of a plan that reads a page of the region.
fn reader_of(alloc: Global, region: &str) -> Result<String, AllocError> {
    format!(in alloc;
        "{{\"body\":[{{\"fix\":\"a\",\"region\":\"{region}\"}},{{\"latch\":\"a\",\"mode\":\"S\"}},\
{{\"unlatch\":\"a\"}},{{\"unfix\":\"a\"}}],\"version\":1}}"
    )
}

impl Scenario {
    /// The scenario of a line: the names of the files with the settings, the script and the plans.
    pub fn of<R: Files + AllocGlobal>(rt: &R, line: &str) -> anyhow::Result<Scenario> {
        let (settings, rest) = line.split_once(" ").unwrap_or((line, ""));
        let (script, names) = rest.split_once(" ").unwrap_or((rest, ""));
        let mut scenario = opened(rt, settings, script)?;
        for name in names.split(" ") {
            scenario.push(rt.alloc(), text_in(rt, "scripts", name)?)?;
        }
        scenario.push_readers(rt.alloc())?;
        Ok(scenario)
    }

    /// A scenario of these cues and troubles, with no plan.
    pub fn new(
        alloc: Global,
        settings: Settings,
        cues: Vec<Cue>,
        troubles: Vec<(u32, Trouble)>,
    ) -> Scenario {
        Scenario {
            settings,
            cues,
            troubles,
            plans: 0,
            texts: Vec::new(alloc),
            shapes: Vec::new(alloc),
        }
    }

    /// Puts the plan of this text behind the others.
    pub fn push(&mut self, alloc: Global, text: String) -> anyhow::Result<()> {
        let plan = accepted(alloc, &self.settings, text.as_str())?;
        self.texts.push(text)?;
        self.shapes.push(Shape::of(alloc, &plan)?)?;
        Ok(())
    }

    /// Puts for each region a plan that reads a page of it behind the others, which are the script's.
    pub fn push_readers(&mut self, alloc: Global) -> anyhow::Result<()> {
        self.plans = self.texts.len();
        for extent in self.settings.layout().extents() {
            let text = self.reader(alloc, extent.first)?;
            self.push(alloc, text)?;
        }
        Ok(())
    }

    /// The text of a plan that reads a page of the region that has this one.
    fn reader(&self, alloc: Global, page: u32) -> anyhow::Result<String> {
        match self.settings.region_of(page) {
            Some(region) => Ok(reader_of(alloc, self.settings.name(region))?),
            None => anyhow::bail!("no region has page {page}"),
        }
    }

    /// The plan of this number, with its certificate accepted.
    pub fn accepted(&self, alloc: Global, number: usize) -> anyhow::Result<Accepted> {
        match self.texts.get(number) {
            Some(text) => accepted(alloc, &self.settings, text.as_str()),
            None => anyhow::bail!("there is no plan {number}"),
        }
    }

    /// The script's troubles, and one more behind them.
    pub fn troubles_with(
        &self,
        alloc: Global,
        planted: Option<(u32, Trouble)>,
    ) -> Result<Vec<(u32, Trouble)>, AllocError> {
        let mut troubles = Vec::new(alloc);
        for trouble in &self.troubles {
            troubles.push(*trouble)?;
        }
        if let Some(trouble) = planted {
            troubles.push(trouble)?;
        }
        Ok(troubles)
    }
}
