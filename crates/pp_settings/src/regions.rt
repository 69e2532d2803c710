//! Regions while they are read.

ghost use Rattle.std.specs.Prelude.{◌≡◌, ◌<◌, ◌≤◌, ◌++◌, [], ◌∷◌, length, IfOk, IfErr};
ghost use Rattle.std.specs.List.{list_any};
ghost use Rattle.pp_settings.specs.declared.error.SettingsError.TheVariants.{OutOfMemory};
ghost use Rattle.pp_settings.specs.Reading.{has_name, shares_page_with};

use crate::error::SettingsError;
use crate::extent::Extent;
use crate::extents::Extents;
use std::alloc::Global;
use std::marker::Model;

/// The regions read so far: their names, and beside each name its extent.
#[derive(Debug, Drop)]
pub(crate) struct Regions {
    pub(crate) names: Vec<String>,
    pub(crate) extents: Extents,
}

impl Model for Regions {
    ghost use Rattle.std.specs.Prelude.{◌≡◌, List, length, map, string_bytes};
    ghost use Rattle.pp_settings.specs.Settings.{NamedRegion, named};

    ghost Value = { List NamedRegion };

    ghost view = { λ r. named (map string_bytes r.names.items) r.extents };

    ghost invariant = { λ r. length r.names.items ≡ length r.extents };
}

impl Regions {
    /// No region.
    pub(crate) fn new(alloc: Global) -> Regions
        ensures { result ≡ [] }
    {
        Regions {
            names: Vec::new(alloc),
            extents: Extents::new(),
        }
    }

    /// How many regions there are, which is the number of the next one.
    pub(crate) fn len(&self) -> u8
        ensures is { result ≡ length self.now }
        ensures most { result ≤ 64 }
    {
        self.extents.as_slice().len() as u8
    }

    /// Whether some region has the name.
    pub(crate) fn has_name(&self, name: &str) -> bool
        ensures { result ≡ list_any (has_name name.now) self.now }
    {
        self.names.iter().any(|kept| kept.as_str() == name)
    }

    /// Whether some region has a page of the extent.
    pub(crate) fn shares_page(&self, extent: &Extent) -> bool
        ensures { result ≡ list_any (shares_page_with extent.now) self.now }
    {
        let extents = self.extents.as_slice();
        extents.iter().any(|kept| kept.shares_page(extent))
    }

    /// Adds a region, unless memory runs out.
    pub(crate) fn push(
        &mut self,
        alloc: Global,
        name: &str,
        extent: Extent,
    ) -> Result<(), SettingsError>
        requires { length self.old < 64 }
        ensures adds { IfOk result (λ _. self.new ≡ self.old ++ record { name = name.now; extent = extent } ∷ []) }
        ensures memory { IfErr result (λ e. e ≡ OutOfMemory) }
    {
        let kept = String::from_str(alloc, name)?;
        self.names.push(kept)?;
        self.extents.push(extent);
        Ok(())
    }
}
