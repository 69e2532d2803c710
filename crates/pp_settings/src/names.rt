//! Tests of names and of keys.

ghost use Rattle.std.specs.Prelude.{◌≡◌, None, Some};
ghost use Rattle.pp_settings.specs.declared.version.TextVersion.TheVariants.{One, Two};
ghost use Rattle.pp_settings.specs.Reading.{is_known};
ghost use Rattle.pp_settings.specs.Settings.{is_region_name};

use crate::key::{RegionKey, TopKey};
use crate::limits::LONGEST_NAME;
use crate::version::TextVersion;
use pp_text::is_name;

/// Whether the text is in the form of a region's name.
pub(crate) fn is_region_name(text: &str) -> bool
    ensures { result ≡ is_region_name text.now }
{
    is_name(LONGEST_NAME, text)
}

/// Whether the document of this version, or a region's table, may have the key.
pub(crate) fn is_known(version: TextVersion, region: Option<u8>, key: &str) -> bool
    ensures { result ≡ is_known version region key.now }
{
    match (region, version) {
        (None, TextVersion::One) => is_first_key(key),
        (None, TextVersion::Two) => is_second_key(key),
        (Some(_), _) => is_region_key(key),
    }
}

fn is_first_key(key: &str) -> bool
    ensures { result ≡ is_known One None key.now }
{
    key == TopKey::Frames.name()
        || key == TopKey::PageBytes.name()
        || key == TopKey::Workers.name()
        || key == TopKey::Flushes.name()
        || key == TopKey::Region.name()
}

fn is_second_key(key: &str) -> bool
    ensures { result ≡ is_known Two None key.now }
{
    key == TopKey::Version.name()
        || key == TopKey::Frames.name()
        || key == TopKey::PageBytes.name()
        || key == TopKey::Workers.name()
        || key == TopKey::Waiting.name()
        || key == TopKey::Flushes.name()
        || key == TopKey::Region.name()
}

fn is_region_key(key: &str) -> bool
    ensures { result ≡ is_known One (Some 0) key.now }
{
    key == RegionKey::Name.name()
        || key == RegionKey::First.name()
        || key == RegionKey::Count.name()
        || key == RegionKey::Class.name()
}
