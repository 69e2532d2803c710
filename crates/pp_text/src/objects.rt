//! The keys of a JSON object.

ghost use Rattle.std.specs.Prelude.{◌≡◌, map, string_bytes};
ghost use Rattle.std.specs.List.{list_all, list_any};
ghost use Rattle.std.specs.Str.{bytes_eq};
ghost use Rattle.std.specs.BTreeMap.{keys};
ghost use Rattle.serde_json.specs.View.{view};
ghost use Rattle.pp_text.specs.Objects.{is_one_of, has_only_keys};
ghost use Rattle.pp_text.specs.Views.{texts};

use serde_json::{Map, Value};

/// Whether the key is one of these.
pub fn is_one_of(known: &[&str], key: &str) -> bool
    ensures { result ≡ is_one_of (texts known.now) key.now }
{
    known.iter().any(|other| key == *other)
}

/// Whether each key of the members is one of these.
fn are_keys(known: &[&str], members: &Map<String, Value>) -> bool
    ensures { result ≡ list_all (λ key. is_one_of (texts known.now) (string_bytes key)) (keys members.now) }
{
    members.keys().all(|key| is_one_of(known, key.as_str()))
}

/// Whether the value is an object, and each of its keys is one of these.
#[tactic(auto, using(crate::proofs::Trees::only_none))]
pub fn has_only_keys(known: &[&str], value: &Value) -> bool
    ensures { result ≡ has_only_keys (texts known.now) (view value.now) }
{
    match value.as_object() {
        Some(members) => are_keys(known, members),
        None => false,
    }
}
