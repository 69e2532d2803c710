//! Which of two keys is the lower one.

ghost use Rattle.std.specs.Prelude.{◌≡◌};
ghost use Rattle.pp_keyed.specs.Keyed.{is_from, lower_key};

/// Whether it is a key from this one on.
pub(crate) fn is_from(limit: u32, key: Option<u32>) -> bool
    ensures { result ≡ is_from limit key }
{
    match key {
        Some(key) => limit <= key,
        None => false,
    }
}

/// The lower of two keys, where the second one is at least `from`.
pub(crate) fn lower(first: Option<u32>, from: u32, key: Option<u32>) -> Option<u32>
    ensures { result ≡ lower_key first from key }
{
    let Some(key) = key else {
        return first;
    };
    match first {
        Some(least) => if from <= key && key < least {
            Some(key)
        } else {
            Some(least)
        },
        None => if from <= key { Some(key) } else { None },
    }
}
