//! The passes over a tree: what is asked of each key, and what a plain map answers.

use pp_btree::{Answer, Client, Query};
use std::alloc::{AllocError, Global};
use std::collections::BTreeMap;

/// What a pass asks.
#[derive(Clone, Copy, Debug, PartialEq, Eq)]
pub enum Pass {
    /// To add each key.
    Insert,
    /// To give a third of the keys another value, to take a third out, and to find the others.
    Change,
    /// To find each key.
    Find,
    /// To count the keys of each of so many parts of all numbers.
    Scan,
}

/// How many parts a scan has, as a power of two.
const PARTS: u32 = 6;

/// The key with this number: keys look like chance, and no two are the same.
fn key_of(number: u64) -> u64 {
    number.wrapping_add(1).wrapping_mul(0x9E37_79B9_7F4A_7C15)
}

/// What the pass asks of the key with this number.
fn query_of(pass: Pass, number: u64) -> Query {
    let key = key_of(number);
    match (pass, number % 3) {
        (Pass::Insert, _) => Query::Insert { key, value: number },
        (Pass::Change, 0) => Query::Update {
            key,
            value: number.wrapping_mul(2),
        },
        (Pass::Change, 1) => Query::Delete { key },
        (Pass::Scan, _) => part_of(number),
        _ => Query::Find { key },
    }
}

/// The scan of the part with this number, but for its greatest key.
fn part_of(number: u64) -> Query {
    let from = (number % (1 << PARTS)) << (64 - PARTS);
    Query::Scan {
        from,
        to: from | (u64::MAX >> PARTS),
    }
}

/// The queries of the pass over so many keys.
pub fn clients_of(alloc: Global, pass: Pass, keys: u64) -> Result<Vec<Client>, AllocError> {
    let count = match pass {
        Pass::Scan => 1 << PARTS,
        _ => keys,
    };
    let mut clients = Vec::new(alloc);
    for number in 0..count {
        clients.push(Client::new(query_of(pass, number)))?;
    }
    Ok(clients)
}

/// How many of these answers are those of the plain map, in which each query is done as well. They are of one pass: no
/// two of these queries change one key, so their order doesn't matter.
pub fn like_the_map(clients: &[Client], map: &mut BTreeMap<u64, u64>) -> Result<usize, AllocError> {
    let mut same = 0usize;
    for client in clients {
        let wanted = answer_of(client.query(), map)?;
        if client.answer() == Some(wanted) {
            same = same.saturating_add(1);
        }
    }
    Ok(same)
}

/// What the plain map answers.
fn answer_of(query: Query, map: &mut BTreeMap<u64, u64>) -> Result<Answer, AllocError> {
    Ok(match query {
        Query::Find { key } => match map.get(&key) {
            Some(value) => Answer::Found { value: *value },
            None => Answer::Missing,
        },
        Query::Insert { key, value } => {
            map.insert(key, value)?;
            Answer::Changed
        }
        Query::Update { key, value } => changed(update(map, key, value)),
        Query::Delete { key } => changed(map.remove(&key).is_some()),
        Query::Scan { from, to } => counted(map, from, to),
    })
}

/// Gives a key that is there another value. Tells whether it is there.
fn update(map: &mut BTreeMap<u64, u64>, key: u64, value: u64) -> bool {
    match map.get_mut(&key) {
        Some(place) => {
            *place = value;
            true
        }
        None => false,
    }
}

/// The answer where the key was there, or wasn't.
fn changed(is_there: bool) -> Answer {
    if is_there {
        Answer::Changed
    } else {
        Answer::Missing
    }
}

/// Counts the keys from one on and below another.
fn counted(map: &BTreeMap<u64, u64>, from: u64, to: u64) -> Answer {
    let (mut keys, mut sum) = (0u64, 0u64);
    if to < from {
        return Answer::Counted { keys, sum };
    }
    for (key, _value) in map.range(from..to) {
        keys = keys.saturating_add(1);
        sum = sum.wrapping_add(*key);
    }
    Answer::Counted { keys, sum }
}
