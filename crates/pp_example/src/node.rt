//! A node of the index, in the body of a page.
//!
//! | Bytes of the body | What stands there |
//! |---|---|
//! | 0 to 3 | the height: 0 of a leaf, and one more for each level above |
//! | 4 to 7 | how many entries there are, at most 5 |
//! | 8 on | the entries, of 8 bytes each: a key, and its value or the page of a child |
//!
//! Every number has four bytes, big-endian. Entries stand by rising keys. A child has the keys from that of its entry
//! on, up to that of the next entry.

ghost use Rattle.std.specs.Prelude.{◌≡◌, ℕ, ◌+◌, ◌<◌, ◌≤◌, length, true, false, None, IfSome};
ghost use Rattle.pp_example.specs.Node.{word_at, height_of, count_of, key_at, value_at, entries_of};
ghost use Rattle.pp_example.specs.Node.{LeadsTo, AreAbove, AreOthers, HasEntry, SetsValue, Gains};

/// How many bytes of a body a node takes.
pub const SIZE: usize = 48;

/// The most entries that a node has.
const MOST: usize = 5;

/// An entry of a node.
#[derive(Clone, Copy)]
pub struct Entry {
    pub key: u32,
    /// In a leaf the value of the key, in another node the page of the child.
    pub value: u32,
}

/// The number in the four bytes from this one on.
#[tactic(auto, unfolding(crate::specs::Node::word_at))]
fn word(body: &[u8], at: usize) -> u32
    requires { at + 4 ≤ length body.now }
    ensures { result ≡ word_at body.now at }
{
    let mut bytes = [0; 4];
    bytes.copy_from_slice(&body[at..at + 4]);
    u32::from_be_bytes(bytes)
}

/// Writes the number to the four bytes from this one on.
#[tactic(auto, unfolding(crate::specs::Node::word_at))]
fn put_word(body: &mut [u8], at: usize, word: u32)
    requires { at + 4 ≤ length body.old }
    ensures written { word_at body.new at ≡ word }
    ensures before { (other : ℕ) → other + 4 ≤ at → word_at body.new other ≡ word_at body.old other }
    ensures behind { (other : ℕ) → at + 4 ≤ other → word_at body.new other ≡ word_at body.old other }
    ensures length { length body.new ≡ length body.old }
{
    body[at..at + 4].copy_from_slice(&word.to_be_bytes());
}

/// How high the node stands: 0 of a leaf.
pub fn height(body: &[u8]) -> u32
    requires { SIZE ≤ length body.now }
    ensures { result ≡ height_of body.now }
{
    word(body, 0)
}

/// How many entries the node has.
fn count(body: &[u8]) -> usize
    requires { SIZE ≤ length body.now }
    ensures { result ≡ count_of body.now }
{
    (word(body, 4) as usize).min(MOST)
}

/// The entry of this number.
fn entry_at(body: &[u8], number: usize) -> Entry
    requires long { SIZE ≤ length body.now }
    requires below { number < 5 }
    ensures key { result.key ≡ key_at body.now number }
    ensures value { result.value ≡ value_at body.now number }
{
    Entry {
        key: word(body, 8 + 8 * number),
        value: word(body, 12 + 8 * number),
    }
}

/// The page of the child that has the key, if it is there at all. None where the key is below those of all entries.
pub fn child(body: &[u8], key: u32) -> Option<u32>
    requires { SIZE ≤ length body.now }
    ensures some { IfSome result (λ page. LeadsTo body.now (count_of body.now) key page) }
    ensures none { result ≡ None → AreAbove body.now (count_of body.now) key }
{
    let mut found = None;
    for number in 0..count(body) {
        let entry = entry_at(body, number);
        if entry.key <= key {
            found = Some(entry.value);
        }
    }
    found
}

/// The number of the first entry that has the key.
fn place(body: &[u8], key: u32) -> Option<usize>
    requires { SIZE ≤ length body.now }
    ensures below { IfSome result (λ place. place < count_of body.now) }
    ensures key { IfSome result (λ place. key_at body.now place ≡ key) }
    ensures none { result ≡ None → AreOthers body.now (count_of body.now) key }
{
    for number in 0..count(body) {
        if entry_at(body, number).key == key {
            return Some(number);
        }
    }
    None
}

/// The value of the key in a leaf. None where the leaf doesn't have the key.
pub fn value(body: &[u8], key: u32) -> Option<u32>
    requires { SIZE ≤ length body.now }
    ensures some { IfSome result (λ value. HasEntry body.now key value) }
    ensures none { result ≡ None → AreOthers body.now (count_of body.now) key }
{
    let place = place(body, key)?;
    Some(entry_at(body, place).value)
}

/// Gives the key another value in a leaf, and tells whether it did: not where the leaf doesn't have the key.
pub fn set(body: &mut [u8], key: u32, value: u32) -> bool
    requires { SIZE ≤ length body.old }
    ensures done { result ≡ true → SetsValue body.old body.new key value }
    ensures unchanged { result ≡ false → body.new ≡ body.old }
    ensures none { result ≡ false → AreOthers body.old (count_of body.old) key }
{
    match place(body, key) {
        Some(place) => {
            put_word(body, 12 + 8 * place, value);
            true
        }
        None => false,
    }
}

/// Makes the body a node of this height with these entries.
pub fn fill(body: &mut [u8], height: u32, entries: &[Entry])
    requires long { SIZE ≤ length body.old }
    requires few { length entries.now ≤ 5 }
    ensures height { height_of body.new ≡ height }
    ensures entries { entries_of body.new ≡ entries.now }
    ensures length { length body.new ≡ length body.old }
{
    put_word(body, 0, height);
    put_word(body, 4, 0);
    for entry in entries {
        push(body, *entry);
    }
}

/// Adds an entry behind the others.
fn push(body: &mut [u8], entry: Entry)
    requires long { SIZE ≤ length body.old }
    requires room { count_of body.old < 5 }
    ensures gains { Gains body.old body.new entry.key entry.value }
    ensures length { length body.new ≡ length body.old }
{
    let number = count(body);
    put_word(body, 8 + 8 * number, entry.key);
    put_word(body, 12 + 8 * number, entry.value);
    put_word(body, 4, number as u32 + 1);
}
