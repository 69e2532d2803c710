//! Which of many entrants has the greatest key.

ghost use Rattle.std.specs.Prelude.{◌≡◌, ℕ, ◌+◌, ◌-◌, ◌*◌, ◌/◌, ◌<◌, ◌≤◌, length, drop, slice_index, slice_set, IfOk, Some, None};
ghost use Rattle.pp_arc.specs.Tournament.{Wins, WinsBut};

use std::alloc::{AllocError, Global};
use std::marker::Model;

/// A tournament: entrants with keys, of whom the one with the greatest key is found at once.
///
/// It is a tree of matches: each inner node has the greater key of the two nodes below it (Knuth, The Art of Computer
/// Programming, volume 3, section 5.2.3, tree selection). So a key is written, and the winner is found, in one step for each level.
/// One entrant waits outside of the tree: one that comes with a greater key than the entrant that waits takes its place. So an entrant
/// that wins soon after it came costs no walk.
///
/// Contracts see it as the list of the keys, 0 where an entrant has none.
#[derive(Debug, Drop)]
pub(crate) struct Tournament {
    entrants: u32,
    /// Node 1 is the root, and below node j are 2j and 2j + 1. The last half are the leaves, one for each entrant.
    nodes: Vec<u32>,
    /// The entrant who waits outside of the tree.
    waiting: u32,
    /// The key of that entrant, or 0.
    key: u32,
}

impl Model for Tournament {
    ghost use Rattle.std.specs.Prelude.{ℕ, List};

    ghost Value = { List ℕ };

    ghost use Rattle.pp_arc.specs.Tournament.{keys_of, IsSound};

    ghost view = { keys_of };

    ghost invariant = { IsSound };
}

/// The root's key: that of the winner in the tree, or 0.
fn root_of(nodes: &[u32]) -> u32
    ensures { result ≡ slice_index nodes.now 1 }
{
    nodes.get(1).copied().unwrap_or(0)
}

/// Writes the key of a leaf, and plays the matches from it to the root again.
fn write(nodes: &mut [u32], leaf: usize, key: u32)
    requires leaf { length nodes.old ≤ 2 * leaf }
    requires pair { 2 * (leaf / 2) + 1 < length nodes.old }
    requires below { leaf < length nodes.old }
    requires wins { Wins nodes.old }
    ensures wins { Wins nodes.new }
    ensures leaves { (n : ℕ) → leaf / 2 < n → n ≤ leaf → drop n nodes.new ≡ slice_set (drop n nodes.old) (leaf - n) key }
{
    if nodes[leaf] == key {
        return;
    }
    nodes[leaf] = key;
    play(nodes, leaf / 2);
}

/// Plays the match of this node again, and then those above it, as long as another key wins.
fn play(nodes: &mut [u32], start: usize)
    requires pair { 2 * start + 1 < length nodes.old }
    requires wins { WinsBut nodes.old start }
    ensures wins { Wins nodes.new }
    ensures rest { (n : ℕ) → start < n → drop n nodes.new ≡ drop n nodes.old }
{
    let mut node = start;
    while node > 0 {
        let key = nodes[2 * node].max(nodes[2 * node + 1]);
        if nodes[node] == key {
            return;
        }
        nodes[node] = key;
        node /= 2;
    }
}

/// The leaf of the winner in the tree.
fn winner(nodes: &[u32]) -> usize
    requires wins { Wins nodes.now }
    requires some { 1 < length nodes.now }
    ensures below { result < length nodes.now }
    ensures leaf { length nodes.now ≤ 2 * result + 1 }
    ensures key { slice_index nodes.now result ≡ slice_index nodes.now 1 }
{
    let mut node = 1;
    while 2 * node + 1 < nodes.len() {
        node = if nodes[2 * node] == nodes[node] {
            2 * node
        } else {
            2 * node + 1
        };
    }
    node
}

impl Tournament {
    /// So many entrants without keys. It takes 8 bytes for each.
    pub(crate) fn new(alloc: Global, entrants: u32) -> Result<Self, AllocError>
        ensures length { IfOk result (λ tournament. length tournament ≡ entrants) }
        ensures empty { IfOk result (λ tournament. (entrant : ℕ) → slice_index tournament entrant ≡ 0) }
    {
        Ok(Tournament {
            entrants,
            nodes: vec![in alloc; 0; 2 * entrants as usize]?,
            waiting: 0,
            key: 0,
        })
    }

    /// The entrant of the greatest key, if one has a key.
    pub(crate) fn greatest(&self) -> Option<u32>
        ensures some { (entrant : ℕ) → result ≡ Some entrant → (0 < slice_index self.now entrant)
            × ((other : ℕ) → slice_index self.now other ≤ slice_index self.now entrant) }
        ensures none { result ≡ None → (entrant : ℕ) → slice_index self.now entrant ≡ 0 }
    {
        if root_of(&self.nodes) > self.key {
            return Some((winner(&self.nodes) - self.entrants as usize) as u32);
        }
        if self.key > 0 {
            Some(self.waiting)
        } else {
            None
        }
    }

    /// Gives the entrant this key, or takes its key away where it is 0.
    pub(crate) fn set(&mut self, entrant: u32, key: u32)
        ensures { self.new ≡ slice_set self.old entrant key }
    {
        if entrant >= self.entrants {
            return;
        }
        let leaf = self.entrants as usize + entrant as usize;
        if entrant == self.waiting {
            self.key = key;
        } else if key > self.key && self.nodes[leaf] == 0 {
            self.wait(entrant, key);
        } else {
            write(&mut self.nodes, leaf, key);
        }
    }

    /// An entrant without a key gets this one and waits outside of the tree, where the one who waited goes in.
    fn wait(&mut self, entrant: u32, key: u32)
        requires entrant { entrant < length self.old }
        requires none { slice_index self.old entrant ≡ 0 }
        ensures { self.new ≡ slice_set self.old entrant key }
    {
        let leaf = self.entrants as usize + self.waiting as usize;
        write(&mut self.nodes, leaf, self.key);
        self.waiting = entrant;
        self.key = key;
    }
}
