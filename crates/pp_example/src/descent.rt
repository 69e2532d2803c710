//! What a worker does on its way through the index: the work of the two plans.

ghost use Rattle.std.specs.Prelude.{◌≡◌, ◌<◌, ◌≤◌, ◌+◌, length, IfSome};

use crate::node;
use crate::setup::ROOT;
use pp_device::image::HEAD;
use pp_pool::Work;

/// A way from the root to the leaf that has the key, as far as it is known.
#[derive(Clone, Copy)]
struct Descent {
    key: u32,
    /// The page that comes next; none where the last node had no child for the key.
    next: Option<u32>,
    /// Whether the leaf was reached.
    is_done: bool,
}

impl Descent {
    /// The way to the key, at the root.
    fn new(key: u32) -> Self {
        Descent {
            key,
            next: Some(ROOT),
            is_done: false,
        }
    }

    /// The page that comes next, if it is one of the region; else the region's first, since some page has to be fixed.
    fn page(self, first: u32, count: u32) -> u32
        requires some { 1 ≤ count }
        requires ends { first + count ≤ 4294967292 }
        ensures from { first ≤ result }
        ensures below { result < first + count }
        ensures next { IfSome self.next (λ page. first ≤ page → page < first + count → result ≡ page) }
    {
        match self.next {
            Some(page) if first <= page && page - first < count => page,
            _ => first,
        }
    }

    /// Whether this is the page that comes next.
    fn is_at(self, page: u32) -> bool {
        self.next == Some(page)
    }

    /// Goes on to the child that has the key.
    fn go_on(&mut self, body: &[u8])
        requires { 48 ≤ length body.now }
    {
        self.next = node::child(body, self.key);
    }
}

/// Finds the value of a key.
#[derive(Drop)]
pub struct Find {
    descent: Descent,
    value: Option<u32>,
}

impl Find {
    pub fn new(key: u32) -> Self {
        Find {
            descent: Descent::new(key),
            value: None,
        }
    }

    /// Whether the leaf was seen that has the key if the index has it.
    pub fn is_done(&self) -> bool {
        self.descent.is_done
    }

    /// The value that was found.
    pub fn value(&self) -> Option<u32> {
        self.value
    }
}

impl Work for Find {
    fn page(&mut self, _region: u8, first: u32, count: u32) -> u32 {
        self.descent.page(first, count)
    }

    // The plans have no choice.
    fn branch(&mut self, _count: u16) -> u16 {
        0
    }

    fn change(&mut self, _page: u32, _body: &mut [u8]) {}

    fn see(&mut self, page: u32, _mark: u64, image: &[u8]) {
        if !self.descent.is_at(page) {
            return;
        }
        let body = &image[HEAD..];
        if node::height(body) == 0 {
            self.value = node::value(body, self.descent.key);
            self.descent.is_done = true;
        } else {
            self.descent.go_on(body);
        }
    }
}

/// Gives a key that is in the index another value.
#[derive(Drop)]
pub struct Set {
    descent: Descent,
    value: u32,
    has_changed: bool,
}

impl Set {
    pub fn new(key: u32, value: u32) -> Self {
        Set {
            descent: Descent::new(key),
            value,
            has_changed: false,
        }
    }

    /// Whether the leaf was reached that has the key if the index has it.
    pub fn is_done(&self) -> bool {
        self.descent.is_done
    }

    /// Whether the key has the value now.
    pub fn has_changed(&self) -> bool {
        self.has_changed
    }
}

impl Work for Set {
    fn page(&mut self, _region: u8, first: u32, count: u32) -> u32 {
        self.descent.page(first, count)
    }

    // The plans have no choice.
    fn branch(&mut self, _count: u16) -> u16 {
        0
    }

    fn change(&mut self, page: u32, body: &mut [u8]) {
        if self.descent.is_at(page) {
            self.has_changed = node::set(body, self.descent.key, self.value);
            self.descent.is_done = true;
        }
    }

    fn see(&mut self, page: u32, _mark: u64, image: &[u8]) {
        if self.descent.is_at(page) {
            self.descent.go_on(&image[HEAD..]);
        }
    }
}
