//! Tests of ARC's directory: worked rows, traces beside a plain program, and its memory.

ghost use Rattle.std.specs.Prelude.{◌≡◌, ◌≤◌, ◌==◌, ℕ, Bool, nat_lt};
ghost use Rattle.std.specs.List.{list_any};
ghost use Rattle.pp_arc.specs.FourLists.{is_cached};
ghost use Rattle.pp_arc.specs.Search.{KnowsBusy};

use pp_arc::{Answer, Busy, Directory, List, Search};
use pp_test_plain::Lists;
use std::alloc::{AllocError, Global};
use std::process::Abort;
use std::sync::atomic::{AtomicU64, Ordering};
use std::test::Fail;

/// The pages of a slice are busy.
#[derive(Drop)]
struct Among<'a>(&'a [u32]);

impl Busy for Among<'_> {
    ghost busy = { λ s page. list_any (λ y. y == page) s.0.now };

    fn is_busy(&self, page: u32) -> bool {
        self.0.contains(&page)
    }
}

/// Whether the directory has these four lists, in the order of their names, and this target.
fn has(directory: &Directory, lists: [&[u32]; 4], target: u32) -> bool {
    directory.target() == target
        && is_list(directory, List::T1, lists[0])
        && is_list(directory, List::T2, lists[1])
        && is_list(directory, List::B1, lists[2])
        && is_list(directory, List::B2, lists[3])
}

/// Whether the list, read from its front on, has these pages.
fn is_list(directory: &Directory, list: List, pages: &[u32]) -> bool {
    let mut next = directory.front(list);
    for page in pages {
        if next != Some(*page) || directory.place(*page) != Some(list) {
            return false;
        }
        next = directory.after(*page);
    }
    next.is_none() && directory.len(list) == pages.len()
}

/// A request, the busy pages, what it answers, and the four lists and the target after it.
struct Row(u32, &'static [u32], Answer, [&'static [u32]; 4], u32);

/// Asks for the pages in turn, and compares each answer and the lists after it. The busy pages are others at each request, so
/// each has a search of its own.
fn follow<R: Abort + AllocGlobal>(
    rt: &R,
    directory: &mut Directory,
    rows: &[Row],
) -> Result<(), AllocError>
    requires { directory.old.pages ≡ 64 }
    ensures { directory.new.pages ≡ 64 }
{
    for row in rows {
        let page = row.0;
        let mut search = Search::new(rt.alloc(), directory.size(), 64)?;
        let answer = directory.request(page % 64, &mut search, &Among(row.1));
        assert!(rt;
            answer == row.2 && has(directory, row.3, row.4),
            "at page {page}"
        );
    }
    Ok(())
}

/// The lists and the target after six requests.
static SIX_REQUESTS: [Row; 6] = [
    Row(1, &[], Answer::Free, [&[1], &[], &[], &[]], 0),
    Row(2, &[], Answer::Free, [&[2, 1], &[], &[], &[]], 0),
    Row(1, &[], Answer::Hit, [&[2], &[1], &[], &[]], 0),
    Row(3, &[], Answer::Evict(2), [&[3], &[1], &[2], &[]], 0),
    Row(2, &[], Answer::Evict(1), [&[3], &[2], &[], &[1]], 1),
    Row(1, &[], Answer::Evict(3), [&[], &[1, 2], &[3], &[]], 0),
];

/// Busy pages are passed over. The second AllBusy is of a page of B1, which would raise the target.
static WITH_BUSY_PAGES: [Row; 7] = [
    Row(1, &[], Answer::Free, [&[1], &[], &[], &[]], 0),
    Row(2, &[], Answer::Free, [&[2, 1], &[], &[], &[]], 0),
    Row(1, &[], Answer::Hit, [&[2], &[1], &[], &[]], 0),
    Row(3, &[], Answer::Evict(2), [&[3], &[1], &[2], &[]], 0),
    Row(4, &[1, 3], Answer::AllBusy, [&[3], &[1], &[2], &[]], 0),
    Row(2, &[1, 3], Answer::AllBusy, [&[3], &[1], &[2], &[]], 0),
    Row(4, &[3], Answer::Evict(1), [&[4, 3], &[], &[], &[1]], 0),
];

#[test]
fn lists_and_target_after_each_request(rt: HostRuntime) -> Result<(), Fail> {
    let mut directory = Directory::new(rt.alloc(), 2, 64)?;
    follow(&rt, &mut directory, &SIX_REQUESTS)?;
    Ok(())
}

#[test]
fn busy_pages_are_passed_over(rt: HostRuntime) -> Result<(), Fail> {
    let mut directory = Directory::new(rt.alloc(), 2, 64)?;
    follow(&rt, &mut directory, &WITH_BUSY_PAGES)?;
    Ok(())
}

static ONE_PAGE: [Row; 3] = [
    Row(5, &[], Answer::Free, [&[5], &[], &[], &[]], 0),
    Row(6, &[5], Answer::AllBusy, [&[5], &[], &[], &[]], 0),
    Row(6, &[], Answer::Evict(5), [&[6], &[], &[], &[]], 0),
];

#[test]
fn a_victim_is_brought_back(rt: HostRuntime) -> Result<(), Fail> {
    let mut directory = Directory::new(rt.alloc(), 1, 64)?;
    follow(&rt, &mut directory, &ONE_PAGE)?;
    let mut search = Search::new(rt.alloc(), 1, 64)?;
    assert!(rt; bring_back(&mut directory, &mut search, 6, 5));
    assert!(rt; has(&directory, [&[], &[5], &[], &[]], 0));
    Ok(())
}

/// The quotients 3 / 2 are rounded down, at page 7 of B1 and at page 4 of B2. From page 11 to 13 each
/// page of T2 is busy, so that T1 gives the victim though T2 is chosen.
static QUOTIENTS: [Row; 23] = [
    Row(1, &[], Answer::Free, [&[1], &[], &[], &[]], 0),
    Row(1, &[], Answer::Hit, [&[], &[1], &[], &[]], 0),
    Row(2, &[], Answer::Free, [&[2], &[1], &[], &[]], 0),
    Row(2, &[], Answer::Hit, [&[], &[2, 1], &[], &[]], 0),
    Row(3, &[], Answer::Free, [&[3], &[2, 1], &[], &[]], 0),
    Row(3, &[], Answer::Hit, [&[], &[3, 2, 1], &[], &[]], 0),
    Row(4, &[], Answer::Free, [&[4], &[3, 2, 1], &[], &[]], 0),
    Row(4, &[], Answer::Hit, [&[], &[4, 3, 2, 1], &[], &[]], 0),
    Row(5, &[], Answer::Free, [&[5], &[4, 3, 2, 1], &[], &[]], 0),
    Row(5, &[], Answer::Hit, [&[], &[5, 4, 3, 2, 1], &[], &[]], 0),
    Row(
        6,
        &[],
        Answer::Evict(1),
        [&[6], &[5, 4, 3, 2], &[], &[1]],
        0,
    ),
    Row(6, &[], Answer::Hit, [&[], &[6, 5, 4, 3, 2], &[], &[1]], 0),
    Row(
        7,
        &[],
        Answer::Evict(2),
        [&[7], &[6, 5, 4, 3], &[], &[2, 1]],
        0,
    ),
    Row(
        8,
        &[],
        Answer::Evict(7),
        [&[8], &[6, 5, 4, 3], &[7], &[2, 1]],
        0,
    ),
    Row(
        9,
        &[],
        Answer::Evict(8),
        [&[9], &[6, 5, 4, 3], &[8, 7], &[2, 1]],
        0,
    ),
    Row(
        10,
        &[],
        Answer::Evict(9),
        [&[10], &[6, 5, 4, 3], &[9, 8, 7], &[2, 1]],
        0,
    ),
    Row(
        8,
        &[],
        Answer::Evict(3),
        [&[10], &[8, 6, 5, 4], &[9, 7], &[3, 2, 1]],
        1,
    ),
    Row(
        7,
        &[],
        Answer::Evict(4),
        [&[10], &[7, 8, 6, 5], &[9], &[4, 3, 2, 1]],
        2,
    ),
    Row(
        9,
        &[],
        Answer::Evict(5),
        [&[10], &[9, 7, 8, 6], &[], &[5, 4, 3, 2, 1]],
        5,
    ),
    Row(
        11,
        &[9, 7, 8, 6],
        Answer::Evict(10),
        [&[11], &[9, 7, 8, 6], &[10], &[5, 4, 3, 2]],
        5,
    ),
    Row(
        12,
        &[9, 7, 8, 6],
        Answer::Evict(11),
        [&[12], &[9, 7, 8, 6], &[11, 10], &[5, 4, 3]],
        5,
    ),
    Row(
        13,
        &[9, 7, 8, 6],
        Answer::Evict(12),
        [&[13], &[9, 7, 8, 6], &[12, 11, 10], &[5, 4]],
        5,
    ),
    Row(
        4,
        &[],
        Answer::Evict(6),
        [&[13], &[4, 9, 7, 8], &[12, 11, 10], &[6, 5]],
        4,
    ),
];

#[test]
fn quotients_are_rounded_down(rt: HostRuntime) -> Result<(), Fail> {
    let mut directory = Directory::new(rt.alloc(), 5, 64)?;
    follow(&rt, &mut directory, &QUOTIENTS)?;
    Ok(())
}

/// Brings the victim back where that may be asked, and says whether it may.
fn bring_back(directory: &mut Directory, search: &mut Search, page: u32, victim: u32) -> bool
    requires { 16 ≤ directory.old.pages }
    ensures { directory.new.pages ≡ directory.old.pages }
{
    let victim = victim % 16;
    if !is_cached(directory, page) || is_cached(directory, victim) {
        return false;
    }
    directory.bring_back(page, victim, search);
    true
}

fn is_cached(directory: &Directory, page: u32) -> bool
    ensures { result ≡ is_cached directory.now page }
{
    matches!(directory.place(page), Some(List::T1) | Some(List::T2))
}

/// A directory of 16 pages and the plain program.
#[derive(Drop)]
struct Pair {
    alloc: Global,
    directory: Directory,
    plain: Lists,
    ghost wide: { directory.pages ≡ 16 },
}

impl Pair {
    fn new(alloc: Global, c: u32) -> Result<Self, AllocError> {
        let directory = Directory::new(alloc, c.max(1), 16)?;
        let plain = Lists::new(alloc, c.max(1));
        Ok(Pair {
            alloc,
            directory,
            plain,
        })
    }

    /// Asks both for the page, and says what they answer if it is the same.
    fn ask(&mut self, page: u32, busy: &[u32]) -> Result<Option<Answer>, AllocError> {
        let mut search = Search::new(self.alloc, self.directory.size(), 16)?;
        let answer = self.directory.request(page % 16, &mut search, &Among(busy));
        let other = self.plain.request(page % 16, busy)?;
        Ok(if answer == other { Some(answer) } else { None })
    }

    fn forget(&mut self, page: u32) -> Result<(), AllocError> {
        let mut search = Search::new(self.alloc, self.directory.size(), 16)?;
        self.directory.forget(page, &mut search);
        self.plain.forget(page);
        Ok(())
    }

    fn bring_back(&mut self, page: u32, victim: u32) -> Result<bool, AllocError> {
        self.plain.bring_back(page, victim)?;
        let mut search = Search::new(self.alloc, self.directory.size(), 16)?;
        Ok(bring_back(&mut self.directory, &mut search, page, victim))
    }

    /// Whether both have the same lists and the same target.
    fn agrees(&self) -> bool {
        let plain = &self.plain;
        let lists = [
            plain.t1.as_slice(),
            plain.t2.as_slice(),
            plain.b1.as_slice(),
            plain.b2.as_slice(),
        ];
        has(&self.directory, lists, plain.target)
    }

    /// Which of the lists were met: those that were met before, and those that have a page now.
    fn met(&self, before: [bool; 4]) -> [bool; 4] {
        let directory = &self.directory;
        [
            before[0] || directory.len(List::T1) > 0,
            before[1] || directory.len(List::T2) > 0,
            before[2] || directory.len(List::B1) > 0,
            before[3] || directory.len(List::B2) > 0,
        ]
    }
}

/// Each request is of page `s % 7`. At the first one `s` is 0, and then it is `(5 * s + 3) % 16` each time. The requests
/// meet all four lists.
#[test]
fn a_thousand_requests_while_a_page_is_busy(rt: HostRuntime) -> Result<(), Fail> {
    let mut pair = Pair::new(rt.alloc(), 3)?;
    let mut met = [false; 4];
    let mut s: u32 = 0;
    for count in 0..1000u32 {
        let answer = pair.ask(s % 7, &[3])?;
        assert!(rt; answer.is_some() && pair.agrees(), "request {count}");
        met = pair.met(met);
        s = (s % 16 * 5 + 3) % 16;
    }
    assert!(rt; met == [true; 4], "a list was never met: {met:?}");
    Ok(())
}

/// All pages below 16 are busy but those that leave this remainder by 4.
static ALL_BUT: [[u32; 12]; 4] = [
    [1, 2, 3, 5, 6, 7, 9, 10, 11, 13, 14, 15],
    [0, 2, 3, 4, 6, 7, 8, 10, 11, 12, 14, 15],
    [0, 1, 3, 4, 5, 7, 8, 9, 11, 12, 13, 15],
    [0, 1, 2, 4, 5, 6, 8, 9, 10, 12, 13, 14],
];

/// One request to both programs, and now and then a page forgotten, or a victim brought back.
fn turn(pair: &mut Pair, seed: u32) -> Result<bool, AllocError> {
    let page = (seed >> 16) % 16;
    let busy = &ALL_BUT[(seed >> 24) as usize % 4];
    match pair.ask(page, busy)? {
        Some(Answer::Evict(victim)) if seed >> 30 == 0 => pair.bring_back(page, victim),
        Some(Answer::Hit) if seed >> 30 == 1 => {
            pair.forget(page)?;
            Ok(true)
        }
        answer => Ok(answer.is_some()),
    }
}

#[test]
fn most_pages_are_busy_and_some_come_back(rt: HostRuntime) -> Result<(), Fail> {
    let mut pair = Pair::new(rt.alloc(), 5)?;
    let mut seed: u32 = 1;
    for count in 0..4000u32 {
        seed = seed.wrapping_mul(1_664_525).wrapping_add(1_013_904_223);
        assert!(rt; turn(&mut pair, seed)? && pair.agrees(), "request {count}");
    }
    Ok(())
}

/// A directory of the largest pool is made, and answers.
#[test]
fn memory_is_there(rt: HostRuntime) -> Result<(), Fail> {
    let mut directory = Directory::new(rt.alloc(), 4096, 65536)?;
    let mut search = Search::new(rt.alloc(), 4096, 65536)?;
    assert!(rt; directory.request(65535, &mut search, &Among(&[])) == Answer::Free);
    directory.forget(65535, &mut search);
    assert!(rt; directory.place(65535).is_none() && directory.after(65536).is_none());
    Ok(())
}

/// The pages below 60 are busy. It counts how often a page is looked at.
#[derive(Drop)]
struct Counted {
    looks: AtomicU64,
}

impl Busy for Counted {
    ghost busy = { λ counted page. nat_lt page 60 };

    fn is_busy(&self, page: u32) -> bool {
        self.looks.fetch_add(1, Ordering::SeqCst);
        page < 60
    }
}

/// Asks for the pages below 1,064, each a second time where that is wanted, and says how many of them had a victim.
fn victims(directory: &mut Directory, search: &mut Search, busy: &Counted, twice: bool) -> u32
    requires pages { directory.old.pages ≡ 2048 }
    requires knows { KnowsBusy directory.old search.old (λ page. nat_lt page 60) }
{
    let mut count: u32 = 0;
    for page in 0..1064 {
        if matches!(directory.request(page, search, busy), Answer::Evict(_)) {
            count = count.wrapping_add(1);
        }
        if twice {
            let _hit = directory.request(page, search, busy);
        }
    }
    count
}

/// How many victims there are where 64 pages are cached, and how often a page is looked at for them.
fn looks(alloc: Global, twice: bool) -> Result<(u32, u64), AllocError> {
    let mut directory = Directory::new(alloc, 64, 2048)?;
    let mut search = Search::new(alloc, 64, 2048)?;
    let busy = Counted {
        looks: AtomicU64::new(0),
    };
    let victims = victims(&mut directory, &mut search, &busy, twice);
    Ok((victims, busy.looks.load(Ordering::SeqCst)))
}

/// Of 64 pages 60 stay busy while a thousand others come in: each of the 60 is looked at once, and each victim twice at most,
/// whether pages stand in `T1` or, asked for twice, in `T2`.
#[test]
fn a_busy_page_is_looked_at_once(rt: HostRuntime) -> Result<(), Fail> {
    for twice in [false, true] {
        let (victims, looks) = looks(rt.alloc(), twice)?;
        assert!(rt;
            victims == 1000 && looks <= 2060,
            "{victims} victims by {looks} looks"
        );
    }
    Ok(())
}
