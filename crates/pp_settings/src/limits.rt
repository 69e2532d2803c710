//! The limits that more than one crate needs: of settings, plans and lives. Each stands here once, with why it is so and
//! what it reaches. Definitions know them by the same names, in specs/Limits.antt.

// ---- settings

/// The most frames that a pool has: by the format (docs/formats.md). A bundle pins so many pages at most, and pp_cert stops
/// counting one past that.
pub const MOST_FRAMES: u32 = 16_777_216;

/// The fewest bytes of a page: the head of an image, and a body behind it. A work is promised so many bytes of an image
/// (pp_pool, pp_buffer_pool).
pub const FEWEST_PAGE_BYTES: u32 = 64;

/// The most bytes of a page: by the format. A frame, and each copy of a page, takes so much memory at once.
pub const MOST_PAGE_BYTES: u32 = 1_048_576;

/// The most workers that a pool has: by the format. A core has a seat for each, and a stack of a bundle's pages for each of
/// its slots.
pub const MOST_WORKERS: u32 = 1_024;

/// The most submitted plans that wait at a time, in an endless life: by the format. A core keeps a place for each, of 4
/// bytes.
pub const MOST_WAITING: u32 = 1_048_576;

/// The most flushes that one bounded life may begin: by the format. Each counts as two events of [`MOST_BOUNDED_EVENTS`], so
/// all of them take a twentieth at most.
pub const MOST_FLUSHES: u64 = 100_000;

/// The most flushes that an endless life may begin, 2^59: each counts as two events, so all of them take half of
/// [`MOST_ENDLESS_EVENTS`].
pub const MOST_ENDLESS_FLUSHES: u64 = 576_460_752_303_423_488;

/// The most regions: by the format. A layout has a place for each, so that it is copied without taking memory.
pub const MOST_REGIONS: usize = 64;

/// How many page numbers there are: pages are numbered below it. pp_arc numbers its records by 32 bits, and keeps four
/// besides one for each page. Keys of pp_cache, which sees no settings, have the same limit.
pub const PAGE_NUMBERS: u32 = 4_294_967_292;

/// The greatest class, so that there may be as many classes as regions.
pub const GREATEST_CLASS: u32 = 63;

/// The most bytes of a region's name: by the format. Settings keep the names, so all of them take 2,048 bytes at most.
pub const LONGEST_NAME: usize = 32;

// ---- settings of version 1: what these texts are answered never changes, so neither do their limits

/// The most frames in a text of version 1: as it always was. In such a pool no event of a journal needs more than 16 bytes.
pub const FIRST_FRAMES: u32 = 4_096;

/// The most bytes of a page in a text of version 1: as it always was.
pub const FIRST_PAGE_BYTES: u32 = 65_536;

/// The most workers in a text of version 1: as it always was. A run compares so many logs in one pass (pp_run).
pub const FIRST_WORKERS: u32 = 32;

/// How many page numbers there are in a text of version 1: as it always was.
pub const FIRST_PAGE_NUMBERS: u32 = 65_536;

// ---- settings of version 2

/// The fewest bytes of a page in a text of version 2: by the format.
pub const SECOND_PAGE_BYTES: u32 = 512;

// ---- plans

/// The most statements of a plan, those inside others among them: by the format. The time of the check grows with them
/// (docs/costs.md). pp_plan counts them, and pp_explain_text says so.
pub const MOST_STATEMENTS: u32 = 4_096;

/// How deep statements stand inside each other at most: by the format. Functions that go over bodies call themselves so
/// deep, in pp_plan and pp_explain, and a cursor keeps an entry for each (pp_cursor).
pub const MOST_DEPTH: u8 = 16;

/// The most slots that a plan names: by the format. A seat (pp_core) and a hand's guards (pp_vault) are arrays with a place
/// for each, so that a move takes no memory; a core has so many stacks of bundles for each worker; and a leaving worker has
/// so many to give back.
pub const MOST_SLOTS: u8 = 32;

/// The most events that a journal has for one step of a plan: a fix, the end of its victim's writing, and that of its
/// reading. Plans' costs and the bound on the moves that are left count so (pp_cert, pp_model, pp_core, pp_explain).
pub const STEP_EVENTS: u64 = 3;

/// The most events that a journal has for a plan besides: the take, an unwind for each of [`MOST_SLOTS`], and the finish.
pub const PLAN_EVENTS: u64 = 34;

// ---- lives

/// The most plans that a bounded life takes in: by the format. A core gets room for all of them as it opens, and refuses the
/// next (pp_core, pp_run, pp_explain).
pub const MOST_PLANS: usize = 256;

/// The most plans that a core keeps for an endless life: by the format. Room for all of them is got as it opens, and none is
/// let go.
pub const MOST_PREPARED: usize = 4_096;

/// The most events besides submits of a bounded life, by the plans' costs and two for each flush: by the format. A book gets
/// memory for all that can still come, 64 bytes each (pp_journal). pp_core and pp_run refuse the plan that leads past it.
pub const MOST_BOUNDED_EVENTS: u64 = 4_000_000;

/// The most events besides submits of an endless life: no life comes to it, since it would take 73 years at a thousand
/// million a second. By it no mark comes near 2^64, and sums of bounds fit 64 bits.
pub const MOST_ENDLESS_EVENTS: u64 = 1 << 61;

// ---- marks

/// A page's first known mark is below this: where none is known, an image with this stamp or a greater one is a misreading.
/// So no device brings a mark to [`MARK_LIMIT`] by one lie (pp_model, pp_core).
pub const STAMP_LIMIT: u64 = 1 << 62;

/// The known marks of a pool that is renewed are below this. A life raises a mark by [`MOST_ENDLESS_EVENTS`] at most, so
/// none comes near 2^64 (pp_model, pp_core).
pub const MARK_LIMIT: u64 = 1 << 63;

// ---- threads

/// How many bells there are for workers to sleep on: a call tells whom it helps by a bit for each, in a word of 32 bits
/// (pp_wants). More workers share bells in pp_run; a hall has no more workers (pp_hall), so each has its own.
pub const BELLS: u32 = 32;
