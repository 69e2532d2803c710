//! What a call answers.

ghost use Rattle.std.specs.Prelude.{◌≡◌};
ghost use Rattle.pp_cache_c.specs.Calls.{code};

/// What a call answers, to C as a number.
#[derive(Clone, Copy, Debug, PartialEq, Eq)]
pub enum Status {
    /// The call did its work.
    Done,
    /// The page was in a frame already.
    Hit,
    /// The page is in a frame from now on, which has no bytes of it yet.
    New,
    /// The page is in no frame.
    Nothing,
    /// The handle holds no cache.
    NoCache,
    /// Memory couldn't be had, or the key is too great. No page has changed.
    NoRoom,
    /// An argument says nothing: a size of 0, or an unknown way to create. Nothing has changed.
    BadArgument,
}

impl Status {
    /// The number that C sees.
    pub fn code(self) -> u32
        ensures value { result ≡ code self }
    {
        match self {
            Status::Done => 0,
            Status::Hit => 1,
            Status::New => 2,
            Status::Nothing => 3,
            Status::NoCache => 4,
            Status::NoRoom => 5,
            Status::BadArgument => 6,
        }
    }
}
