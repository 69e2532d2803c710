//! A pool between two runs.

ghost use Rattle.std.specs.Prelude.{◌≡◌, IfOk, IfErr};
ghost use Rattle.pp_core.specs.Opening.{kept_of};
ghost use Rattle.pp_model.specs.Pool.{dirty_pages};
ghost use Rattle.pp_settings.specs.declared.span.Span.TheVariants.{Bounded};
ghost use Rattle.pp_model.specs.Reached.{IsReached};
ghost use Rattle.pp_outset.specs.Outsets.{new_outset};
ghost use Rattle.pp_run.specs.Rested.{opening_of};
ghost use Rattle.pp_run.specs.declared.error.RunError.TheVariants as run_errors;

use crate::error::RunError;
use pp_outset::Outset;
use pp_pool::Book;
use pp_settings::{Layout, Settings};
use pp_vault::Hands;
use std::alloc::Global;
use std::marker::Model;

/// A pool between two runs: no plan waits or runs, and no flush is in flight. What it has cached, ARC's lists and target, which
/// pages are dirty, and every known mark are there for the next run ([`Pool::run`]).
///
/// Contracts see it as the record `Rested`: its settings, the bytes of a page, what its next life begins with, and the
/// page number from which the next run's first flush is sought.
///
/// The compiler refuses code that lets it fall: its dirty pages are nowhere else. [`Pool::close`] gives it up.
pub struct Pool {
    pub(crate) book: Book,
    pub(crate) hands: Hands,
    pub(crate) layout: Layout,
    pub(crate) page_bytes: u32,
    // The page number from which the next run's first flush is sought: where the flusher of the run before has come.
    pub(crate) from: u32,
}

impl Model for Pool {
    ghost use Rattle.pp_run.specs.Rested.{Rested, rested_in, IsRested};

    ghost Value = { Rested };

    ghost view = { λ p. rested_in p.book p.page_bytes p.from };

    ghost invariant = { λ p. IsRested p.book p.hands p.layout p.page_bytes };
}

impl Pool {
    /// A pool with these settings, whose lives are bounded ([`Settings::see_bounded`]), in which nothing was done yet. It gets
    /// all memory that its vault ever needs, and room in the journal for twice the flushes.
    ///
    /// # Errors
    ///
    /// [`RunError::OutOfMemory`] where that memory can't be had.
    pub fn open(alloc: Global, settings: &Settings) -> Result<Pool, RunError>
        requires { settings.now.span ≡ Bounded }
        ensures settings { IfOk result (λ pool. pool.settings ≡ kept_of settings.now) }
        ensures page_bytes { IfOk result (λ pool. pool.page_bytes ≡ settings.now.page_bytes) }
        ensures outset { IfOk result (λ pool. pool.began ≡ new_outset (kept_of settings.now)) }
        ensures from { IfOk result (λ pool. pool.from ≡ 0) }
        ensures error { IfErr result (λ e. e ≡ run_errors.OutOfMemory) }
    {
        let (book, hands) = Book::new(alloc, settings)?;
        let pool = Pool {
            book,
            hands,
            layout: settings.layout(),
            page_bytes: settings.page_bytes(),
            from: 0,
        };
        Ok(pool)
    }

    /// Does nothing. It tells that the opening state of the pool's next life can be reached, and that its lives are bounded.
    pub fn known(&self)
        ensures opens { IsReached (opening_of self.now) }
        ensures bounded { self.now.settings.span ≡ Bounded }
    {
        self.book.known();
    }

    /// How many workers it has: so many works, and one more device, are wanted for a run.
    pub fn workers(&self) -> u32
        ensures { result ≡ self.now.settings.workers }
    {
        self.book.workers()
    }

    /// How many flushes may begin in its next life.
    pub fn flushes(&self) -> u32
        ensures { result ≡ self.now.settings.flushes }
    {
        self.book.flushes()
    }

    /// How many pages are newer than the device's.
    pub fn dirty(&self) -> u32
        ensures { result ≡ dirty_pages (opening_of self.now) }
    {
        self.book.dirty()
    }

    /// What its next life begins with besides its settings.
    pub fn began(&self) -> &Outset
        ensures { result.now ≡ self.now.began }
    {
        self.book.began()
    }

    /// Gives the pool up, and answers how many pages were newer than the device's: what was changed in them is lost.
    pub fn close(self) -> u32
        ensures { result ≡ dirty_pages (opening_of self) }
    {
        let Pool {
            book,
            hands,
            layout: _,
            page_bytes: _,
            from: _,
        } = self;
        let dirty = book.dirty();
        book.close(hands);
        dirty
    }
}
