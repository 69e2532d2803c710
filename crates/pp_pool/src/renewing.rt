//! Renewing a book that is at rest.

ghost use Rattle.std.specs.Prelude.{◌≡◌, ◌*◌, ◌≤◌, [], Some, IfOk, IfErr, OnOk, OnErr};
ghost use Rattle.pp_model.specs.Renewing.{renew_error, renewed};
ghost use Rattle.pp_outset.specs.Outsets.{outset_of};
ghost use Rattle.pp_vault.specs.Renewals.{Renews};
ghost use Rattle.pp_model.specs.Lives.{IsLife};
ghost use Rattle.pp_pool.specs.Parts.{settings_of, plans_of, opening_of, state_of};
ghost use Rattle.pp_pool.specs.Books.{IsBook, HeadlineHolds};
ghost use Rattle.pp_pool.specs.Renewals.{IsRenewCause, HasLifeRoom, HadLifeRoom};

use crate::book::Book;
use crate::error::BookRenewError;
use pp_journal::Journal;
use pp_model::RenewError;

impl Book {
    /// Ends the life of a book at rest, gives its journal, and begins the next life. The vault is renewed
    /// ([`pp_vault::Vault::renew`]): 256 plans may be submitted again, numbered from 0, and all flushes may begin again. What is
    /// cached, which pages are dirty, and every known mark stay. The tokens of the life that is over, which are chairs, are those
    /// of the next.
    ///
    /// The empty journal becomes that of the next life; what stands in it is let go first. It gets room for twice the flushes,
    /// before anything is given away. The journal that comes back keeps its room, and a book's journal always has that much. So
    /// two journals serve in turn with no memory more, and one can be written down while the other fills.
    ///
    /// The plans and the journal of the life that is over are a whole life of the pool, as an audit of lives wants them. Such an
    /// audit begins with the first life: a later journal isn't audited without those before it.
    ///
    /// The outset of the next life ([`Book::began`]) is copied: some 32 bytes for each page number.
    ///
    /// # Errors
    ///
    /// [`BookRenewError::OutOfMemory`] where that room can't be had; else [`BookRenewError::Refused`] with what the core refuses:
    /// that a plan waits, a worker isn't idle or a flush is in flight, or that a mark is 2^63 or more. Then what was
    /// given comes back, empty, and the book is as it was.
    pub fn renew(&mut self, empty: Journal) -> Result<Journal, (Journal, BookRenewError)>
        ensures journal { IfOk result (λ told. told.items ≡ self.old.journal) }
        ensures fresh { OnOk result ((self.new.journal ≡ []) × (plans_of self.new ≡ [])
            × (settings_of self.new ≡ settings_of self.old)) }
        ensures outset { OnOk result (self.new.began ≡ outset_of (state_of self.old)) }
        ensures state { OnOk result (state_of self.new ≡ renewed (state_of self.old)) }
        ensures vault { OnOk result (Renews self.old.vault self.new.vault) }
        ensures life { OnOk result (IsLife (opening_of self.old)
            (record { plans = plans_of self.old; journal = self.old.journal })) }
        ensures spare { IfOk result (λ told. told.capacity ≡ self.old.capacity) }
        ensures memory { OnOk result (HasLifeRoom self.new self.new.capacity) }
        // The journal that fills from now on has no less room than it came with.
        ensures no_less { OnOk result (empty.capacity ≤ self.new.capacity) }
        ensures error { IfErr result (λ e. IsRenewCause self.old (empty.capacity) e.1) }
        ensures room { IfErr result (λ e. HadLifeRoom self.old (e.0.capacity) e.1) }
        ensures back { IfErr result (λ e. e.0.items ≡ []) }
        ensures returned { IfErr result (λ e. empty.capacity ≤ e.0.capacity) }
        ensures unchanged { OnErr result (self.new ≡ self.old) }
        ensures kept { IsBook self.new }
        ensures headline { HeadlineHolds self.new }
    {
        let mut empty = empty;
        empty.clear();
        let room = 2 * self.flushes as usize;
        if empty.reserve(room).is_err() {
            return Err((empty, BookRenewError::OutOfMemory));
        }
        match self.begin_anew(empty) {
            Ok(journal) => Ok(journal),
            Err((empty, error)) => Err((empty, BookRenewError::Refused(error))),
        }
    }

    /// The journal of the present life: all events, the first one first.
    pub fn journal(&self) -> &Journal
        ensures items { result.now.items ≡ self.now.journal }
        ensures capacity { result.now.capacity ≡ self.now.capacity }
    {
        &self.journal
    }

    /// Begins the next life with an empty journal that has room for it.
    fn begin_anew(&mut self, empty: Journal) -> Result<Journal, (Journal, RenewError)>
        requires empty { empty.items ≡ [] }
        requires room { HasLifeRoom self.old (empty.capacity) }
        ensures journal { IfOk result (λ told. told.items ≡ self.old.journal) }
        ensures fresh { OnOk result ((self.new.journal ≡ []) × (plans_of self.new ≡ [])
            × (settings_of self.new ≡ settings_of self.old)) }
        ensures outset { OnOk result (self.new.began ≡ outset_of (state_of self.old)) }
        ensures state { OnOk result (state_of self.new ≡ renewed (state_of self.old)) }
        ensures vault { OnOk result (Renews self.old.vault self.new.vault) }
        ensures life { OnOk result (IsLife (opening_of self.old)
            (record { plans = plans_of self.old; journal = self.old.journal })) }
        ensures spare { IfOk result (λ told. told.capacity ≡ self.old.capacity) }
        ensures memory { OnOk result (HasLifeRoom self.new self.new.capacity) }
        ensures takes { OnOk result (self.new.capacity ≡ empty.capacity) }
        ensures error { IfErr result (λ e. renew_error (state_of self.old) ≡ Some e.1) }
        ensures back { IfErr result (λ e. e.0 ≡ empty) }
        ensures unchanged { OnErr result (self.new ≡ self.old) }
        ensures kept { IsBook self.new }
    {
        match self.vault.renew() {
            Err(error) => Err((empty, error)),
            Ok(()) => {
                self.began.leave(self.vault.core());
                self.most = 0;
                Ok(std::mem::replace(&mut self.journal, empty))
            }
        }
    }
}
