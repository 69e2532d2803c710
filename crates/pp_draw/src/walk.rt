//! The walk over a journal: each line is audited, and the core is looked at behind the last line of each column.

ghost use Rattle.std.specs.Prelude.{◌≡◌, ◌≤◌, ◌+◌, ℕ, [], IfOk, IfErr, OnOk, true};
ghost use Rattle.pp_settings.specs.declared.span.Span.TheVariants.{Bounded};
ghost use Rattle.pp_text.specs.Steps.{Gives};
ghost use Rattle.pp_report.specs.Auditing.{Progress, auditing_from, outset};
ghost use Rattle.pp_report.specs.Auditors.{IsAt};
ghost use Rattle.pp_report.specs.Journals.{journal_lines};
ghost use Rattle.pp_report.specs.declared.figure.Figure.{Figure};
ghost use Rattle.pp_report.specs.Refusals.{is_audit_memory};
ghost use Rattle.pp_model.specs.Pool.{State};
ghost use Rattle.pp_core.specs.StandsFor.{StandsFor};
ghost use Rattle.pp_draw.specs.Columns.{Shows};
ghost use Rattle.pp_draw.specs.Counted.{AreTotals, total_of, turns_from};
ghost use Rattle.pp_draw.specs.Drawing.{AreDrawn, ends_column};
ghost use Rattle.pp_draw.specs.Walks.{Adds, Counts, Passed};

use crate::column::{Column, lengths_of, pages_in, workers_of};
use crate::extent::Extent;
use crate::share::Shares;
use crate::tally::Tally;
use pp_cert::Accepted;
use pp_core::Core;
use pp_report::{AuditError, Auditor, first_line};
use pp_settings::Settings;
use std::alloc::{AllocError, Global};

/// How far a walk has come.
#[derive(Drop)]
pub struct Walk {
    pub(crate) auditor: Auditor,
    pub(crate) columns: Vec<Column>,
    pub(crate) tally: Tally,
    /// Of the lines since the last column.
    shares: Shares,
}

impl Walk {
    /// Nothing was walked over yet.
    pub(crate) fn new(
        alloc: Global,
        settings: &Settings,
        plans: Vec<Accepted>,
    ) -> Result<Walk, AuditError>
        requires { settings.now.span ≡ Bounded }
        ensures outset { IfOk result (λ walk. IsAt walk.auditor (outset settings.now plans.items)) }
        ensures empty { IfOk result (λ walk. walk.columns.items ≡ []) }
        ensures totals { IfOk result (λ walk. (f : Figure) → total_of walk.tally.totals f ≡ 0) }
        ensures turns { IfOk result (λ walk. walk.tally.turns.items ≡ []) }
        ensures memory { IfErr result (λ error. is_audit_memory error ≡ true) }
    {
        let auditor = Auditor::new(alloc, settings, plans)?;
        Ok(Walk {
            auditor,
            columns: Vec::new(alloc),
            tally: Tally::new(alloc),
            shares: Shares::none(alloc, settings.workers())?,
        })
    }

    /// Walks over the lines of the journal, and answers how many there are.
    pub(crate) fn pass_all(
        &mut self,
        alloc: Global,
        extent: &Extent,
        journal: &[u8],
    ) -> Result<u64, AuditError>
        requires columns { self.old.columns.items ≡ [] }
        requires totals { (f : Figure) → total_of self.old.tally.totals f ≡ 0 }
        requires turns { self.old.tally.turns.items ≡ [] }
        ensures exact { (p : Progress) → IsAt self.old.auditor p
            → Gives is_audit_memory (λ lines. lines) result (auditing_from p 0 (journal_lines journal.now)) }
        ensures drawn { (p : Progress) → IsAt self.old.auditor p
            → OnOk result (AreDrawn extent.now p 0 (journal_lines journal.now) self.new.columns.items) }
        ensures totals { OnOk result (AreTotals self.new.tally.totals (journal_lines journal.now)) }
        ensures turns { OnOk result (self.new.tally.turns.items ≡ turns_from 1 (journal_lines journal.now)) }
    {
        let mut lines = 0;
        let mut left = journal;
        while !left.is_empty() {
            let (text, rest) = first_line(left);
            lines += 1;
            let ends = ends_column(extent.width, lines, rest);
            self.pass(alloc, extent, lines, text, ends)?;
            left = rest;
        }
        if !self.auditor.is_over() {
            return Err(AuditError::Unfinished);
        }
        Ok(lines)
    }

    /// Walks over a line, and looks at the core where it ends a column.
    fn pass(
        &mut self,
        alloc: Global,
        extent: &Extent,
        number: u64,
        text: &[u8],
        ends: bool,
    ) -> Result<(), AuditError>
        requires { (f : Figure) → total_of self.old.tally.totals f + 1 ≤ number }
        ensures passed { (p : Progress) → IsAt self.old.auditor p
            → Passed extent.now ends number p text.now self.old self.new result }
        ensures counted { OnOk result (Counts number text.now self.old.tally self.new.tally) }
    {
        self.auditor.pass_text(number, text)?;
        self.tally.note(number, text)?;
        self.note_shares(extent);
        if ends {
            self.add_column(alloc, extent, number)?;
        }
        Ok(())
    }

    /// Counts what workers and the flusher are at behind a line, where a column stands for several.
    fn note_shares(&mut self, extent: &Extent)
        ensures auditor { self.new.auditor ≡ self.old.auditor }
        ensures columns { self.new.columns ≡ self.old.columns }
        ensures tally { self.new.tally ≡ self.old.tally }
    {
        if extent.width > 1 {
            self.shares.note(self.auditor.core());
        }
    }

    /// Adds the column that ends with the line of this number.
    fn add_column(&mut self, alloc: Global, extent: &Extent, number: u64) -> Result<(), AllocError>
        ensures auditor { self.new.auditor ≡ self.old.auditor }
        ensures tally { self.new.tally ≡ self.old.tally }
        ensures added { OnOk result ((p : Progress) → IsAt self.old.auditor p
            → Adds extent.now number p.state self.old.columns.items self.new.columns.items) }
    {
        let shares = self.shares.taken(alloc)?;
        let column = column_at(alloc, self.auditor.core(), extent, number, shares)?;
        self.columns.push(column)?;
        Ok(())
    }
}

/// The column of what there is in the core.
fn column_at(
    alloc: Global,
    core: &Core,
    extent: &Extent,
    line: u64,
    shares: Shares,
) -> Result<Column, AllocError>
    ensures line { IfOk result (λ column. column.line ≡ line) }
    ensures shows { IfOk result (λ column. (s : State) → StandsFor core.now s
        → Shows extent.now.workers extent.now.drawn.items column s) }
{
    Ok(Column {
        line,
        workers: workers_of(alloc, core, extent.workers)?,
        flushed: core.flushing(),
        dirty: core.dirty(),
        lengths: lengths_of(core.directory()),
        pages: pages_in(alloc, core.marks(), &extent.drawn)?,
        shares,
    })
}

/// Whether a column of so many lines ends with the line of this number, behind which this text follows.
fn ends_column(width: u64, number: u64, rest: &[u8]) -> bool
    requires { 1 ≤ width }
    ensures { result ≡ ends_column width number (journal_lines rest.now) }
{
    number % width == 0 || rest.is_empty()
}
