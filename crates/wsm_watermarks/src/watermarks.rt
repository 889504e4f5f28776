//! The watermark that follows the time that clocks agree on.

ghost use Rattle.std.specs.Prelude.{◌≡◌, ◌+◌, ◌-◌, ◌*◌, ◌/◌, ◌<◌, ◌≤◌, [], ◌∷◌, List, IfOk, length, max};
ghost use Rattle.wsm_watermarks.specs.declared.stamp.Stamp.{Stamp as AnyStamp};
ghost use Rattle.wsm_watermarks.specs.Agreement.{agreed, behind, raised_by, tellers, voices};
ghost use Rattle.wsm_watermarks.specs.Held.{mark_for};
ghost use Rattle.wsm_watermarks.specs.Table.{speaking};
ghost use Rattle.wsm_watermarks.specs.Watermarks.{FitsMarks, come_to};

use crate::clocks::{Clocks, MOST_AGREEING};
use crate::rule::Rule;
use crate::stamp::Stamp;
use crate::table::{MOST_CLOCKS, MOST_STAMPS, Said, Table};
use std::alloc::{AllocError, Global};
use std::marker::Model;

/// The watermark after the stamps so far.
///
/// A stamp costs the same however many clocks there are, unless as many as have to agree tell a time
/// that may raise the watermark, or did: then all clocks are looked at.
#[derive(Drop)]
pub struct Watermarks {
    table: Table,
    clocks: Clocks,
    rule: Rule,
    mark: u64,
}

impl Model for Watermarks {
    ghost use Rattle.std.specs.Prelude.{◌≡◌, ◌<◌, ◌≤◌, ◌-◌, ◌+◌, ◌*◌, ◌/◌};
    ghost use Rattle.wsm_watermarks.specs.Watermarks.{Marking};

    ghost Value = { Marking };

    ghost view = { λ a. record { table = a.table; rule = a.rule; mark = a.mark } };

    ghost invariant = { λ a. (a.clocks.most ≡ a.rule.agree) × (0 < a.rule.agree) × (0 < a.rule.step)
        × (a.table.since ≤ (a.table.heard - a.rule.forget))
        × (a.table.need ≤ (a.mark / a.rule.step * a.rule.step + a.rule.step + a.rule.bound)) };
}

impl Watermarks {
    /// The watermark before the first stamp, for so many clocks, numbered from 0. No later call takes
    /// memory.
    ///
    /// # Errors
    ///
    /// Memory was refused.
    pub fn open(alloc: Global, clocks: usize, rule: Rule) -> Result<Watermarks, AllocError>
        requires clocks { clocks ≤ MOST_CLOCKS }
        requires some { 0 < rule.agree }
        requires few { rule.agree ≤ MOST_AGREEING }
        requires step { 0 < rule.step }
        ensures rule { IfOk result (λ marks. marks.rule ≡ rule) }
        ensures clocks { IfOk result (λ marks. length marks.table.said ≡ clocks) }
        ensures fits { IfOk result (λ marks. FitsMarks marks []) }
    {
        Ok(Watermarks {
            table: Table::open(alloc, clocks, need_after(rule, rule.start))?,
            clocks: Clocks::open(alloc, rule.agree)?,
            rule,
            mark: rule.start,
        })
    }

    /// The watermark that another has come to by a rule: of each clock its last stamp, how many stamps have come, and
    /// where it is. No later call takes memory.
    ///
    /// # Errors
    ///
    /// Memory was refused.
    pub fn resume(
        alloc: Global,
        said: Vec<Option<Said>>,
        heard: u64,
        mark: u64,
        rule: Rule,
    ) -> Result<Watermarks, AllocError>
        requires clocks { length said.items ≤ MOST_CLOCKS }
        requires some { 0 < rule.agree }
        requires few { rule.agree ≤ MOST_AGREEING }
        requires step { 0 < rule.step }
        ensures rule { IfOk result (λ marks. marks.rule ≡ rule) }
        ensures clocks { IfOk result (λ marks. length marks.table.said ≡ length said.items) }
        ensures fits { (past : List AnyStamp) → FitsMarks (come_to said.items heard mark rule) past → IfOk result (λ marks. FitsMarks marks past) }
    {
        let since = heard.saturating_sub(rule.forget);
        Ok(Watermarks {
            table: Table::resume(said, heard, since, need_after(rule, mark)),
            clocks: Clocks::open(alloc, rule.agree)?,
            rule,
            mark,
        })
    }

    /// Of each clock its last stamp, by which another goes on.
    pub fn said(&self) -> &[Option<Said>]
        ensures { result.now ≡ self.now.table.said }
    {
        self.table.said()
    }

    /// The watermark.
    pub fn mark(&self) -> u64
        ensures { result ≡ self.now.mark }
    {
        self.mark
    }

    /// The watermark in front of a row that waited, where `told` is the last that was told: the one that the row's time alone
    /// would raise, as far as clocks agree.
    pub fn mark_for(&self, told: u64, time: u64) -> u64
        ensures { result ≡ mark_for self.now.rule self.now.mark told time }
    {
        told.max(self.mark.min(mark_behind(self.rule, Some(time))))
    }

    /// How many clocks there are.
    pub fn clocks(&self) -> usize
        ensures { result ≡ length self.now.table.said }
    {
        self.table.clocks()
    }

    /// How many stamps have come.
    pub fn heard(&self) -> u64
        ensures { result ≡ self.now.table.heard }
    {
        self.table.heard()
    }

    /// How many clocks speak: those whose last stamp is among as many last ones as the rule forgets none of. All clocks are
    /// looked at.
    pub fn voices(&self) -> usize
        ensures { (past : List AnyStamp) → FitsMarks self.now past → result ≡ tellers 0 (voices self.now.rule.forget past) }
    {
        let since = self.table.heard().saturating_sub(self.rule.forget);
        self.table.voices(since)
    }

    /// How many clocks have to agree.
    pub fn agree(&self) -> usize
        ensures { result ≡ self.now.rule.agree }
    {
        self.rule.agree
    }

    /// Takes note of a watermark that is known without clocks: only a greater one is told behind it, as if
    /// the watermark had begun there.
    pub fn note(&mut self, mark: u64)
        ensures rule { self.new.rule ≡ record self.old.rule { start = max self.old.rule.start mark } }
        ensures clocks { length self.new.table.said ≡ length self.old.table.said }
        ensures heard { self.new.table.heard ≡ self.old.table.heard }
        ensures fits { (past : List AnyStamp) → FitsMarks self.old past → FitsMarks self.new past }
    {
        self.rule.start = self.rule.start.max(mark);
        if self.mark < mark {
            self.mark = mark;
            let since = self.table.heard().saturating_sub(self.rule.forget);
            self.table.count(since, need_after(self.rule, mark));
        }
    }

    /// Takes note of a stamp, and answers the new watermark where it raises it.
    #[inline(always)]
    pub fn tell(&mut self, stamp: Stamp) -> Option<u64>
        requires clock { stamp.clock < length self.old.table.said }
        requires room { self.old.table.heard < MOST_STAMPS }
        ensures rule { self.new.rule ≡ self.old.rule }
        ensures clocks { length self.new.table.said ≡ length self.old.table.said }
        ensures heard { self.new.table.heard ≡ self.old.table.heard + 1 }
        ensures fits { (past : List AnyStamp) → FitsMarks self.old past → FitsMarks self.new (stamp ∷ past) }
        ensures raised { (past : List AnyStamp) → FitsMarks self.old past → result ≡ raised_by self.old.rule past stamp }
    {
        self.table.put(stamp);
        if self.table.ahead() < self.rule.agree {
            return None;
        }
        let mark = look_at_all(&mut self.table, &mut self.clocks, self.rule, self.mark);
        if mark <= self.mark {
            return None;
        }
        self.mark = mark;
        Some(mark)
    }
}

// The watermark that all clocks agree on which speak. From then on those are counted that may raise it.
#[cold]
fn look_at_all(table: &mut Table, clocks: &mut Clocks, rule: Rule, mark: u64) -> u64
    requires { 0 < rule.step }
    ensures mark { result ≡ behind rule (agreed clocks.old.most
        (speaking (table.old.heard - rule.forget) table.old.need table.old.said (length table.old.said))) }
    ensures most { clocks.new.most ≡ clocks.old.most }
    ensures table { table.new ≡ record table.old { since = table.old.heard - rule.forget; need = table.new.need } }
    ensures need { table.new.need ≤ max mark result / rule.step * rule.step + rule.step + rule.bound }
{
    let since = table.heard().saturating_sub(rule.forget);
    table.gather(since, clocks);
    let agreed = mark_behind(rule, clocks.agreed());
    table.count(since, need_after(rule, mark.max(agreed)));
    agreed
}

// The earliest agreed time that raises a watermark, or the last time that there is where that is earlier.
fn need_after(rule: Rule, mark: u64) -> u64
    requires { 0 < rule.step }
    ensures { result ≤ mark / rule.step * rule.step + rule.step + rule.bound }
{
    (mark / rule.step * rule.step)
        .saturating_add(rule.step)
        .saturating_add(rule.bound)
}

// The watermark that follows a time that is agreed on, and 0 where there is none.
fn mark_behind(rule: Rule, agreed: Option<u64>) -> u64
    requires { 0 < rule.step }
    ensures { result ≡ behind rule agreed }
{
    match agreed {
        None => 0,
        Some(time) => time.saturating_sub(rule.bound) / rule.step * rule.step,
    }
}
