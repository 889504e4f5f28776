//! Whether the code of a query is small enough.

ghost use Rattle.std.specs.Prelude.{◌≡◌, ◌*◌, length, map, option_map, true};
ghost use Rattle.wsm_windows.specs.Life as life;
ghost use Rattle.wsm_windows.specs.Limits.{is_shape, is_span};
ghost use Rattle.wsm_check.specs.Checks.{Judges, exceeds, sizes_refusal};
ghost use Rattle.wsm_check.specs.Seen.{seen_folding, seen_parts, seen_term};
ghost use Rattle.wsm_check.specs.Sizes.{counted, ending_need, ending_size, firing_need, firing_size, foldings_need, foldings_size, need_of};

use crate::judging::want;
use crate::parts::{Folding, Parts};
use crate::refusal::{CheckFault, CheckRefusal, CodeLimit, Part};
use crate::term::{Term, need, size};
use wsm_record::limits::{MAX_PANES, MAX_SECTION, MAX_STACK};
use wsm_windows::live_bound;

/// A refusal where more was counted than a limit allows.
pub fn within(limit: CodeLimit, counted: u64, allowed: u64) -> Result<(), CheckRefusal>
    ensures { Judges result (exceeds limit counted allowed) }
{
    let fault = CheckFault::Exceeds {
        limit,
        counted,
        allowed,
    };
    want(counted <= allowed, fault, Part::Code)
}

/// That a program may have the code, and hold the panes.
#[tactic(auto, using(crate::proofs::ChecksInOrder::steps))]
pub fn judge_sizes(parts: &Parts) -> Result<(), CheckRefusal>
    requires shape { is_shape parts.now.output.shape ≡ true }
    requires skew { is_span parts.now.clock.skew ≡ true }
    requires lateness { is_span parts.now.clock.lateness ≡ true }
    ensures { Judges result (sizes_refusal (seen_parts parts.now)) }
{
    let selection = ending_size(&parts.condition);
    within(CodeLimit::Where, selection, MAX_SECTION as u64)?;
    let update = foldings_size(&parts.foldings);
    within(CodeLimit::Update, update, MAX_SECTION as u64)?;
    let fire = firing_size(&parts.columns, &parts.having);
    within(CodeLimit::Fire, fire, MAX_SECTION as u64)?;
    within(CodeLimit::Stack, stack_need(parts), MAX_STACK as u64)?;
    within(CodeLimit::Panes, panes_at_once(parts), MAX_PANES)
}

// A condition that isn't there is true. Behind it stands the return.
fn ending_size(condition: &Option<Term>) -> u64
    ensures { result ≡ counted (ending_size (option_map seen_term condition.now)) }
{
    match condition {
        Some(test) => size(test).saturating_add(1),
        None => 2,
    }
}

fn ending_need(condition: &Option<Term>) -> u64
    ensures { result ≡ counted (ending_need (option_map seen_term condition.now)) }
{
    match condition {
        Some(test) => need(test),
        None => 1,
    }
}

// The instructions that fold what the accumulators do, with the return.
fn foldings_size(foldings: &[Folding]) -> u64
    ensures { result ≡ counted (foldings_size (map seen_folding foldings.now)) }
{
    match foldings {
        [first, rest @ ..] => size(&first.operand)
            .saturating_add(1)
            .saturating_add(foldings_size(rest)),
        [] => 1,
    }
}

fn foldings_need(foldings: &[Folding]) -> u64
    ensures { result ≡ counted (foldings_need (map seen_folding foldings.now)) }
{
    match foldings {
        [first, rest @ ..] => need(&first.operand).max(foldings_need(rest)),
        [] => 0,
    }
}

// The instructions of the columns and of HAVING, with the return.
fn firing_size(columns: &[Term], having: &Option<Term>) -> u64
    ensures { result ≡ counted (firing_size (option_map seen_term having.now) (map seen_term columns.now)) }
{
    match columns {
        [first, rest @ ..] => size(first).saturating_add(firing_size(rest, having)),
        [] => ending_size(having),
    }
}

fn firing_need(columns: &[Term], having: &Option<Term>) -> u64
    ensures { result ≡ counted (firing_need (option_map seen_term having.now) (map seen_term columns.now)) }
{
    match columns {
        [first, rest @ ..] => need(first).max(firing_need(rest, having).saturating_add(1)),
        [] => ending_need(having),
    }
}

// The places on the stack that the sections need.
fn stack_need(parts: &Parts) -> u64
    ensures { result ≡ counted (need_of (seen_parts parts.now)) }
{
    let selection = ending_need(&parts.condition);
    let update = foldings_need(&parts.foldings);
    let fire = firing_need(&parts.columns, &parts.having);
    selection.max(update.max(fire))
}

// The most panes that are live at once.
fn panes_at_once(parts: &Parts) -> u64
    requires shape { is_shape parts.now.output.shape ≡ true }
    requires skew { is_span parts.now.clock.skew ≡ true }
    requires lateness { is_span parts.now.clock.lateness ≡ true }
    ensures { let p = seen_parts parts.now in result ≡ counted (length p.schema.keys * life.live_bound p.output.shape p.clock.skew p.clock.lateness) }
{
    let live = live_bound(parts.output.shape, parts.clock.skew, parts.clock.lateness);
    (parts.schema.keys().len() as u64).saturating_mul(live)
}
