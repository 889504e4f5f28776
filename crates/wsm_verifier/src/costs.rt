//! What a program costs.

ghost use Rattle.std.specs.Prelude.{◌≡◌, ◌≤◌, pos, ◌≤ℤ◌, IfOk};
ghost use Rattle.wsm_windows.specs.Windows.{IsShape};
ghost use Rattle.wsm_program.specs.Program.{section};
ghost use Rattle.wsm_rules.specs.Costs as spec;
ghost use Rattle.wsm_rules.specs.Costs.{IsLongestPath};

use crate::paths::longest_path;
use std::alloc::{AllocError, Global};
use wsm_program::{Costs, Program, SectionId};
use wsm_windows::{Shape, live_bound};

/// The numbers that a program needs, also one that would be refused.
///
/// A record costs its selection, and its update in each window that it enters; in sessions also one
/// instruction for each accumulator, for a join.
pub fn needed(alloc: Global, program: &Program) -> Result<Costs, AllocError>
    ensures numbers { IfOk result (λ costs. costs ≡ spec.needed program.now) }
    // What is counted of a section is its longest path.
    ensures longest { (id : SectionId) → IsLongestPath (section program.now id) (spec.longest_path (section program.now id)) }
{
    let selection = longest_path(alloc, program.section(SectionId::Where))?;
    let update = longest_path(alloc, program.section(SectionId::Update))?;
    let per_pane = longest_path(alloc, program.section(SectionId::Fire))?;
    let header = program.header();
    let joining = join_steps(header.shape, header.kinds.len());
    let live = live_bound(header.shape, header.clock.skew, header.clock.lateness);
    Ok(Costs {
        per_record: selection + windows_of_a_record(header.shape) * update + joining,
        per_pane,
        held: header.schema.key_count() as u64 * live,
    })
}

// The most windows that one record enters.
fn windows_of_a_record(shape: Shape) -> u64
    requires { IsShape shape }
    ensures windows { result ≡ spec.windows_of_a_record shape }
    ensures few { result ≤ 1000000000001 }
{
    match shape {
        Shape::Sliding(size, period) => (size as u64).div_ceil(period as u64),
        Shape::Fixed(_) | Shape::Session(_) => 1,
    }
}

// The steps of a join of two sessions: one for each accumulator.
fn join_steps(shape: Shape, accumulators: usize) -> u64
    ensures steps { result ≡ spec.join_steps shape accumulators }
    ensures few { result ≤ accumulators }
{
    match shape {
        Shape::Session(_) => accumulators as u64,
        Shape::Fixed(_) | Shape::Sliding(_, _) => 0,
    }
}
