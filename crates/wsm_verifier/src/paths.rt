//! The longest path of a section.

ghost use Rattle.std.specs.Prelude.{◌≡◌, ◌+◌, ◌<◌, ◌≤◌, length, drop, All, IfSome, IfOk};
ghost use Rattle.wsm_record.specs.declared.limits.TheConstants.{MAX_SECTION};
ghost use Rattle.wsm_rules.specs.Costs as spec;
ghost use Rattle.wsm_rules.specs.Costs.{IsLongestPath};

use std::alloc::{AllocError, Global};
use wsm_program::{Edges, Instr};

/// The most instructions on a way from a section's first place to its end, or 0 where there is no
/// way. One pass from the last place back.
pub(crate) fn longest_path(alloc: Global, code: &[Instr]) -> Result<u64, AllocError>
    requires { length code.now ≤ MAX_SECTION }
    ensures path { IfOk result (λ n. n ≡ spec.longest_path code.now) }
    ensures longest { IfOk result (λ n. IsLongestPath code.now n) }
    ensures short { IfOk result (λ n. n ≤ MAX_SECTION) }
{
    let mut ways = vec![in alloc; None; code.len()]?;
    for place in (0..code.len()).rev() {
        ways[place] = way_along(&ways, place, code[place].edges());
    }
    Ok(ways.first().copied().flatten().unwrap_or(0))
}

// The longest way along the edges of a place, where those from later places are known.
fn way_along(ways: &[Option<u64>], place: usize, edges: Edges) -> Option<u64>
    requires within { place < length ways.now }
    requires short { All (λ way. IfSome way (λ n. n ≤ MAX_SECTION)) ways.now }
    ensures { result ≡ spec.way_along place edges (drop (place + 1) ways.now) }
{
    let longest = match edges {
        Edges::Nowhere => return Some(1),
        Edges::Next => way_from(ways, place, place + 1),
        Edges::Target(target) => way_from(ways, place, target as usize),
        Edges::Either(target) | Edges::Tested(_, target) => longer(
            way_from(ways, place, place + 1),
            way_from(ways, place, target as usize),
        ),
    };
    Some(longest? + 1)
}

// The longest way from a target, if it is a later place.
fn way_from(ways: &[Option<u64>], place: usize, target: usize) -> Option<u64>
    requires { All (λ way. IfSome way (λ n. n ≤ MAX_SECTION)) ways.now }
    ensures way { result ≡ spec.way_from place (drop (place + 1) ways.now) target }
    ensures short { IfSome result (λ n. n ≤ MAX_SECTION) }
{
    if place < target {
        *ways.get(target)?
    } else {
        None
    }
}

fn longer(a: Option<u64>, b: Option<u64>) -> Option<u64>
    ensures longer { result ≡ spec.longer a b }
    ensures one { IfSome a (λ n. n ≤ MAX_SECTION) → IfSome b (λ n. n ≤ MAX_SECTION) → IfSome result (λ n. n ≤ MAX_SECTION) }
{
    match (a, b) {
        (Some(a), Some(b)) => Some(a.max(b)),
        (None, way) | (way, None) => way,
    }
}
