//! Up to which times records go.

ghost use Rattle.std.specs.Prelude.{◌≡◌, ◌∷◌, ℕ, ℤ, pos, ◌≤ℤ◌, ◌-ℤ◌, IfOk};
ghost use Rattle.wsm_windows.specs.Windows.{IsShape, greatest_span};
ghost use Rattle.wsm_windows.specs.Windows as windows;
ghost use Rattle.wsm_semantics.specs.FromWatermark.{dropped_time};
ghost use Rattle.wsm_keep.specs.Holds.{times_in};
ghost use Rattle.wsm_keep.specs.Items.{times_of};

use crate::firsts::Firsts;
use crate::parting::Parting;
use crate::queue::Queue;
use crate::sessions::firsts_of_sessions;
use std::alloc::{AllocError, Global};
use wsm_windows::Shape;

/// From which times on the records of a queue stay, where windows have expired that end by a time.
pub fn firsts_at(
    alloc: Global,
    shape: Shape,
    expired: i64,
    queue: &Queue,
) -> Result<Firsts, AllocError>
    requires shape { IsShape shape }
    requires low { (pos 0 -ℤ pos 1000000000000) ≤ℤ expired }
    requires high { expired ≤ℤ pos 10000000000000000 }
    ensures { IfOk result (λ f. (key : ℕ) → times_of f key ≡ dropped_time shape expired (times_in key queue.now)) }
{
    match shape {
        Shape::Fixed(size) => Ok(alike(alloc, first_start(size, size, expired))),
        Shape::Sliding(size, period) => Ok(alike(alloc, first_start(size, period, expired))),
        Shape::Session(gap) => {
            let parting = Parting {
                gap,
                time: expired - gap,
            };
            firsts_of_sessions(alloc, parting, queue)
        }
    }
}

// The same first time of all keys.
fn alike(alloc: Global, first: i64) -> Firsts
    ensures { (key : ℕ) → times_of result key ≡ first -ℤ pos 1 }
{
    Firsts {
        each: Vec::new(alloc),
        others: first,
    }
}

// The least multiple of the period whose window ends after a time.
fn first_start(size: i64, period: i64, time: i64) -> i64
    requires period_low { pos 1 ≤ℤ period }
    requires period_high { period ≤ℤ size }
    requires size_high { size ≤ℤ greatest_span }
    requires low { (pos 0 -ℤ pos 1000000000000) ≤ℤ time }
    requires high { time ≤ℤ pos 10000000000000000 }
    ensures { result ≡ windows.first_start size period time }
{
    let before = time - size;
    before - before.rem_euclid(period) + period
}
