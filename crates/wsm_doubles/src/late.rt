//! Whether a record of a time would be late.

ghost use Rattle.std.specs.Prelude.{◌≡◌, ◌-ℤ◌, ◌≤ℤ◌, pos};
ghost use Rattle.wsm_windows.specs.Windows.{IsShape, last_start};
ghost use Rattle.wsm_admission.specs.Clock.{is_late};
ghost use Rattle.wsm_doubles.specs.Late.{last_end};

use wsm_admission::Clock;
use wsm_windows::Shape;

// A watermark, with what it takes to tell what is late there.
#[derive(Clone, Copy)]
pub(crate) struct Moment {
    pub(crate) clock: Clock,
    pub(crate) shape: Shape,
    pub(crate) mark: i64,
    ghost windows: { IsShape shape },
}

impl Moment {
    // Whether a record of a time, in its range or not, would be late.
    pub(crate) fn is_late(&self, time: i64) -> bool
        ensures { result ≡ is_late self.now.clock self.now.shape self.now.mark time }
    {
        if self.clock.from_window {
            last_end(self.shape, time) <= self.bound()
        } else {
            (time as i128) < self.bound()
        }
    }

    // What is late has a time, or the end of its last window, that is no later.
    fn bound(&self) -> i128
        ensures { result ≡ self.now.mark -ℤ self.now.clock.lateness }
    {
        self.mark as i128 - self.clock.lateness as i128
    }
}

// The end of the last window of a time.
fn last_end(shape: Shape, time: i64) -> i128
    requires { IsShape shape }
    ensures { result ≡ last_end shape time }
{
    match shape {
        Shape::Fixed(size) => last_start(size, time) + size as i128,
        Shape::Sliding(size, period) => last_start(period, time) + size as i128,
        Shape::Session(gap) => time as i128 + gap as i128,
    }
}

// The greatest multiple of a period that is at most a time.
fn last_start(period: i64, time: i64) -> i128
    requires { pos 1 ≤ℤ period }
    ensures { result ≡ last_start period time }
{
    time as i128 - time.rem_euclid(period) as i128
}
