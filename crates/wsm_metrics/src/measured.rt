//! What counts something.

use crate::metric::Metric;
use std::alloc::AllocError;

/// Something that counts what monitors are to know.
pub trait Measured {
    /// Adds what it counts.
    ///
    /// # Errors
    ///
    /// Memory was refused. A part may have been added.
    fn measure(&self, metrics: &mut Vec<Metric<'static>>) -> Result<(), AllocError>;
}
