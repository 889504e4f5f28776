//! Numbers that look random, the same ones each time.

/// A linear congruential generator.
#[derive(Clone, Copy)]
pub struct Noise {
    state: u64,
}

impl Noise {
    /// The numbers of a seed.
    pub fn new(seed: u64) -> Noise {
        Noise { state: seed }
    }

    /// The next number, of 32 bits.
    pub fn next(&mut self) -> u32 {
        self.state = self
            .state
            .wrapping_mul(6_364_136_223_846_793_005)
            .wrapping_add(1_442_695_040_888_963_407);
        (self.state >> 32) as u32
    }

    /// A number below a bound, or 0 where the bound is 0.
    pub fn below(&mut self, bound: u32) -> u32 {
        let next = self.next();
        if bound == 0 { 0 } else { next % bound }
    }

    /// One of some values, or the other one where there are none.
    pub fn one_of<T: Copy>(&mut self, values: &[T], other: T) -> T {
        let next = self.next() as usize;
        if values.is_empty() {
            return other;
        }
        values[next % values.len()]
    }
}
