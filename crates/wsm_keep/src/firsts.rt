//! From which times on records stay.

ghost use Rattle.std.specs.Prelude.{◌≡◌};
ghost use Rattle.wsm_keep.specs.Items.{first_of};

/// The first time of which records stay: of each key that has a number here, and of the others.
#[derive(Drop)]
pub struct Firsts {
    pub each: Vec<i64>,
    pub others: i64,
}

impl Firsts {
    /// The first time of a key.
    pub fn of(&self, key: u32) -> i64
        ensures { result ≡ first_of self.now key }
    {
        match self.each.get(key as usize) {
            Some(first) => *first,
            None => self.others,
        }
    }
}
