//! What a sink told of the lines that it has.

use crate::run_name::{RunName, number_of};

/// A file of DIR by which a sink tells what it has.
#[derive(Debug, Drop)]
pub struct Taken {
    /// The file's name: `taken`, or `taken.SINK`.
    pub file: String,
    /// What it tells; none where its bytes aren't what a sink tells.
    pub told: Option<Told>,
}

/// What a sink has surely on its disk, as it told: `NAME,COUNT,SUM` and a line feed.
#[derive(Clone, Copy, Debug, PartialEq, Eq)]
pub struct Told {
    /// The run that the lines are of.
    pub name: RunName,
    /// How many lines it has, which are the first ones.
    pub count: u64,
    /// The sum over these lines.
    pub sum: u32,
}

impl Told {
    /// What a file's bytes tell, if they tell that.
    pub fn of(bytes: &[u8]) -> Option<Told> {
        let text = str::from_utf8(bytes).ok()?;
        let (name, rest) = text.strip_suffix("\n")?.split_once(",")?;
        let (count, sum) = rest.split_once(",")?;
        Some(Told {
            name: RunName::of(name)?,
            count: number_of(count)?,
            sum: number_of(sum)?,
        })
    }
}

// Whether a file of this name is a sink's: `taken` or `taken.SINK`. One that ends with `.next` is to be renamed to it.
pub fn is_sinks(name: &str) -> bool {
    match name.strip_prefix("taken") {
        Some(rest) => rest.is_empty() || (rest.starts_with(".") && !rest.ends_with(".next")),
        None => false,
    }
}
