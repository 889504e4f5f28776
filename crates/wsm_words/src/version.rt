//! The version of the program.

ghost use Rattle.std.specs.Prelude.{◌≡◌, ◌++◌, IfOk, codes, string_bytes};

use std::alloc::{AllocError, Global};

/// The version that the program goes by.
pub const VERSION: &str = "1.2.0";

/// What built the program, at the end of the line: the kit and the logic of the toolchain, and the commit. A build of which that
/// isn't known has zeros. The text stands in the built file once, and its 80 bytes are read from there sixteen at a time, so what
/// builds the program can put its own in the place of the zeros.
pub const BUILD: &str =
    "kit 000, logic 0000000000000000, commit 0000000000000000000000000000000000000000)";

/// What `--version` tells behind the program's name.
pub fn version_text(alloc: Global) -> Result<String, AllocError>
    ensures { IfOk result (λ text. string_bytes text ≡ VERSION.now ++ codes " (" ++ BUILD.now) }
{
    format!(in alloc; "{VERSION} ({BUILD}")
}
