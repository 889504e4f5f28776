//! The versions of a program's bytes, and their numbers.

ghost use Rattle.std.specs.Prelude.{◌≡◌};
ghost use Rattle.wsm_bytecode.specs.Versions.{version_number, version_of_number};

/// A version of the bytes. Version 2 is written, both are read.
#[derive(Clone, Copy, Debug, PartialEq, Eq)]
pub(crate) enum Version {
    /// It spells programs without a test of a field.
    One,
    /// It spells each program.
    Two,
}

/// The version that is written.
pub(crate) const WRITTEN_VERSION: Version = Version::Two;

impl Version {
    /// Its number, the byte behind the first ones.
    pub(crate) fn number(self) -> u8
        ensures { result ≡ version_number self }
    {
        match self {
            Version::One => 1,
            Version::Two => 2,
        }
    }

    /// The version of a number. `None` where no version has it.
    pub(crate) fn of_number(number: u8) -> Option<Version>
        ensures { result ≡ version_of_number number }
    {
        match number {
            1 => Some(Version::One),
            2 => Some(Version::Two),
            _ => None,
        }
    }
}
