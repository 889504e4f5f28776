//! Which file it is.

ghost use Rattle.std.specs.Prelude.{◌≡◌, ◌==◌, ◌&&◌};

/// A file of a device, whatever its names are.
#[derive(Clone, Copy, Debug, PartialEq, Eq)]
pub struct FileId {
    /// The number of its device.
    pub device: u64,
    /// Its number on that device.
    pub inode: u64,
}

/// Whether both are one file.
pub fn is_same(a: FileId, b: FileId) -> bool
    ensures { result ≡ ((a.device == b.device) && (a.inode == b.inode)) }
{
    a.device == b.device && a.inode == b.inode
}
