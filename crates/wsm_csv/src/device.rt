//! What takes bytes, and writing a whole text to it.

ghost use Rattle.std.specs.Prelude.{◌≡◌, ◌<◌, ◌≤◌, Bool, true, false, List, ℕ, Option, length, take, IfOk, OnErr, OnOk};
ghost use Rattle.std.specs.Io.KnownBytes.{Appends, Keeps};
ghost use Rattle.wsm_csv.specs.Device.{TakesPart};

/// A device has failed, and takes no more bytes.
#[derive(Clone, Copy, Debug, PartialEq, Eq)]
pub struct DeviceFault;

/// What takes bytes, in order. Once a call has failed, no other call of `put` or `flush` is made.
pub trait Device {
    /// The bytes that were taken so far, where they are known.
    ghost taken: { Self → Option (List ℕ) };

    /// Whether a call has failed.
    ghost has_failed: { Self → Bool };

    /// Whether all that was taken has left, by a flush that didn't fail.
    ghost is_flushed: { Self → Bool };

    /// Takes a beginning of the bytes, and answers how many: at least one of a slice that isn't
    /// empty, which have then not left. An error takes none, and is answered exactly where the device
    /// has failed afterwards.
    fn put(&mut self, bytes: &[u8]) -> Result<usize, DeviceFault>
        requires { has_failed self.old ≡ false }
        ensures within { IfOk result (λ n. n ≤ length bytes.now) }
        ensures taken { IfOk result (λ n. Appends (taken self.old) (taken self.new) (take n bytes.now)) }
        ensures some { IfOk result (λ n. 0 < length bytes.now → 0 < n) }
        ensures kept { OnErr result (Keeps (taken self.old) (taken self.new)) }
        ensures unflushed { OnOk result (0 < length bytes.now → is_flushed self.new ≡ false) }
        ensures works { OnOk result (has_failed self.new ≡ false) }
        ensures fails { OnErr result (has_failed self.new ≡ true) };

    /// Has what was taken leave. It takes nothing, and an error is answered exactly where the device
    /// has failed afterwards.
    fn flush(&mut self) -> Result<(), DeviceFault>
        requires { has_failed self.old ≡ false }
        ensures kept { Keeps (taken self.old) (taken self.new) }
        ensures flushed { OnOk result (is_flushed self.new ≡ true) }
        ensures works { OnOk result (has_failed self.new ≡ false) }
        ensures fails { OnErr result (has_failed self.new ≡ true) };

    /// Whether a call has failed.
    fn failed(&self) -> bool
        ensures { result ≡ has_failed self.now };
}

/// Gives the device all bytes. Where it can't, a beginning of them was taken and the device has failed.
pub fn write_out<D: Device>(device: &mut D, bytes: &[u8]) -> Result<(), DeviceFault>
    requires { D.has_failed device.old ≡ false }
    ensures all { OnOk result (Appends (D.taken device.old) (D.taken device.new) bytes.now) }
    ensures works { OnOk result (D.has_failed device.new ≡ false) }
    ensures part { OnErr result (TakesPart (D.taken device.old) (D.taken device.new) bytes.now) }
    ensures fails { OnErr result (D.has_failed device.new ≡ true) }
{
    let mut done = 0;
    while done < bytes.len() {
        done += device.put(&bytes[done..])?;
    }
    Ok(())
}
