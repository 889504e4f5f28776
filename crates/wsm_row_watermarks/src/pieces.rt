//! Rows by whole lines.

ghost use Rattle.std.specs.Prelude.{◌≡◌, ◌<◌, ◌≤◌, false, true, OnErr, OnOk, length};
ghost use Rattle.std.specs.Io.KnownBytes.{Appends};
ghost use Rattle.wsm_csv.specs.Device.{TakesPart};

use memchr::{memchr, memrchr};
use wsm_csv::{Device, DeviceFault, write_out};

// How many bytes at a time a pipe takes whole or not at all.
const WHOLE: usize = 4096;

/// Gives a device rows, some whole lines at a time: no more bytes than a pipe takes whole or not at all, but for a longer line. Where
/// it can't, it took a beginning of them and has failed.
pub fn write_lines<D: Device>(device: &mut D, rows: &[u8]) -> Result<(), DeviceFault>
    requires { D.has_failed device.old ≡ false }
    ensures all { OnOk result (Appends (D.taken device.old) (D.taken device.new) rows.now) }
    ensures works { OnOk result (D.has_failed device.new ≡ false) }
    ensures part { OnErr result (TakesPart (D.taken device.old) (D.taken device.new) rows.now) }
    ensures fails { OnErr result (D.has_failed device.new ≡ true) }
{
    let mut done = 0;
    while done < rows.len() {
        let end = end_of_lines(&rows[done..]);
        write_out(device, &rows[done..done + end])?;
        done += end;
    }
    Ok(())
}

// Where some first lines end.
fn end_of_lines(rows: &[u8]) -> usize
    requires { 0 < length rows.now }
    ensures some { 0 < result }
    ensures within { result ≤ length rows.now }
{
    if rows.len() <= WHOLE {
        return rows.len();
    }
    if let Some(last) = memrchr(b'\n', &rows[..WHOLE]) {
        return last + 1;
    }
    match memchr(b'\n', rows) {
        Some(first) => first + 1,
        None => rows.len(),
    }
}
