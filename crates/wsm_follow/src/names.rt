//! Names of the files that a log is or was.

ghost use Rattle.std.specs.Prelude.{◌≡◌, ◌<◌, option_map};
ghost use Rattle.wsm_follow.specs.Names.{is_digit, is_digit_or_mark, is_end, is_ending, is_mark, behind_name, ending_of, is_packed_end, is_packing, number_behind, number_from};

/// Whether a byte is a decimal digit.
pub fn is_digit(byte: u8) -> bool
    ensures { result ≡ is_digit byte }
{
    b'0' <= byte && byte <= b'9'
}

fn is_mark(byte: u8) -> bool
    ensures { result ≡ is_mark byte }
{
    byte == b'.' || byte == b'-'
}

fn is_digit_or_mark(byte: u8) -> bool
    ensures { result ≡ is_digit_or_mark byte }
{
    is_digit(byte) || is_mark(byte)
}

fn is_packing(end: &[u8]) -> bool
    ensures { result ≡ is_packing end.now }
{
    (end.starts_with(b".gz") && end.len() == 3)
        || ((end.starts_with(b".xz") && end.len() == 3)
            || (end.starts_with(b".zst") && end.len() == 4))
}

fn is_end(bytes: &[u8]) -> bool
    ensures { result ≡ is_end bytes.now }
{
    match bytes.split_first() {
        None => true,
        Some((byte, rest)) => (is_digit_or_mark(*byte) && is_end(rest)) || is_packing(bytes),
    }
}

fn is_ending(bytes: &[u8]) -> bool
    ensures { result ≡ is_ending bytes.now }
{
    match bytes {
        [] => true,
        [_] => false,
        [mark, digit, rest @ ..] => is_mark(*mark) && (is_digit(*digit) && is_end(rest)),
    }
}

fn behind_name<'n>(log: &[u8], name: &'n [u8]) -> Option<&'n [u8]>
    ensures { option_map (λ r. r.now) result ≡ behind_name log.now name.now }
{
    match log.split_first() {
        None => Some(name),
        Some((l, ls)) => {
            let (n, ns) = name.split_first()?;
            if *l == *n { behind_name(ls, ns) } else { None }
        }
    }
}

/// What stands behind the log's name in that of a file that the log is or was: nothing, or `.` or `-` and a
/// number or a date, and maybe `.gz`, `.xz` or `.zst` behind that.
pub fn ending_of<'n>(log: &[u8], name: &'n [u8]) -> Option<&'n [u8]>
    ensures { option_map (λ r. r.now) result ≡ ending_of log.now name.now }
{
    let ending = behind_name(log, name)?;
    if is_ending(ending) {
        Some(ending)
    } else {
        None
    }
}

/// Whether what stands behind the log's name says that the file was packed.
pub fn is_packed_end(bytes: &[u8]) -> bool
    ensures { result ≡ is_packed_end bytes.now }
{
    match bytes.split_first() {
        None => false,
        Some((_, rest)) => is_packing(bytes) || is_packed_end(rest),
    }
}

// A number of which digits were read. One of five digits is a date.
fn number_from(value: u64, bytes: &[u8]) -> Option<u64>
    requires { value < 10000 }
    ensures { result ≡ number_from value bytes.now }
{
    let Some((byte, rest)) = bytes.split_first() else {
        return Some(value);
    };
    if is_packing(bytes) {
        Some(value)
    } else if is_digit(*byte) && value < 1000 {
        number_from(value * 10 + (*byte - b'0') as u64, rest)
    } else {
        None
    }
}

/// The number behind the log's name, if it is one and no date.
pub fn number_behind(bytes: &[u8]) -> Option<u64>
    ensures { result ≡ number_behind bytes.now }
{
    let (_, rest) = bytes.split_first()?;
    number_from(0, rest)
}
