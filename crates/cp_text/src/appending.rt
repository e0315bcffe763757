//! Appending numbers, and appending a whole text or nothing.

ghost use Rattle.std.specs.Prelude.{◌≡◌, ◌++◌, decimal, take, OnOk, OnErr};

use itoa::Buffer;
use std::alloc::AllocError;

/// Appends a number in decimal digits. Want of memory leaves the output as it was.
pub fn append_number(out: &mut Vec<u8>, n: u64) -> Result<(), AllocError>
    ensures ok { OnOk result (out.new.items ≡ out.old.items ++ decimal n) }
    ensures err { OnErr result (out.new.items ≡ out.old.items) }
{
    let mut buffer = Buffer::new();
    out.extend_from_slice(buffer.format(n).as_bytes())
}

/// Gives what a writer answered. Where it failed, all goes that it left behind these first bytes.
pub fn all_or_nothing(
    out: &mut Vec<u8>,
    before: usize,
    written: Result<(), AllocError>,
) -> Result<(), AllocError>
    ensures answer { result ≡ written }
    ensures ok { OnOk result (out.new.items ≡ out.old.items) }
    ensures err { OnErr result (out.new.items ≡ take before out.old.items) }
{
    if written.is_err() {
        out.truncate(before);
    }
    written
}
