//! The lines of a script whose end was not read.

ghost use Rattle.std.specs.Prelude.{◌≤◌, length};
ghost use Rattle.oriedita_cli.specs.WholeLines.{AreWholeLines};

/// The bytes up to their last line feed, and with it.
pub fn whole_lines(bytes: &[u8]) -> &[u8]
    ensures lines { AreWholeLines result.now bytes.now }
    ensures bound { length result.now ≤ length bytes.now }
{
    let mut lines = bytes;
    while let Some((&last, front)) = lines.split_last() {
        if last == b'\n' {
            return lines;
        }
        lines = front;
    }
    lines
}
