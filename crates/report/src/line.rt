ghost use Rattle.std.specs.Prelude.{◌≡◌, ◌<◌, ◌≤◌, length};
ghost use Rattle.report.specs.Lines.{first_line, behind_line, lines_of, AreLinesOf};
ghost use Rattle.report.specs.Left.{left_of};

use crate::left::Lines;

/// The first line without its line feed, and all that stands behind it.
pub fn split_line(bytes: &[u8]) -> (&[u8], &[u8])
    ensures line { result.0.now ≡ first_line bytes.now }
    ensures behind { result.1.now ≡ behind_line bytes.now }
    ensures shorter { 0 < length bytes.now → length result.1.now < length bytes.now }
{
    match bytes.iter().position(|b| *b == b'\n') {
        Some(end) => (&bytes[..end], &bytes[end + 1..]),
        None => (bytes, &[]),
    }
}

/// The lines of a file, without their line feeds; a last line feed begins no further line.
pub fn lines(bytes: &[u8]) -> Lines<'_>
    ensures all { left_of result ≡ lines_of bytes.now }
    ensures few { length (left_of result) ≤ length bytes.now }
    ensures whole { AreLinesOf bytes.now (left_of result) }
{
    Lines { rest: bytes }
}
