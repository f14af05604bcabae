ghost use Rattle.std.specs.Prelude.{◌≡◌, ℕ, ◌<◌};
ghost use Rattle.layout.specs.Fields.{byte_at};
ghost use Rattle.sheet.specs.Sheets.{said_by, found_in};

use crate::parts::Parts;

pub mod questions;

/// A mode sheet, read from the caller's bytes. Bytes with a fault give one without states and names.
#[derive(Clone, Copy)]
pub struct Sheet<'a> {
    bytes: &'a [u8],
    parts: Parts<'a>,
    ghost octets: { (i : ℕ) → byte_at bytes.now i < 256 },
    ghost found: { said_by parts ≡ found_in bytes.now },
}
