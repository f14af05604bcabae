ghost use Rattle.std.specs.Prelude.{◌≡◌, true, is_ok};
ghost use Rattle.fault.specs.Refusals.{unless};
ghost use Rattle.layout.specs.Descriptions.{Description, Proper};
ghost use Rattle.layout.specs.Encoding.{encode};
ghost use Rattle.layout.specs.Judging.{sheet_fault};

use crate::survey::survey;
use fault::Fault;

/// Whether the bytes are a mode sheet: they are if they encode a proper description, else the first fault from front to back says why not.
pub fn examine(bytes: &[u8]) -> Result<(), Fault>
    ensures fault { result ≡ unless (sheet_fault bytes.now) tt }
    ensures encodes { is_ok result ≡ true → (d : Description) × Proper d × (encode d ≡ bytes.now) }
    ensures accepts { (d : Description) → Proper d → encode d ≡ bytes.now → is_ok result ≡ true }
{
    survey(bytes)?;
    Ok(())
}
