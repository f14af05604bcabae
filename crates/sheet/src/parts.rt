ghost use Rattle.std.specs.Prelude.{◌≡◌};
ghost use Rattle.sheet.specs.Sheets.{said_by, nothing};

use crate::names::Names;

/// The parts of a sheet, where they lie in its bytes.
#[derive(Clone, Copy)]
pub struct Parts<'a> {
    pub names: Names<'a>,
    pub labels: &'a [[u8; 4]],
    pub steps: &'a [[u8; 6]],
}

impl<'a> Parts<'a> {
    /// The parts of bytes that are no sheet.
    // Empty parts and no Option: the questions of a sheet need no case of their own for bytes that are none.
    pub(crate) fn none() -> Parts<'a>
        ensures { said_by result ≡ nothing }
    {
        Parts {
            names: Names::none(),
            labels: &[],
            steps: &[],
        }
    }
}
