ghost use Rattle.std.specs.Prelude.{◌≡◌, ◌≤◌};
ghost use Rattle.layout.specs.Descriptions.{has_bit};
ghost use Rattle.layout.specs.Fields.{u32_at, step_there};

/// The set of the names that a state bears, as bits.
pub(crate) fn label(entry: &[u8; 4]) -> u32
    ensures { result ≡ u32_at entry.now 0 }
{
    u32::from_le_bytes(*entry)
}

/// Whether a bit of a label is set.
pub(crate) fn is_set(label: u32, bit: usize) -> bool
    requires { bit ≤ 31 }
    ensures { result ≡ has_bit label bit }
{
    (label >> bit) % 2 == 1
}

/// The state that a step leaves.
pub(crate) fn left(entry: &[u8; 6]) -> usize
    ensures { result ≡ (step_there entry.now 0).from }
{
    usize::from(u16::from_le_bytes([entry[0], entry[1]]))
}

/// The state that a step enters.
pub(crate) fn entered(entry: &[u8; 6]) -> usize
    ensures { result ≡ (step_there entry.now 0).to }
{
    usize::from(u16::from_le_bytes([entry[2], entry[3]]))
}

/// The states that a step leaves and enters.
// A pair, whose own order is the order of the steps.
pub(crate) fn joined(entry: &[u8; 6]) -> (usize, usize)
    ensures { result ≡ ((step_there entry.now 0).from, (step_there entry.now 0).to) }
{
    (left(entry), entered(entry))
}

/// The seconds of a step.
pub(crate) fn seconds(entry: &[u8; 6]) -> u16
    ensures { result ≡ (step_there entry.now 0).seconds }
{
    u16::from_le_bytes([entry[4], entry[5]])
}
