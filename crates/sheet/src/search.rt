ghost use Rattle.std.specs.Prelude.{◌≡◌, ◌<◌, ◌≤◌, length};
ghost use Rattle.std.specs.List.Sorted.{IsBinarySearchResult, IsSearchInRange};
ghost use Rattle.layout.specs.Fields.{step_there};
ghost use Rattle.sheet.specs.Sheets.{compared};

use crate::entries::{entered, left};
use std::cmp::Ordering;

/// How a step compares with the states that are sought.
fn compare(entry: &[u8; 6], from: usize, to: usize) -> Ordering
    ensures { result ≡ compared (step_there entry.now 0) from to }
{
    // Two tests, and no `match` on one `cmp`: with that, the search takes 1.5 times as long.
    let state = left(entry);
    if state < from {
        return Ordering::Less;
    }
    if state > from {
        return Ordering::Greater;
    }
    entered(entry).cmp(&to)
}

fn halfway(low: usize, high: usize) -> usize
    requires { low < high }
    ensures { (low ≤ result) × (result < high) }
{
    low + (high - low) / 2
}

/// The place of a step, by binary search, or else the place where it belongs.
// No library search: with no early end and no branch to predict, a sheet of 1,024 states with one step each takes twice as long.
pub(crate) fn search(steps: &[[u8; 6]], from: usize, to: usize) -> Result<usize, usize>
    ensures bound { IsSearchInRange result (length steps.now) }
    ensures position { IsBinarySearchResult (λ entry. compared (step_there entry 0) from to) steps.now result }
{
    let mut low = 0;
    let mut high = steps.len();
    while low < high {
        let middle = halfway(low, high);
        match compare(&steps[middle], from, to) {
            Ordering::Less => low = middle + 1,
            Ordering::Equal => return Ok(middle),
            Ordering::Greater => high = middle,
        }
    }
    Err(low)
}
