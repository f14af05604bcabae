#![tactic(auto)]

ghost use Rattle.std.specs.Prelude.{◌≡◌};
ghost use Rattle.layout.specs.Judging.{sheet_model};
ghost use Rattle.machine.specs.Model.{among};
ghost use Rattle.pair.specs.Pairs.{pair_model};
ghost use Rattle.ring.specs.Rings.{ring_model};
ghost use Rattle.gauge.specs.Asking.{next, asked_of};
ghost use Rattle.gauge.specs.Reading.{Numbered};

use machine::Machine;
use pair::Pair;
use ring::Ring;
use sheet::Sheet;

fn next_number(x: u64) -> u64
    ensures { result ≡ next x }
{
    x.wrapping_mul(6364136223846793005)
        .wrapping_add(1442695040888963407)
}

/// Asks a machine for many steps, and adds their seconds up.
fn ask<M: Machine>(machine: &M, count: usize, seed: u64) -> u64
    ensures { result ≡ asked_of (M.model machine.now) count seed }
{
    let states = machine.states() as u64;
    if states == 0 {
        return 0;
    }
    let mut x = seed;
    let mut total = 0u64;
    for _ in 0..count {
        let from = (x >> 20) % states;
        let to = (x >> 40) % states;
        let seconds = machine.step(from as usize, to as usize).unwrap_or(0);
        total = total.wrapping_add(u64::from(seconds));
        x = next_number(x);
    }
    total
}

/// How many states the sheet has that these bytes are.
#[unsafe(no_mangle)]
pub extern "C" fn gauge_open(bytes: &[u8]) -> usize
    ensures { result ≡ (sheet_model bytes.now).states }
{
    Sheet::open(bytes).states()
}

/// The seconds of many steps of a sheet.
#[unsafe(no_mangle)]
pub extern "C" fn gauge_sheet(bytes: &[u8], count: usize, seed: u64) -> u64
    ensures { result ≡ asked_of (sheet_model bytes.now) count seed }
{
    ask(&Sheet::open(bytes), count, seed)
}

/// The seconds of many steps of a pair of sheets.
#[unsafe(no_mangle)]
pub extern "C" fn gauge_pair(left: &[u8], right: &[u8], count: usize, seed: u64) -> u64
    ensures { result ≡ asked_of (pair_model (sheet_model left.now) (sheet_model right.now)) count seed }
{
    ask(
        &Pair::new(Sheet::open(left), Sheet::open(right)),
        count,
        seed,
    )
}

/// The number of the fault that a text has as a rule for a ring, or 0 for a rule.
#[unsafe(no_mangle)]
pub extern "C" fn gauge_rule(text: &[u8]) -> u8
    ensures { Numbered (among (ring_model 12 5 3).names) text.now result }
{
    // 0 stands for a rule: C has no Option.
    // A match, which leaves the rule where it is: `err` would move it, and it is large.
    match rule::read(text, &Ring::new(12, 5, 3)) {
        Ok(_) => 0,
        Err(fault) => fault.reason.number(),
    }
}
