ghost use Rattle.std.specs.Prelude.{◌≡◌, ◌+◌, ◌^◌, ◌≤◌, not, ◌&&◌, map, length, Some, None, MatchResult, OnOk, nat_lt};
ghost use Rattle.std.specs.List.{range_with_len, position};
ghost use Rattle.fault.specs.Refusals.{unless};
ghost use Rattle.machine.specs.Model.{among};
ghost use Rattle.machine.specs.Names.{is_name};
ghost use Rattle.layout.specs.Fields.{u32_at, state_count, name_count, name_at, labels_at, label_at, label_in, step_count_at, step_at, step_there, step_in, described};
ghost use Rattle.layout.specs.Judging.{mark_fault, header_fault, name_fault, label_fault, step_fault, first_fault, tail_fault, sheet_fault};
ghost use Rattle.sheet.specs.Listed.{names_of};
ghost use Rattle.sheet.specs.Fields.{follows};
ghost use Rattle.sheet.specs.Readers.{ReadsOn};
ghost use Rattle.sheet.specs.Sheets.{Lowest, said_by};

use crate::entries::{joined, label};
use crate::names::Names;
use crate::parts::Parts;
use crate::reader::Reader;
use fault::{Fault, Reason};
use machine::name::is_name;

/// Judges the mark.
fn mark(reader: &mut Reader) -> Result<(), Fault>
    requires start { reader.old.place ≡ 0 }
    ensures judged { result ≡ unless (mark_fault reader.old.bytes.now) tt }
    ensures moved { OnOk result (ReadsOn reader.old reader.new 3) }
{
    if reader.take()? != b"MOD" {
        return Err(Reason::BadMark.at(0));
    }
    Ok(())
}

/// Judges the header, and answers how many states and names there are.
fn header(reader: &mut Reader) -> Result<(usize, usize), Fault>
    requires start { reader.old.place ≡ 0 }
    ensures judged { result ≡ unless (header_fault reader.old.bytes.now) (state_count reader.old.bytes.now, name_count reader.old.bytes.now) }
    ensures moved { OnOk result (ReadsOn reader.old reader.new 8) }
{
    mark(reader)?;
    if reader.number()? != 1 {
        return Err(Reason::BadMark.at(3));
    }
    let states = reader.number()?;
    if states == 0 || states > 1024 {
        return Err(Reason::BadCount.at(5));
    }
    let names = reader.byte()?;
    if names > 32 {
        return Err(Reason::BadCount.at(7));
    }
    Ok((usize::from(states), usize::from(names)))
}

/// Whether a word is a name and none of the earlier names.
fn is_new_name(earlier: Names, word: &[u8]) -> bool
    ensures { result ≡ (is_name word.now && not (among (names_of earlier.entry) word.now)) }
{
    is_name(word) && !earlier.has(word)
}

/// Judges name i, the next one.
fn name_entry(reader: &mut Reader, i: usize) -> Result<(), Fault>
    requires here { reader.old.place ≡ name_at reader.old.bytes.now i }
    requires header { 8 ≤ length reader.old.bytes.now }
    requires before { first_fault i (name_fault reader.old.bytes.now) ≡ None }
    ensures judged { result ≡ unless (name_fault reader.old.bytes.now i) tt }
    ensures moved { OnOk result (ReadsOn reader.old reader.new (name_at reader.old.bytes.now (i + 1))) }
{
    let place = reader.place();
    let size = reader.byte()?;
    if size == 0 || size > 16 {
        return Err(Reason::BadEntry.at(place));
    }
    let word = reader.word(usize::from(size))?;
    let earlier = Names::first(reader.bytes(), i);
    if !is_new_name(earlier, word) {
        return Err(Reason::BadEntry.at(place));
    }
    Ok(())
}

/// Judges the names.
fn names(reader: &mut Reader, count: usize) -> Result<(), Fault>
    requires here { reader.old.place ≡ 8 }
    ensures judged { result ≡ unless (first_fault count (name_fault reader.old.bytes.now)) tt }
    ensures moved { OnOk result (ReadsOn reader.old reader.new (name_at reader.old.bytes.now count)) }
{
    for i in 0..count {
        name_entry(reader, i)?;
    }
    Ok(())
}

/// The first label with a bit that stands for none of so many names.
fn first_unlisted(labels: &[[u8; 4]], names: usize) -> Option<usize>
    requires { names ≤ 32 }
    ensures { result ≡ position (λ entry. not (nat_lt (u32_at entry 0) (2 ^ names))) labels.now }
{
    let limit = 1u64 << names;
    labels
        .iter()
        .position(|entry| u64::from(label(entry)) >= limit)
}

/// Judges the labels, whose bits stand for so many names.
fn labels<'a>(reader: &mut Reader<'a>, states: usize, names: usize) -> Result<&'a [[u8; 4]], Fault>
    requires here { reader.old.place ≡ labels_at reader.old.bytes.now }
    requires names { names ≡ name_count reader.old.bytes.now }
    requires few_names { names ≤ 32 }
    ensures judged { MatchResult result (λ x. (first_fault states (label_fault reader.old.bytes.now) ≡ None) × (map (λ entry. u32_at entry 0) x.now ≡ map (label_in reader.old.bytes.now) (range_with_len 0 states))) (λ f. first_fault states (label_fault reader.old.bytes.now) ≡ Some f) }
    ensures moved { OnOk result (ReadsOn reader.old reader.new (label_at reader.old.bytes.now states)) }
{
    let place = reader.place();
    let labels = reader.entries(states);
    if let Some(s) = first_unlisted(labels, names) {
        return Err(Reason::BadEntry.at(place + 4 * s));
    }
    if labels.len() < states {
        return Err(reader.cut_short());
    }
    Ok(labels)
}

/// Whether a step joins two states and comes after the one before it.
fn is_next(key: (usize, usize), last: Option<(usize, usize)>, states: usize) -> bool
    ensures { result ≡ (nat_lt key.0 states && (nat_lt key.1 states && follows last key)) }
{
    // A `match`: with `is_none_or`, opening a sheet takes 1.5 times as long.
    let in_order = match last {
        None => true,
        Some(last) => last < key,
    };
    key.0 < states && key.1 < states && in_order
}

/// Judges the steps one by one, and answers the lowest state that none of them leaves.
// Kept apart: inlined into its callers, its loop makes opening a sheet take 1.7 times as long.
#[inline(never)]
fn steps<'a>(
    reader: &mut Reader<'a>,
    count: usize,
    states: usize,
) -> Result<(&'a [[u8; 6]], usize), Fault>
    requires here { reader.old.place ≡ step_at reader.old.bytes.now 0 }
    requires states { states ≡ state_count reader.old.bytes.now }
    ensures judged { MatchResult result (λ x. (first_fault count (step_fault reader.old.bytes.now) ≡ None) × Lowest reader.old.bytes.now count x.1 × (map (λ entry. step_there entry 0) x.0.now ≡ map (step_in reader.old.bytes.now) (range_with_len 0 count))) (λ f. first_fault count (step_fault reader.old.bytes.now) ≡ Some f) }
    ensures moved { OnOk result (ReadsOn reader.old reader.new (step_at reader.old.bytes.now count)) }
{
    let place = reader.place();
    let steps = reader.entries(count);
    // Order and ways out in one pass, so that each entry is read once. The lowest state that is left out is a count and no
    // Option: at the number of states there is none.
    let mut low = 0;
    let mut last = None;
    for (i, entry) in steps.iter().enumerate() {
        let key = joined(entry);
        if !is_next(key, last, states) {
            return Err(Reason::BadEntry.at(place + 6 * i));
        }
        if key.0 == low {
            low += 1;
        }
        last = Some(key);
    }
    if steps.len() < count {
        return Err(reader.cut_short());
    }
    Ok((steps, low))
}

/// Judges what follows the labels.
fn tail<'a>(reader: &mut Reader<'a>, states: usize) -> Result<&'a [[u8; 6]], Fault>
    requires here { reader.old.place ≡ step_count_at reader.old.bytes.now }
    requires states { states ≡ state_count reader.old.bytes.now }
    ensures { MatchResult result (λ x. (tail_fault reader.old.bytes.now ≡ None) × (map (λ entry. step_there entry 0) x.now ≡ (described reader.old.bytes.now).steps)) (λ f. tail_fault reader.old.bytes.now ≡ Some f) }
{
    let count = reader.number()?;
    let (steps, low) = steps(reader, usize::from(count), states)?;
    if low < states {
        return Err(Reason::NoWayOut.at(low));
    }
    let end = reader.place();
    if end < reader.bytes().len() {
        return Err(Reason::LeftOver.at(end));
    }
    Ok(steps)
}

/// Judges a sheet from front to back, and answers its parts.
pub(crate) fn survey(bytes: &[u8]) -> Result<Parts<'_>, Fault>
    ensures { MatchResult result (λ parts. (sheet_fault bytes.now ≡ None) × (said_by parts ≡ described bytes.now)) (λ f. sheet_fault bytes.now ≡ Some f) }
{
    let mut reader = Reader::new(bytes);
    let (states, count) = header(&mut reader)?;
    names(&mut reader, count)?;
    let labels = labels(&mut reader, states, count)?;
    let steps = tail(&mut reader, states)?;
    let names = Names::first(bytes, count);
    Ok(Parts {
        names,
        labels,
        steps,
    })
}
