ghost use Rattle.std.specs.Prelude.{◌≡◌, ◌+◌, ◌*◌, ◌/◌, ◌-◌, ◌<◌, ◌≤◌, length, min, take, drop, Some, MatchResult, OnOk};
ghost use Rattle.fault.specs.declared.Reason.TheVariants.{CutShort};
ghost use Rattle.fault.specs.Refusals.{at, unless};
ghost use Rattle.layout.specs.Fields.{byte_at, u16_at};
ghost use Rattle.sheet.specs.Fields.{cut_fault, EntriesAt};

use fault::{Fault, Reason};

/// Reads a sheet's bytes from front to back.
#[derive(Drop)]
pub struct Reader<'a> {
    bytes: &'a [u8],
    place: usize,
    ghost within: { place ≤ length bytes.now },
}

impl<'a> Reader<'a> {
    ghost use Rattle.sheet.specs.Readers.{ReadsOn};

    /// A reader before the first byte.
    pub(crate) fn new(bytes: &'a [u8]) -> Reader<'a>
        ensures bytes { result.bytes.now ≡ bytes.now }
        ensures place { result.place ≡ 0 }
    {
        Reader { bytes, place: 0 }
    }

    /// The bytes that are read.
    pub(crate) fn bytes(&self) -> &'a [u8]
        ensures { result.now ≡ self.now.bytes.now }
    {
        self.bytes
    }

    /// Where the next byte stands.
    pub(crate) fn place(&self) -> usize
        ensures { result ≡ self.now.place }
    {
        self.place
    }

    /// The refusal of a field that the bytes end inside of.
    pub(crate) fn cut_short(&self) -> Fault
        ensures { result ≡ at CutShort (length self.now.bytes.now) }
    {
        Reason::CutShort.at(self.bytes.len())
    }

    /// The bytes that are still to be read.
    pub(crate) fn rest(&self) -> &'a [u8]
        ensures { result.now ≡ drop self.now.place self.now.bytes.now }
    {
        &self.bytes[self.place..]
    }

    /// The next field, of N bytes.
    pub(crate) fn take<const N: usize>(&mut self) -> Result<&'a [u8; N], Fault>
        ensures field { MatchResult result (λ x. (self.old.place + N ≤ length self.old.bytes.now) × (x.now ≡ take N (drop self.old.place self.old.bytes.now))) (λ f. cut_fault self.old.bytes.now self.old.place N ≡ Some f) }
        ensures moved { OnOk result (ReadsOn self.old self.new (self.old.place + N)) }
    {
        let field = self.rest().first_chunk::<N>().ok_or(self.cut_short())?;
        self.place += N;
        Ok(field)
    }

    /// The next byte.
    pub(crate) fn byte(&mut self) -> Result<u8, Fault>
        ensures value { result ≡ unless (cut_fault self.old.bytes.now self.old.place 1) (byte_at self.old.bytes.now self.old.place) }
        ensures moved { OnOk result (ReadsOn self.old self.new (self.old.place + 1)) }
    {
        Ok(self.take::<1>()?[0])
    }

    /// The next 16-bit number.
    pub(crate) fn number(&mut self) -> Result<u16, Fault>
        ensures value { result ≡ unless (cut_fault self.old.bytes.now self.old.place 2) (u16_at self.old.bytes.now self.old.place) }
        ensures moved { OnOk result (ReadsOn self.old self.new (self.old.place + 2)) }
    {
        Ok(u16::from_le_bytes(*self.take()?))
    }

    /// The next field, of this size.
    // Beside `take`, whose fields have a size of their own and come as arrays.
    pub(crate) fn word(&mut self, size: usize) -> Result<&'a [u8], Fault>
        ensures field { MatchResult result (λ x. (self.old.place + size ≤ length self.old.bytes.now) × (x.now ≡ take size (drop self.old.place self.old.bytes.now))) (λ f. cut_fault self.old.bytes.now self.old.place size ≡ Some f) }
        ensures moved { OnOk result (ReadsOn self.old self.new (self.old.place + size)) }
    {
        let word = self.rest().get(..size).ok_or(self.cut_short())?;
        self.place += size;
        Ok(word)
    }

    /// The next entries of N bytes each, so many of them, or as many as are whole.
    pub(crate) fn entries<const N: usize>(&mut self, count: usize) -> &'a [[u8; N]]
        requires { 0 < N }
        ensures entries { EntriesAt N self.old.bytes.now self.old.place result.now }
        ensures count { length result.now ≡ min count ((length self.old.bytes.now - self.old.place) / N) }
        ensures room { self.old.place + N * length result.now ≤ length self.old.bytes.now }
        ensures moved { ReadsOn self.old self.new (self.old.place + N * length result.now) }
    {
        let (entries, _) = self.rest().as_chunks::<N>();
        let entries = &entries[..count.min(entries.len())];
        self.place += N * entries.len();
        entries
    }
}
