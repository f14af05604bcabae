#![tactic(auto)]

ghost use Rattle.std.specs.Prelude.{◌≡◌, Some};
ghost use Rattle.fault.specs.Numbers.{number_of, layer_of, layer_number, words_of, line_of};
ghost use Rattle.fault.specs.Refusals.{at};

use std::error::Error;
use std::fmt;

/// The part of the observatory's rules that a refusal speaks of, under its published number.
#[derive(Clone, Copy, Debug, PartialEq, Eq, PartialOrd, Ord)]
pub enum Layer {
    Sheet = 1,
    Text = 2,
    Cabinet = 3,
    Search = 4,
}

impl Layer {
    /// The number under which the layer is published.
    pub fn number(self) -> u8
        ensures { result ≡ layer_number self }
    {
        self as u8
    }
}

/// Why a call is refused, under its published number.
#[derive(Clone, Copy, Debug, PartialEq, Eq, PartialOrd, Ord)]
pub enum Reason {
    BadMark = 1,
    CutShort = 2,
    BadCount = 3,
    BadEntry = 4,
    NoWayOut = 5,
    LeftOver = 6,
    TextTooLong = 7,
    StrayByte = 8,
    NotDerivable = 9,
    UnknownName = 10,
    TooManyParts = 11,
    TooManyLetters = 12,
    NoSuchCard = 13,
    CardTaken = 14,
    NoSuchState = 15,
    NotThatStep = 16,
    OnlyWayOut = 17,
    BarsUsedUp = 18,
    NothingToSeek = 19,
    WorkTooShort = 20,
    OutTooShort = 21,
}

impl Reason {
    /// The number under which the reason is published.
    pub fn number(self) -> u8
        ensures { result ≡ number_of self }
    {
        self as u8 // each variant carries its published number
    }

    /// The layer that refuses.
    pub fn layer(self) -> Layer
        ensures { result ≡ layer_of self }
    {
        // By number, since the published table gives each layer a block of numbers.
        match self.number() {
            1..=6 => Layer::Sheet,
            7..=12 => Layer::Text,
            20..=21 => Layer::Search,
            _ => Layer::Cabinet,
        }
    }

    /// A refusal for this reason.
    pub fn at(self, place: usize) -> Fault
        ensures { result ≡ at self place }
    {
        Fault {
            place,
            reason: self,
        }
    }

    /// What is wrong, in words for an operator.
    pub fn words(self) -> &'static str
        ensures { result.now ≡ words_of self }
    {
        match self {
            Reason::BadMark => "this is no mode sheet of version 1",
            Reason::CutShort => "the bytes end inside a field",
            Reason::BadCount => "a sheet has 1 to 1024 states and at most 32 names",
            Reason::BadEntry => "this name, label or step breaks its rule",
            Reason::NoWayOut => "this state has no step out",
            Reason::LeftOver => "bytes follow the last step",
            Reason::TextTooLong => "a rule has at most 255 bytes",
            Reason::StrayByte => "no word starts with this byte",
            Reason::NotDerivable => "no rule goes on like this",
            Reason::UnknownName => "the machine does not know this name",
            Reason::TooManyParts => "a rule has at most 64 parts",
            Reason::TooManyLetters => "an expression has at most 31 letters",
            Reason::NoSuchCard => "there is no card with a rule here",
            Reason::CardTaken => "this card holds a rule already",
            Reason::NoSuchState => "the machine has no such state",
            Reason::NotThatStep => "there is no such step to take away or give back",
            Reason::OnlyWayOut => "this step is the only way out of its state",
            Reason::BarsUsedUp => "64 steps are barred already",
            Reason::NothingToSeek => "this card's rule seeks no path",
            Reason::WorkTooShort => "the work list is too short for this rule",
            Reason::OutTooShort => "the out list is too short for this rule",
        }
    }
}

impl fmt::Display for Reason {
    ghost output = { λ r. Some (words_of r) };

    fn fmt<W: fmt::Write>(&self, f: &mut fmt::Formatter<W>) -> fmt::Result {
        f.write_str(self.words())
    }
}

/// A refusal: the place that it speaks of, and its reason. Of two, the less is the one to name first.
#[derive(Clone, Copy, PartialEq, Eq, PartialOrd, Ord)]
pub struct Fault {
    pub place: usize,
    pub reason: Reason,
}

// By hand, since the fields stand in the order of naming, and the text puts the reason first.
impl fmt::Debug for Fault {
    fn fmt<W: fmt::Write>(&self, f: &mut fmt::Formatter<W>) -> fmt::Result {
        f.debug_struct("Fault")
            .field("reason", &self.reason)
            .field("place", &self.place)
            .finish()
    }
}

impl fmt::Display for Fault {
    ghost output = { λ f. Some (line_of f) };

    fn fmt<W: fmt::Write>(&self, f: &mut fmt::Formatter<W>) -> fmt::Result {
        let Fault { place, reason } = self;
        let number = reason.number();
        let layer = reason.layer().number();
        write!(f, "fault {number} layer {layer} place {place}: {reason}")
    }
}

impl Error for Fault {}
