// The quality indicators of settlement data.
ghost use Rattle.std.specs.Prelude.{◌≡◌, Decides, Some, codes};
ghost use Rattle.std.specs.Fmt.{padded};
ghost use Rattle.market.specs.declared.refusal.Refusal.TheVariants.{StampOrQuality};
ghost use Rattle.qualities.specs.Quality.{IsZero, number_of, text_of, ByNumber, ByText};

use market::refusal::Refusal;
use std::error::Error;
use std::fmt;
use std::str::FromStr;

// How a volume came about: measured (A and AAE), estimated (E, EA and EAE) or an estimate of zero (ZE). They are numbered from 0 in
// this order.
#[derive(Clone, Copy, Debug, PartialEq, Eq, PartialOrd, Ord)]
pub enum Quality {
    A,
    A1,
    A2,
    A3,
    AAE1,
    AAE2,
    AAE3,
    E,
    E1,
    E2,
    E3,
    E4,
    E5,
    E6,
    E7,
    E8,
    EA1,
    EA2,
    EA3,
    EA4,
    EA5,
    EA6,
    EA7,
    EA8,
    EA9,
    EA10,
    EA11,
    EA12,
    EAE1,
    EAE2,
    EAE3,
    ZE,
    ZE1,
    ZE2,
    ZE3,
}

// The qualities in the order of their numbers.
pub const QUALITIES: [Quality; 35] = [
    Quality::A,
    Quality::A1,
    Quality::A2,
    Quality::A3,
    Quality::AAE1,
    Quality::AAE2,
    Quality::AAE3,
    Quality::E,
    Quality::E1,
    Quality::E2,
    Quality::E3,
    Quality::E4,
    Quality::E5,
    Quality::E6,
    Quality::E7,
    Quality::E8,
    Quality::EA1,
    Quality::EA2,
    Quality::EA3,
    Quality::EA4,
    Quality::EA5,
    Quality::EA6,
    Quality::EA7,
    Quality::EA8,
    Quality::EA9,
    Quality::EA10,
    Quality::EA11,
    Quality::EA12,
    Quality::EAE1,
    Quality::EAE2,
    Quality::EAE3,
    Quality::ZE,
    Quality::ZE1,
    Quality::ZE2,
    Quality::ZE3,
];

// The error of a number that no quality has.
#[derive(Clone, Copy, Debug, PartialEq, Eq)]
pub struct UnknownQuality;

// The error of a name that no quality has: another than that of a number, which alone has a refusal.
#[derive(Clone, Copy, Debug, PartialEq, Eq)]
pub struct UnknownName;

impl Quality {
    // Its number, 0 to 34.
    pub fn number(self) -> u8
        ensures { result ≡ number_of self }
    {
        self as u8
    }

    // Whether it says that nothing was used: ZE, ZE1, ZE2 or ZE3.
    pub fn is_zero(self) -> bool
        ensures { Decides result (IsZero (number_of self)) }
    {
        matches!(
            self,
            Quality::ZE | Quality::ZE1 | Quality::ZE2 | Quality::ZE3
        )
    }

    // Its name, as it is written in settlement data.
    pub fn text(self) -> &'static str
        ensures { result.now ≡ text_of self }
    {
        match self {
            Quality::A => "A",
            Quality::A1 => "A1",
            Quality::A2 => "A2",
            Quality::A3 => "A3",
            Quality::AAE1 => "AAE1",
            Quality::AAE2 => "AAE2",
            Quality::AAE3 => "AAE3",
            Quality::E => "E",
            Quality::E1 => "E1",
            Quality::E2 => "E2",
            Quality::E3 => "E3",
            Quality::E4 => "E4",
            Quality::E5 => "E5",
            Quality::E6 => "E6",
            Quality::E7 => "E7",
            Quality::E8 => "E8",
            Quality::EA1 => "EA1",
            Quality::EA2 => "EA2",
            Quality::EA3 => "EA3",
            Quality::EA4 => "EA4",
            Quality::EA5 => "EA5",
            Quality::EA6 => "EA6",
            Quality::EA7 => "EA7",
            Quality::EA8 => "EA8",
            Quality::EA9 => "EA9",
            Quality::EA10 => "EA10",
            Quality::EA11 => "EA11",
            Quality::EA12 => "EA12",
            Quality::EAE1 => "EAE1",
            Quality::EAE2 => "EAE2",
            Quality::EAE3 => "EAE3",
            Quality::ZE => "ZE",
            Quality::ZE1 => "ZE1",
            Quality::ZE2 => "ZE2",
            Quality::ZE3 => "ZE3",
        }
    }
}

// The quality of a number.
impl TryFrom<u8> for Quality {
    type Error = UnknownQuality;

    ghost try_from_gives = { ByNumber };

    #[tactic(auto, using(crate::proofs::Same::by_number))]
    fn try_from(number: u8) -> Result<Quality, UnknownQuality> {
        QUALITIES
            .get(usize::from(number))
            .copied()
            .ok_or(UnknownQuality)
    }
}

// The quality that is written so.
impl FromStr for Quality {
    type Err = UnknownName;

    ghost from_str_gives = { ByText };

    fn from_str(text: &str) -> Result<Quality, UnknownName> {
        QUALITIES
            .iter()
            .find(|quality| quality.text() == text)
            .copied()
            .ok_or(UnknownName)
    }
}

// A quality is printed by its name.
impl fmt::Display for Quality {
    ghost output = { λ q. Some (text_of q) };

    ghost styled_output = { λ q spec. Some (padded spec (text_of q)) };

    fn fmt<W: fmt::Write>(&self, f: &mut fmt::Formatter<W>) -> fmt::Result {
        f.pad(self.text())
    }
}

impl fmt::Display for UnknownQuality {
    ghost output = { λ _. Some (codes "no such quality") };

    fn fmt<W: fmt::Write>(&self, f: &mut fmt::Formatter<W>) -> fmt::Result {
        f.write_str("no such quality")
    }
}

impl Error for UnknownQuality {}

impl fmt::Display for UnknownName {
    ghost output = { λ _. Some (codes "no such name of a quality") };

    fn fmt<W: fmt::Write>(&self, f: &mut fmt::Formatter<W>) -> fmt::Result {
        f.write_str("no such name of a quality")
    }
}

impl Error for UnknownName {}

// The refusal of a number that no quality has.
impl From<UnknownQuality> for Refusal {
    ghost from_gives = { λ _ refusal. refusal ≡ StampOrQuality };

    fn from(_unknown: UnknownQuality) -> Refusal {
        Refusal::StampOrQuality
    }
}
