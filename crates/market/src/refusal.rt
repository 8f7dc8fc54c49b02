// Why a call is turned down: one list for the whole engine.
ghost use Rattle.std.specs.Prelude.{◌≡◌};
ghost use Rattle.market.specs.Refusal.{number_of};

// The reasons, in the order of their numbers. The lowest one that applies is the answer.
#[derive(Clone, Copy, Debug, PartialEq, Eq, PartialOrd, Ord)]
pub enum Refusal {
    Sizes = 1,
    State = 2,
    NoSuch = 3,
    UnlawfulRecord = 4,
    UnclassedReading = 5,
    AboveLimit = 6,
    BlankFactor = 7,
    BlankShape = 8,
    StampOrQuality = 9,
    VolumeNotZero = 10,
    VolumeTooLarge = 11,
    Deenergised = 12,
    NoClass = 13,
    NoSuchDate = 14,
    Layout = 15,
    Mpan = 16,
    TooFewBytes = 17,
}

impl Refusal {
    // The number under which a refusal is reported, 1 to 17.
    pub fn number(self) -> u8
        ensures { result ≡ number_of self }
    {
        self as u8
    }
}
