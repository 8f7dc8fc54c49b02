// Which reading of a meter is used in a period, and which deliveries it takes.
ghost use Rattle.std.specs.Prelude.{◌≡◌, Decides};
ghost use Rattle.meters.specs.Class.{class_at, InTable};
ghost use Rattle.meters.specs.Used.{used, default_of, used_of, UsedLaws, SuitsDeenergised, Admitted};

use crate::class::consumption_class;
use crate::meter::Meter;
use crate::row::{Quantity, Segment, Status};
use market::refusal::Refusal;
use qualities::quality::Quality;
use readings::reading::Reading;

// What counts for a meter in a period: a volume in Wh and its quality.
#[derive(Clone, Copy, Debug, PartialEq, Eq)]
pub struct UsedReading {
    pub volume: u32,
    pub quality: Quality,
}

// A reading counts with its own volume and quality.
impl From<Reading> for UsedReading {
    ghost from_gives = { λ reading counted. counted ≡ used reading.volume reading.quality };

    fn from(reading: Reading) -> UsedReading {
        UsedReading {
            volume: reading.volume(),
            quality: reading.quality(),
        }
    }
}

// What an energised meter is taken to have used where nothing is stored: on import the load shape, on export nothing.
fn default_reading(segment: Segment, quantity: Quantity, shape: u32) -> UsedReading
    ensures { result ≡ default_of segment quantity shape }
{
    let volume = match quantity {
        Quantity::Import => shape,
        Quantity::Export => 0,
    };
    let quality = match (quantity, segment) {
        (Quantity::Import, Segment::Smart) => Quality::E8,
        (Quantity::Import, Segment::Advanced) => Quality::EA12,
        (Quantity::Export, Segment::Smart) => Quality::ZE1,
        (Quantity::Export, Segment::Advanced) => Quality::EAE1,
        (_, Segment::Unmetered) => Quality::E,
    };
    UsedReading { volume, quality }
}

// Whether a de-energised meter takes a reading of this quality.
fn suits_deenergised(quality: Quality) -> bool
    ensures { Decides result (SuitsDeenergised quality) }
{
    matches!(
        quality,
        Quality::A
            | Quality::A1
            | Quality::A2
            | Quality::A3
            | Quality::AAE1
            | Quality::AAE2
            | Quality::AAE3
            | Quality::E2
            | Quality::E6
    )
}

impl Meter {
    // The class of a volume of this quality at the meter, 100 to 182, or none.
    #[tactic(auto, using(crate::proofs::Bounds::class_in_table), unfolding(crate::specs::Class::class_at))]
    pub fn class(self, quality: Quality) -> Option<u8>
        ensures value { result ≡ class_at self.row quality }
        ensures bounds { InTable result }
    {
        consumption_class(
            self.row.segment,
            self.row.quantity,
            self.row.connection,
            quality,
        )
    }

    // The reading that is used: what is stored, if the meter is energised or the volume is not 0; with nothing stored a default, if
    // the meter is energised. The shape is that of the meter's class in the period.
    #[tactic(auto, using(crate::proofs::Uses::used_laws))]
    pub fn used(self, stored: Option<Reading>, shape: u32) -> Option<UsedReading>
        ensures value { result ≡ used_of self.row stored shape }
        ensures laws { UsedLaws }
    {
        let energised = self.row.status == Status::Energised;
        match stored {
            Some(reading) => (energised || reading.volume() != 0).then(|| reading.into()),
            None => energised.then(|| default_reading(self.row.segment, self.row.quantity, shape)),
        }
    }

    // The class in which a delivery of this quality counts at the meter.
    pub fn admit(self, quality: Quality) -> Result<u8, Refusal>
        ensures { Admitted self.row quality result }
    {
        if self.row.status == Status::Deenergised && !suits_deenergised(quality) {
            return Err(Refusal::Deenergised);
        }
        self.class(quality).ok_or(Refusal::NoClass)
    }
}
