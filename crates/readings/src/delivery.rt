// Deliveries: readings as they are handed over, any numbers, and what is made of them.
ghost use Rattle.std.specs.Prelude.{◌≡◌};
ghost use Rattle.readings.specs.Delivery.{Accepted};
ghost use Rattle.readings.specs.Numbers.{reading_of};

use crate::reading::Reading;
use market::refusal::Refusal;
use qualities::quality::Quality;

// The latest stamp of a reading, in seconds since 1970.
pub const LATEST_STAMP: u64 = 4_294_967_295;

// The largest volume of a reading, in Wh.
pub const LARGEST_VOLUME: u64 = 1_000_000_000;

// What a data service hands over: a stamp, a volume and a quality number, each unchecked.
#[derive(Clone, Copy, Debug, PartialEq, Eq)]
pub struct Delivery {
    pub stamp: u64,
    pub volume: u64,
    pub quality: u8,
}

impl Delivery {
    // The reading that was handed over, if it is one and its volume is within the limit.
    pub fn accept(self, limit: u64) -> Result<Reading, Refusal>
        ensures { Accepted self limit result }
    {
        if !(1..=LATEST_STAMP).contains(&self.stamp) {
            return Err(Refusal::StampOrQuality);
        }
        let quality = Quality::try_from(self.quality)?;
        if quality.is_zero() && self.volume > 0 {
            return Err(Refusal::VolumeNotZero);
        }
        if self.volume > limit || self.volume > LARGEST_VOLUME {
            return Err(Refusal::VolumeTooLarge);
        }
        Ok(Reading {
            stamp: self.stamp,
            volume: self.volume as u32,
            quality,
        })
    }
}

impl Reading {
    // The reading of three numbers, if they make one.
    #[tactic(auto, using(crate::proofs::Numbers::accepted_is))]
    pub fn from_numbers(stamp: u64, volume: u64, quality: u8) -> Option<Reading>
        ensures { result ≡ reading_of stamp volume quality }
    {
        let delivery = Delivery {
            stamp,
            volume,
            quality,
        };
        delivery.accept(LARGEST_VOLUME).ok()
    }
}
