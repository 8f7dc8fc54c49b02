// A reading, and nothing that is none.
ghost use Rattle.std.specs.Prelude.{◌≡◌, ◌≤◌};
ghost use Rattle.qualities.specs.Quality.{IsZero, number_of};
ghost use Rattle.readings.specs.Limits.{latest_stamp, largest_volume};

use qualities::quality::Quality;

// What a meter used in a period of half an hour, as a data service told it. Every value of this type keeps the limits of a reading:
// its stamp (seconds since 1970), its volume (Wh), and that a zero quality comes with no volume.
#[derive(Clone, Copy, Debug, PartialEq, Eq)]
pub struct Reading {
    pub(crate) stamp: u64,
    pub(crate) volume: u32,
    pub(crate) quality: Quality,
    ghost stamped: { (1 ≤ stamp) × (stamp ≤ latest_stamp) },
    ghost bounded: { volume ≤ largest_volume },
    ghost zero: { (IsZero (number_of quality) → volume ≡ 0) },
}

impl Reading {
    // When it was made, in seconds since 1970.
    pub fn stamp(self) -> u64
        ensures { result ≡ self.stamp }
    {
        self.stamp
    }

    // How much was used, in Wh.
    pub fn volume(self) -> u32
        ensures { result ≡ self.volume }
    {
        self.volume
    }

    // How the figure came about.
    pub fn quality(self) -> Quality
        ensures { result ≡ self.quality }
    {
        self.quality
    }
}
