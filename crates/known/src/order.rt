// Known values of the order of readings.
ghost use Rattle.std.specs.Prelude.{◌≡◌, true};
ghost use Rattle.readings.specs.Limits.{largest_volume};
ghost use Rattle.readings.specs.Delivery.{Accepted};

use market::refusal::Refusal;
use readings::delivery::{Delivery, LARGEST_VOLUME};
use readings::reading::Reading;

// A measured reading stamped 90, of this volume in Wh.
fn measured(volume: u64) -> Result<Reading, Refusal>
    ensures { Accepted (record { stamp = 90; volume = volume; quality = 0 }) largest_volume result }
{
    let delivery = Delivery {
        stamp: 90,
        volume,
        quality: 0,
    };
    delivery.accept(LARGEST_VOLUME)
}

// Whether of two measured readings stamped 90, of 400 and 500 Wh, the one of 500 stands.
pub fn larger_stands() -> bool
    ensures { result ≡ true }
{
    let small = measured(400).unwrap();
    let large = measured(500).unwrap();
    large.is_ahead_of(small)
}
