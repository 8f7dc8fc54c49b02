// Known values of used readings.
ghost use Rattle.std.specs.Prelude.{◌≡◌, true};

use crate::meter::smart_import;
use meters::meter::Meter;
use meters::row::Status;
use readings::delivery::{Delivery, LARGEST_VOLUME};

// Whether a smart import meter that is energised, with nothing stored and a shape of 250 Wh, uses 250 Wh in class 114.
#[tactic(auto, using(crate::proofs::Defaults::smart_class))]
pub fn default_has_class() -> bool
    ensures { result ≡ true }
{
    let meter = Meter::new(smart_import(Status::Energised)).unwrap();
    let used = meter.used(None, 250).unwrap();
    used.volume == 250 && meter.class(used.quality) == Some(114)
}

// Whether a measured reading of 0 Wh is used nowhere at a meter that is de-energised.
pub fn empty_is_unused() -> bool
    ensures { result ≡ true }
{
    let empty = Delivery {
        stamp: 1,
        volume: 0,
        quality: 0,
    };
    let meter = Meter::new(smart_import(Status::Deenergised)).unwrap();
    let reading = empty.accept(LARGEST_VOLUME).unwrap();
    meter.used(Some(reading), 250).is_none()
}
