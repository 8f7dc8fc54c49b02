// The DUoS report.
ghost use Rattle.std.specs.Prelude.{◌≡◌};
ghost use Rattle.reports.specs.Duos.{is_actual, is_counted, duos_rules, DuosExact};

use crate::places::{SUPPLIERS, TARIFFS, duos_place};
use amounts::duos_amount::DuosAmount;
use meters::meter::Meter;
use meters::row::Status;
use meters::used::UsedReading;
use qualities::quality::Quality;
use totals::report::Report;

// Volumes and counts for Distribution Use of System charges, by tariff and supplier. A meter without a tariff has no place.
#[derive(Clone, Copy)]
pub struct DuosReport;

// Whether a volume of this quality is actual; all others are estimated.
fn is_actual(quality: Quality) -> bool
    ensures { result ≡ is_actual quality }
{
    matches!(
        quality,
        Quality::A | Quality::A1 | Quality::A2 | Quality::A3
    )
}

// Whether a de-energised meter is counted by a volume of this quality.
fn is_counted(quality: Quality) -> bool
    ensures { result ≡ is_counted quality }
{
    is_actual(quality) || quality == Quality::E6
}

impl Report for DuosReport {
    type Amount = DuosAmount;

    ghost rules = { λ _. duos_rules };

    fn place_count(&self) -> usize {
        TARIFFS as usize * SUPPLIERS as usize
    }

    fn place_of(&self, meter: Meter, _used: UsedReading) -> Option<usize> {
        let row = meter.row();
        let tariff = row.tariff?;
        duos_place(tariff, row.supplier)
    }

    fn amount_of(&self, meter: Meter, used: UsedReading, _factor: u16) -> DuosAmount
        ensures value { result ≡ duos_rules.amount meter.row used _factor }
        ensures exact { DuosExact meter.row used result }
    {
        let volume = u64::from(used.volume);
        let energised = meter.row().status == Status::Energised;
        let (actual, estimated) = if is_actual(used.quality) {
            (volume, 0)
        } else {
            (0, volume)
        };
        DuosAmount {
            volume,
            energised: u64::from(energised),
            deenergised: u64::from(!energised && is_counted(used.quality)),
            actual,
            estimated,
        }
    }

    fn vouch(&self) {}
}
