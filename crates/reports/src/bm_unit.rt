// The BM Unit report.
ghost use Rattle.std.specs.Prelude.{◌≡◌};
ghost use Rattle.reports.specs.BmUnit.{loss_of, unit_rules, UnitExact};

use crate::places::{BM_UNITS, CLASSES, unit_place};
use amounts::bm_unit_amount::BmUnitAmount;
use meters::meter::Meter;
use meters::used::UsedReading;
use totals::report::Report;

// The loss of a volume in mWh, by a factor in thousandths.
fn loss(factor: u16, volume: u32) -> i64
    ensures { result ≡ loss_of factor volume }
{
    (i64::from(factor) - 1000) * i64::from(volume)
}

// Volume, loss and count by BM Unit (the additional one if the meter has one) and consumption component class.
#[derive(Clone, Copy)]
pub struct BmUnitReport;

impl Report for BmUnitReport {
    type Amount = BmUnitAmount;

    ghost rules = { λ _. unit_rules };

    fn place_count(&self) -> usize {
        BM_UNITS as usize * CLASSES as usize
    }

    fn place_of(&self, meter: Meter, used: UsedReading) -> Option<usize> {
        let row = meter.row();
        let unit = row.additional_unit.unwrap_or(row.base_unit);
        let class = meter.class(used.quality)?;
        unit_place(unit, class)
    }

    fn amount_of(&self, _meter: Meter, used: UsedReading, factor: u16) -> BmUnitAmount
        ensures value { result ≡ unit_rules.amount _meter.row used factor }
        ensures exact { UnitExact used factor result }
    {
        BmUnitAmount {
            volume: u64::from(used.volume),
            loss: loss(factor, used.volume),
            count: 1,
        }
    }

    fn vouch(&self) {}
}
