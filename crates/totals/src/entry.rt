// What counts for a meter in a period.
ghost use Rattle.totals.specs.Entry.{Named};

use crate::report::Report;
use meters::meter::Meter;
use meters::row::MeterRow;
use meters::used::UsedReading;

// A meter's record, its used reading if it has one, and the factor of its loss class if there is one.
#[derive(Clone, Copy)]
pub struct Entry {
    pub row: MeterRow,
    pub used: Option<UsedReading>,
    pub factor: Option<u16>,
}

// The place that a report names for an entry, and the amount that goes there; none where the record is unlawful, nothing is used, there is
// no factor, or the report names no place.
pub fn named<R: Report>(report: &R, entry: Entry) -> Option<(usize, R::Amount)>
    ensures { Named R.Amount.algebra (R.rules report.now) entry result }
{
    let used = entry.used?;
    let factor = entry.factor?;
    let meter = Meter::new(entry.row).ok()?;
    let place = report.place_of(meter, used)?;
    Some((place, report.amount_of(meter, used, factor)))
}
