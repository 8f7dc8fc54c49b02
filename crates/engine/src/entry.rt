// What counts for one meter in one period.
ghost use Rattle.std.specs.Prelude.{◌≡◌};
ghost use Rattle.engine.specs.Entries.{used_by, entry_with, entry_by};

use meters::meter::Meter;
use meters::row::{MeterRow, Quantity};
use meters::used::UsedReading;
use readings::reading::Reading;
use rules::sources::Sources;
use totals::entry::Entry;

// The used reading of a meter, by a shape that may be blank: without it an import meter has no default.
fn used_by(meter: Meter, stored: Option<Reading>, shape: Option<u32>) -> Option<UsedReading>
    ensures { result ≡ used_by meter.row stored shape }
{
    match (stored, shape, meter.row().quantity) {
        (None, None, Quantity::Import) => None,
        _ => meter.used(stored, shape.unwrap_or(0)),
    }
}

// What counts for a record and what is stored for its meter, by its shape and its factor. Nothing is used of an unlawful record.
#[tactic(auto, using(meters::proofs::Laws::lawful_true, meters::proofs::Laws::unlawful_false))]
pub(crate) fn entry_with(
    row: MeterRow,
    stored: Option<Reading>,
    shape: Option<u32>,
    factor: Option<u16>,
) -> Entry
    ensures { result ≡ entry_with row stored shape factor }
{
    let used = Meter::new(row)
        .ok()
        .and_then(|meter| used_by(meter, stored, shape));
    Entry { row, used, factor }
}

// The same in a period, by the tables.
pub fn entry_of<S>(
    sources: &Sources<'_, S>,
    row: MeterRow,
    stored: Option<Reading>,
    period: u8,
) -> Entry
    ensures { result ≡ entry_by sources.now.factors.now sources.now.shapes.now row stored period }
{
    entry_with(
        row,
        stored,
        sources.shape(row, period),
        sources.factor(row, period),
    )
}
