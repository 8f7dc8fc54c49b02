// What counts after a change of one factor or one shape.
ghost use Rattle.std.specs.Prelude.{◌≡◌, Decides};
ghost use Rattle.engine.specs.Revision.{Concerns, revised_entry};

use crate::entry::entry_with;
use meters::row::MeterRow;
use readings::reading::Reading;
use rules::revision::Revision;
use rules::sources::Sources;
use totals::entry::Entry;

// Whether a meter is of the class that is changed.
pub(crate) fn concerns(revision: Revision, row: MeterRow) -> bool
    ensures { Decides result (Concerns revision row) }
{
    match revision {
        Revision::Factor { class, .. } => row.loss_class == class,
        Revision::Shape { class, .. } => row.shape_class == class,
    }
}

// What counts in a period for a record of that class and what is stored for its meter, by the tables before the change.
pub(crate) fn revised_entry<S>(
    sources: &Sources<'_, S>,
    revision: Revision,
    row: MeterRow,
    stored: Option<Reading>,
    period: u8,
) -> Entry
    ensures { result ≡ revised_entry revision sources.now.factors.now sources.now.shapes.now row stored period }
{
    match revision {
        Revision::Factor { factor, .. } => {
            entry_with(row, stored, sources.shape(row, period), Some(factor))
        }
        Revision::Shape { shape, .. } => {
            entry_with(row, stored, Some(shape), sources.factor(row, period))
        }
    }
}
