// The meter of the known values.
ghost use Rattle.known.specs.Values.{SmartImport};

use meters::row::{Connection, MeterRow, Quantity, Segment, Status};

// A smart import meter.
pub fn smart_import(status: Status) -> MeterRow
    ensures { SmartImport status result }
{
    MeterRow {
        mpan: 1,
        segment: Segment::Smart,
        quantity: Quantity::Import,
        connection: Connection::WholeCurrent,
        status,
        shape_class: 1,
        loss_class: 1,
        base_unit: 1,
        additional_unit: None,
        tariff: None,
        supplier: 1,
    }
}
