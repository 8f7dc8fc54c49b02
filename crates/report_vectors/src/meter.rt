// The meter of the cases.
use meters::row::{Connection, MeterRow, Quantity, Segment, Status};

// Written out, as in the other worked cases, so that its values are read beside the case.
// A smart import meter of BM Unit 2 and supplier 3.
pub(crate) fn smart_import(status: Status, tariff: Option<u8>) -> MeterRow {
    MeterRow {
        mpan: 1,
        segment: Segment::Smart,
        quantity: Quantity::Import,
        connection: Connection::WholeCurrent,
        status,
        shape_class: 1,
        loss_class: 1,
        base_unit: 2,
        additional_unit: None,
        tariff,
        supplier: 3,
    }
}
