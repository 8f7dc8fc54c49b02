// Making meters of records.
ghost use Rattle.std.specs.Prelude.{◌≡◌};
ghost use Rattle.meters.specs.Lawful.{up_to, up_to_or_none, connects};
ghost use Rattle.meters.specs.Making.{Made};

use crate::meter::Meter;
use crate::row::{Connection, MeterRow, Segment};
use market::refusal::Refusal;

// Whether a number is one of 1 to top.
fn is_up_to(top: u8, number: u8) -> bool
    ensures { result ≡ up_to top number }
{
    (1..=top).contains(&number)
}

// Whether there is no number, or it is one of 1 to top.
fn is_up_to_or_none(top: u8, number: Option<u8>) -> bool
    ensures { result ≡ up_to_or_none top number }
{
    number.is_none_or(|n| is_up_to(top, n))
}

// Whether a segment can have a connection.
pub(crate) fn can_connect(segment: Segment, connection: Connection) -> bool
    ensures { result ≡ connects segment connection }
{
    segment == Segment::Advanced || connection == Connection::WholeCurrent
}

impl Meter {
    // The meter of a record, if it is lawful. `new` and no `TryFrom`: the same test and the same clause under another name.
    pub fn new(row: MeterRow) -> Result<Meter, Refusal>
        ensures { Made row result }
    {
        if (1..=9_999_999_999_999).contains(&row.mpan)
            && can_connect(row.segment, row.connection)
            && is_up_to(32, row.shape_class)
            && is_up_to(40, row.loss_class)
            && is_up_to(16, row.base_unit)
            && is_up_to_or_none(16, row.additional_unit)
            && is_up_to_or_none(32, row.tariff)
            && is_up_to(8, row.supplier)
        {
            Ok(Meter { row })
        } else {
            Err(Refusal::UnlawfulRecord)
        }
    }
}
