// The tables of factors and of shapes: an entry for each class and period.
ghost use Rattle.std.specs.Prelude.{◌≡◌};
ghost use Rattle.rules.specs.Tables.{cell_in, entry_in, EntrySet};

use market::refusal::Refusal;
use meters::row::{Connection, MeterRow, Quantity, Segment, Status};

// The loss classes, each with a line loss factor in every period.
pub const LOSS_CLASSES: u8 = 40;

// The shape classes, each with a load shape in every period.
pub const SHAPE_CLASSES: u8 = 32;

// Where the entry of a class in a period lies in a table that has so many classes, if there are such a class and period.
fn cell_in(classes: u8, class: u8, period: u8) -> Option<usize>
    ensures { result ≡ cell_in classes class period }
{
    let exists = (1..=classes).contains(&class) && period >= 1;
    exists.then(|| (period as usize - 1) * classes as usize + (class as usize - 1))
}

// The entry of a class in a period of a table that has so many classes: none where it is blank, or where there is no such class or period.
pub fn entry_at<T: Copy>(table: &[Option<T>], classes: u8, class: u8, period: u8) -> Option<T>
    ensures { result ≡ entry_in classes table.now class period }
{
    let index = cell_in(classes, class, period)?;
    table.get(index).copied().flatten()
}

// Sets the entry of a class in a period of a table that has so many classes; 3 where there is none.
pub fn set_entry<T: Copy>(
    table: &mut [Option<T>],
    classes: u8,
    class: u8,
    period: u8,
    value: T,
) -> Result<(), Refusal>
    ensures { EntrySet classes table.old class period value table.new result }
{
    let index = cell_in(classes, class, period).ok_or(Refusal::NoSuch)?;
    // By an index test: `get_mut` was tried, and the proof did not close.
    if index >= table.len() {
        return Err(Refusal::NoSuch);
    }
    table[index] = Some(value);
    Ok(())
}

// The record of no meter, which is unlawful.
pub const NO_ROW: MeterRow = MeterRow {
    mpan: 0,
    segment: Segment::Smart,
    quantity: Quantity::Import,
    connection: Connection::WholeCurrent,
    status: Status::Energised,
    shape_class: 0,
    loss_class: 0,
    base_unit: 0,
    additional_unit: None,
    tariff: None,
    supplier: 0,
};
