// The places of the reports, and what stands there.
ghost use Rattle.std.specs.Prelude.{◌+◌, ◌≤◌};
ghost use Rattle.reports.specs.Places.{Placed, StandsAt, UnitPlaced, UnitAt, DuosPlaced, DuosAt, PlaceLaws};

// The BM Units, and the classes from 100 to 182 in each.
pub const BM_UNITS: u8 = 16;

pub const CLASSES: u8 = 83;

// Where classes begin.
const FIRST_CLASS: u8 = 100;

// The tariffs, and the suppliers in each.
pub const TARIFFS: u8 = 32;

pub const SUPPLIERS: u8 = 8;

// Where suppliers begin.
const FIRST_SUPPLIER: u8 = 1;

// The place of a row and a column, if they exist: rows are counted from 1, and columns from a first one.
fn place_of<const ROWS: u8, const COLUMNS: u8, const FIRST: u8>(
    row: u8,
    column: u8,
) -> Option<usize>
    ensures { Placed ROWS COLUMNS FIRST row column result }
{
    let row = row.checked_sub(1)?;
    let column = column.checked_sub(FIRST)?;
    if row < ROWS && column < COLUMNS {
        Some(row as usize * COLUMNS as usize + column as usize)
    } else {
        None
    }
}

// The row and the column of a place, if it exists.
fn at<const ROWS: u8, const COLUMNS: u8, const FIRST: u8>(place: usize) -> Option<(u8, u8)>
    requires { FIRST + COLUMNS ≤ 256 }
    ensures { StandsAt ROWS COLUMNS FIRST place result }
{
    if place >= ROWS as usize * COLUMNS as usize {
        return None;
    }
    Some((
        1 + (place / COLUMNS as usize) as u8,
        FIRST + (place % COLUMNS as usize) as u8,
    ))
}

// The place of a BM Unit and a class, if they exist.
pub fn unit_place(unit: u8, class: u8) -> Option<usize>
    ensures { UnitPlaced unit class result }
{
    place_of::<BM_UNITS, CLASSES, FIRST_CLASS>(unit, class)
}

// The BM Unit and the class of a place, if it exists.
pub fn unit_at(place: usize) -> Option<(u8, u8)>
    ensures value { UnitAt place result }
    ensures laws { PlaceLaws }
{
    at::<BM_UNITS, CLASSES, FIRST_CLASS>(place)
}

// The place of a tariff and a supplier, if they exist.
pub fn duos_place(tariff: u8, supplier: u8) -> Option<usize>
    ensures { DuosPlaced tariff supplier result }
{
    place_of::<TARIFFS, SUPPLIERS, FIRST_SUPPLIER>(tariff, supplier)
}

// The tariff and the supplier of a place, if it exists.
pub fn duos_at(place: usize) -> Option<(u8, u8)>
    ensures value { DuosAt place result }
    ensures laws { PlaceLaws }
{
    at::<TARIFFS, SUPPLIERS, FIRST_SUPPLIER>(place)
}
