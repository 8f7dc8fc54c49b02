// One table of totals for every kind of amount.
ghost use Rattle.std.specs.Prelude.{◌≡◌, ◌*◌, ◌≤◌, length};

use market::refusal::Refusal;

// A total for each period and place, in amounts that are lent: those of period 1 first, place by place.
#[derive(Drop)]
pub struct Totals<'a, M> {
    pub(crate) cells: &'a mut [M],
    pub(crate) periods: u8,
    pub(crate) places: usize,
    ghost sized: { length cells.now ≡ periods * places },
    ghost few: { places ≤ 4096 },
}

// Amounts that are no such table, handed back as they were, and why.
#[derive(Drop)]
pub struct NoTable<'a, M> {
    pub cells: &'a mut [M],
    pub refusal: Refusal,
}
