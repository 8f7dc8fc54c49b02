// Making, reading and changing tables of totals.
ghost use Rattle.std.specs.Prelude.{◌≡◌};
ghost use Rattle.totals.specs.Table.{Made, Located, Read, Cleared, ChangedBy, Changed};

use crate::totals::{NoTable, Totals};
use amounts::amount::Amount;
use market::refusal::Refusal;

// The most places that a report has.
pub const MOST_PLACES: usize = 4096;

impl<'a, M: Amount> Totals<'a, M> {
    // The table of so many periods and places (at most 4,096) over amounts, if there is one amount for each; else they are handed back, with
    // refusal 1.
    pub fn over(
        cells: &'a mut [M],
        periods: u8,
        places: usize,
    ) -> Result<Totals<'a, M>, NoTable<'a, M>>
        ensures { Made cells.entry periods places result }
    {
        if places <= MOST_PLACES && cells.len() == periods as usize * places {
            Ok(Totals {
                cells,
                periods,
                places,
            })
        } else {
            Err(NoTable {
                cells,
                refusal: Refusal::Sizes,
            })
        }
    }

    // How many periods it has.
    pub fn periods(&self) -> u8
        ensures { result ≡ self.now.periods }
    {
        self.periods
    }

    // How many places it has in each period.
    pub fn places(&self) -> usize
        ensures { result ≡ self.now.places }
    {
        self.places
    }

    // Where a total lies, if there is such a period and place.
    fn index(&self, period: u8, place: usize) -> Option<usize>
        ensures { Located self.now period place result }
    {
        if (1..=self.periods).contains(&period) && place < self.places {
            Some((period as usize - 1) * self.places + place)
        } else {
            None
        }
    }

    // The total of a period and place.
    pub fn read(&self, period: u8, place: usize) -> Result<M, Refusal>
        ensures { Read M.algebra.zero self.now period place result }
    {
        let index = self.index(period, place).ok_or(Refusal::NoSuch)?;
        Ok(self.cells[index])
    }

    // Makes every total zero.
    pub fn clear(&mut self)
        ensures { Cleared M.algebra.zero self.old self.new }
    {
        // not `fill`, which asks that a copy cannot fail: a kind of amount does not promise that
        for total in self.cells.iter_mut() {
            *total = M::nothing();
        }
    }

    // Puts in the place of a total what is made of it.
    pub(crate) fn change<F: FnOnce(M) -> M>(
        &mut self,
        period: u8,
        place: usize,
        make: F,
    ) -> Result<(), Refusal>
        requires { F.IsAlwaysCallable make }
        ensures { ChangedBy M.algebra.zero (F.post make) self.old self.new period place result }
    {
        let index = self.index(period, place).ok_or(Refusal::NoSuch)?;
        self.cells[index] = make(self.cells[index]);
        Ok(())
    }

    // Adds an amount to the total of a period and place.
    pub fn add(&mut self, period: u8, place: usize, amount: M) -> Result<(), Refusal>
        ensures { Changed M.algebra.zero (λ total. M.algebra.plus total amount) self.old self.new period place result }
    {
        self.change(period, place, |total| total.add(amount))
    }

    // Takes an amount away from the total of a period and place.
    pub fn take_away(&mut self, period: u8, place: usize, amount: M) -> Result<(), Refusal>
        ensures { Changed M.algebra.zero (λ total. M.algebra.minus total amount) self.old self.new period place result }
    {
        self.change(period, place, |total| total.take_away(amount))
    }
}
