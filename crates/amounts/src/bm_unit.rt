// Amounts of the BM Unit report added and taken away, figure by figure.
ghost use Rattle.amounts.specs.BmUnit.{units, units_laws, units_figure, units_exact};

use crate::amount::Amount;
use crate::bm_unit_amount::BmUnitAmount;

impl Amount for BmUnitAmount {
    ghost algebra = { units };

    ghost laws = { units_laws };

    ghost figure = { units_figure };

    ghost exact = { units_exact };

    fn nothing() -> BmUnitAmount {
        BmUnitAmount {
            volume: 0,
            loss: 0,
            count: 0,
        }
    }

    // Figure by figure here and below: the loss is signed, so that one function for both takes two closures and is no shorter.
    fn add(self, other: BmUnitAmount) -> BmUnitAmount {
        BmUnitAmount {
            volume: self.volume.wrapping_add(other.volume),
            loss: self.loss.wrapping_add(other.loss),
            count: self.count.wrapping_add(other.count),
        }
    }

    fn take_away(self, other: BmUnitAmount) -> BmUnitAmount {
        BmUnitAmount {
            volume: self.volume.wrapping_sub(other.volume),
            loss: self.loss.wrapping_sub(other.loss),
            count: self.count.wrapping_sub(other.count),
        }
    }
}
