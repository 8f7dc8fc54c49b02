// Amounts of the DUoS report added and taken away, figure by figure.
ghost use Rattle.amounts.specs.Duos.{DuosZipped, duos, duos_laws, duos_figure, duos_exact};

use crate::amount::Amount;
use crate::duos_amount::DuosAmount;

impl DuosAmount {
    // The amount whose figures are each made of the two figures of that kind.
    fn zip<F: Fn(u64, u64) -> u64>(self, other: DuosAmount, make: F) -> DuosAmount
        requires { F.IsAlwaysCallable make }
        ensures { DuosZipped (F.post make) self other result }
    {
        DuosAmount {
            volume: make(self.volume, other.volume),
            energised: make(self.energised, other.energised),
            deenergised: make(self.deenergised, other.deenergised),
            actual: make(self.actual, other.actual),
            estimated: make(self.estimated, other.estimated),
        }
    }
}

impl Amount for DuosAmount {
    ghost algebra = { duos };

    ghost laws = { duos_laws };

    ghost figure = { duos_figure };

    ghost exact = { duos_exact };

    fn nothing() -> DuosAmount {
        DuosAmount {
            volume: 0,
            energised: 0,
            deenergised: 0,
            actual: 0,
            estimated: 0,
        }
    }

    fn add(self, other: DuosAmount) -> DuosAmount {
        self.zip(other, |x, y| x.wrapping_add(y))
    }

    fn take_away(self, other: DuosAmount) -> DuosAmount {
        self.zip(other, |x, y| x.wrapping_sub(y))
    }
}
