// Periods by their number, whichever clock they are of.
ghost use Rattle.std.specs.Prelude.{◌≡◌, ℕ};

use market::clock::{SettlementPeriod, UtcPeriod};

// Not `From` and `Into`, which have no ghost number that the contracts of a store could cite.
// A period of one clock. A store has periods of one such type, so that no Settlement Period is taken for a UTC period.
pub trait Period: Copy {
    ghost number: { Self → ℕ };

    fn number_of(self) -> u8
        ensures { result ≡ number self };

    fn of_number(n: u8) -> Self
        ensures { number result ≡ n };
}

// Each clock has an impl of its own, since its periods are a type of their own: a rule, so that neither is taken for the other.
impl Period for SettlementPeriod {
    ghost number = { λ p. p.0 };

    fn number_of(self) -> u8 {
        self.0
    }

    fn of_number(n: u8) -> SettlementPeriod {
        SettlementPeriod(n)
    }
}

impl Period for UtcPeriod {
    ghost number = { λ p. p.0 };

    fn number_of(self) -> u8 {
        self.0
    }

    fn of_number(n: u8) -> UtcPeriod {
        UtcPeriod(n)
    }
}
