// What a report is.
ghost use Rattle.std.specs.Prelude.{◌≡◌, ◌<◌, ◌≤◌, IfSome};
ghost use Rattle.totals.specs.Rules.{Rules, Small};

use amounts::amount::Amount;
use meters::meter::Meter;
use meters::used::UsedReading;

// A report has 1 to 4,096 places, counted from 0. For a lawful meter and a used reading it names one place or none, and an amount that
// also depends on the factor of the meter's loss class in the period. The same question always has the same answer.
pub trait Report {
    type Amount: Amount;

    ghost rules: { Self → Rules Self.Amount };

    // How many places it has.
    fn place_count(&self) -> usize
        ensures value { result ≡ (rules self.now).places }
        ensures range { (1 ≤ result) × (result ≤ 4096) };

    // The place that it names.
    fn place_of(&self, meter: Meter, used: UsedReading) -> Option<usize>
        ensures value { result ≡ (rules self.now).place meter.row used }
        ensures within { IfSome result (λ q. q < (rules self.now).places) };

    // The amount that it adds there.
    fn amount_of(&self, meter: Meter, used: UsedReading, factor: u16) -> Self::Amount
        ensures { result ≡ (rules self.now).amount meter.row used factor };

    // Vouches that its amounts are small, so that a sum of 4,096 loses nothing. It does nothing else.
    fn vouch(&self)
        ensures { Small (rules self.now) Self.Amount.figure };
}
