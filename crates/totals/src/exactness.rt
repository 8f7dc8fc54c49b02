// Totals that lose nothing.
ghost use Rattle.totals.specs.Exactness.{ExactTotals};

use crate::report::Report;

// Vouches that the totals of at most 4,096 meters lose nothing. It does nothing else.
pub fn vouch_totals<R: Report>(report: &R)
    ensures { ExactTotals R.Amount.algebra (R.rules report.now) R.Amount.figure }
{
    report.vouch();
}
