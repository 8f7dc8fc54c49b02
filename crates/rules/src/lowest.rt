// Of two answers the one that comes first by number, and of those for all periods or all records.
ghost use Rattle.std.specs.Prelude.{◌≡◌, length};
ghost use Rattle.market.specs.Lowest.{turned_down};
ghost use Rattle.rules.specs.Joined.{lower, LowestOf};
ghost use Rattle.rules.specs.Tables.{row_of};

use market::refusal::Refusal;
use meters::row::MeterRow;

// The refusal of the lower number, if either check has one.
pub fn earlier(a: Result<(), Refusal>, b: Result<(), Refusal>) -> Result<(), Refusal>
    ensures { turned_down result ≡ lower (turned_down a) (turned_down b) }
{
    match (a, b) {
        (Ok(()), _) => b,
        (_, Ok(())) => a,
        (Err(m), Err(n)) => if m < n { a } else { b },
    }
}

// The lowest refusal of a check over all periods.
pub(crate) fn lowest_of_periods<F: Fn(u8) -> Result<(), Refusal>>(
    periods: u8,
    check: F,
) -> Result<(), Refusal>
    requires { F.IsAlwaysCallable check }
    ensures { LowestOf (F.post check) periods (turned_down result) }
{
    let mut found = Ok(());
    for period in 1..=periods {
        found = earlier(found, check(period));
    }
    found
}

// The lowest refusal of a check over all records, each with the number of its meter.
// Beside the walk over periods: one over any iterator would have to say what it yields, and be longer than both.
pub(crate) fn lowest_of_rows<F: Fn(MeterRow, usize) -> Result<(), Refusal>>(
    rows: &[MeterRow],
    check: F,
) -> Result<(), Refusal>
    requires { F.IsAlwaysCallable check }
    ensures { LowestOf (λ m. F.post check (row_of rows.now m) m) (length rows.now) (turned_down result) }
{
    let mut found = Ok(());
    for (i, row) in rows.iter().enumerate() {
        found = earlier(found, check(*row, i + 1));
    }
    found
}
