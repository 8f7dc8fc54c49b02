// The two clocks of a Settlement Day, and the one call that leads from each to the other.
ghost use Rattle.std.specs.Prelude.{◌≡◌};
ghost use Rattle.market.specs.Clock.{periods_of, lead_of, ToUtc, ToSettlement, Converted, ClockLaws};

use crate::refusal::Refusal;

// The number of a Settlement Period, counted from 1 in clock time. Any number may stand here: one that the day lacks is refused.
#[derive(Clone, Copy, Debug, PartialEq, Eq, PartialOrd, Ord)]
pub struct SettlementPeriod(pub u8);

// A type of its own beside the one above, of the same shape: a rule, so that neither is taken for the other.
// The number of a UTC period of a UTC date, 1 to 48; period 1 ends at 00:30. Any number may stand here too.
#[derive(Clone, Copy, Debug, PartialEq, Eq, PartialOrd, Ord)]
pub struct UtcPeriod(pub u8);

// The UTC date on which a period of a Settlement Day lies.
#[derive(Clone, Copy, Debug, PartialEq, Eq)]
pub enum UtcDate {
    DateBefore,
    TheDate,
}

// A half hour of a Settlement Day, by either clock.
#[derive(Clone, Copy, Debug, PartialEq, Eq)]
pub enum ClockPlace {
    Settlement(SettlementPeriod),
    Utc(UtcDate, UtcPeriod),
}

// The four kinds of Settlement Day.
#[derive(Clone, Copy, Debug, PartialEq, Eq)]
pub enum DayKind {
    Winter,
    Summer,
    SpringChange,
    AutumnChange,
}

impl DayKind {
    // How many Settlement Periods the day has.
    pub fn periods(self) -> u8
        ensures { result ≡ periods_of self }
    {
        match self {
            DayKind::Winter | DayKind::Summer => 48,
            DayKind::SpringChange => 46,
            DayKind::AutumnChange => 50,
        }
    }

    // How many of them lie on the UTC date before.
    fn lead(self) -> u8
        ensures { result ≡ lead_of self }
    {
        match self {
            DayKind::Winter | DayKind::SpringChange => 0,
            DayKind::Summer | DayKind::AutumnChange => 2,
        }
    }
}

// The UTC date and period of a Settlement Period.
pub(crate) fn to_utc(
    kind: DayKind,
    period: SettlementPeriod,
) -> Result<(UtcDate, UtcPeriod), Refusal>
    ensures { ToUtc kind period result }
{
    let number = period.0;
    if !(1..=kind.periods()).contains(&number) {
        return Err(Refusal::NoSuch);
    }
    let lead = kind.lead();
    if number <= lead {
        Ok((UtcDate::DateBefore, UtcPeriod(46 + number)))
    } else {
        Ok((UtcDate::TheDate, UtcPeriod(number - lead)))
    }
}

// The Settlement Period of a UTC date and period, or none where it lies outside the day.
fn to_settlement(
    kind: DayKind,
    date: UtcDate,
    period: UtcPeriod,
) -> Result<Option<SettlementPeriod>, Refusal>
    ensures { ToSettlement kind date period result }
{
    let number = period.0;
    if !(1..=48).contains(&number) {
        return Err(Refusal::NoSuch);
    }
    let lead = kind.lead();
    Ok(match date {
        UtcDate::DateBefore => (number + lead > 48).then(|| SettlementPeriod(number - 46)),
        UtcDate::TheDate => (number + lead <= kind.periods()).then(|| SettlementPeriod(
            number + lead,
        )),
    })
}

// The same half hour by the other clock, or none where a UTC period lies outside the day.
#[tactic(auto, using(crate::proofs::Clocks::clock_laws))]
pub fn convert(kind: DayKind, place: ClockPlace) -> Result<Option<ClockPlace>, Refusal>
    ensures value { Converted kind place result }
    ensures laws { ClockLaws }
{
    match place {
        ClockPlace::Settlement(period) => {
            let (date, utc) = to_utc(kind, period)?;
            Ok(Some(ClockPlace::Utc(date, utc)))
        }
        ClockPlace::Utc(date, period) => {
            let settlement = to_settlement(kind, date, period)?;
            Ok(settlement.map(ClockPlace::Settlement))
        }
    }
}
