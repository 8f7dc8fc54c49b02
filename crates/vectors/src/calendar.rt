// Dates: which exist, and of which kind they are.
use market::clock::{ClockPlace, SettlementPeriod, UtcDate, UtcPeriod, convert};
use market::date::Date;
use market::refusal::Refusal;
use std::test::Fail;

// What comes of a date: its number of periods and the UTC place of its first one, or the number of its refusal.
type Outcome = Result<(u8, Option<ClockPlace>), u8>;

// The outcomes: the four kinds of day, and the refusal.
const WINTER: Outcome = Ok((48, Some(ClockPlace::Utc(UtcDate::TheDate, UtcPeriod(1)))));

const SUMMER: Outcome = Ok((
    48,
    Some(ClockPlace::Utc(UtcDate::DateBefore, UtcPeriod(47))),
));

const SPRING: Outcome = Ok((46, Some(ClockPlace::Utc(UtcDate::TheDate, UtcPeriod(1)))));

const AUTUMN: Outcome = Ok((
    50,
    Some(ClockPlace::Utc(UtcDate::DateBefore, UtcPeriod(47))),
));

const NO_DATE: Outcome = Err(14);

// A date as three numbers, and what is to come of it.
const CASES: [(u16, u8, u8, Outcome); 42] = [
    // before the first year
    (2023, 12, 31, NO_DATE),
    // the first and the last day
    (2024, 1, 1, WINTER),
    (2055, 12, 31, WINTER),
    // after the last year
    (2056, 1, 1, NO_DATE),
    // far outside
    (0, 1, 1, NO_DATE),
    (65535, 12, 31, NO_DATE),
    (2025, 255, 255, NO_DATE),
    // leap days
    (2024, 2, 29, WINTER),
    (2024, 2, 30, NO_DATE),
    (2025, 2, 28, WINTER),
    (2025, 2, 29, NO_DATE),
    (2048, 2, 29, WINTER),
    (2050, 2, 29, NO_DATE),
    // no such month or day
    (2025, 0, 15, NO_DATE),
    (2025, 13, 1, NO_DATE),
    (2025, 1, 0, NO_DATE),
    (2025, 1, 32, NO_DATE),
    (2025, 4, 31, NO_DATE),
    (2025, 6, 31, NO_DATE),
    (2025, 9, 31, NO_DATE),
    (2025, 11, 31, NO_DATE),
    // around the change days of 2024, 2025, 2029 and 2055
    (2024, 3, 30, WINTER),
    (2024, 3, 31, SPRING),
    (2024, 4, 1, SUMMER),
    (2024, 10, 26, SUMMER),
    (2024, 10, 27, AUTUMN),
    (2024, 10, 28, WINTER),
    (2025, 3, 29, WINTER),
    (2025, 3, 30, SPRING),
    (2025, 3, 31, SUMMER),
    (2025, 10, 25, SUMMER),
    (2025, 10, 26, AUTUMN),
    (2025, 10, 27, WINTER),
    (2029, 3, 24, WINTER),
    (2029, 3, 25, SPRING),
    (2029, 3, 26, SUMMER),
    (2055, 10, 30, SUMMER),
    (2055, 10, 31, AUTUMN),
    (2055, 11, 1, WINTER),
    // in the middle of the seasons
    (2025, 1, 15, WINTER),
    (2025, 7, 15, SUMMER),
    (2025, 12, 15, WINTER),
];

// What comes of a date: the number of its periods, and where the first one lies by the UTC clock; or the refusal.
fn outcome(year: u16, month: u8, day: u8) -> Result<(u8, Option<ClockPlace>), Refusal> {
    let kind = Date::new(year, month, day)?.kind();
    let first = convert(kind, ClockPlace::Settlement(SettlementPeriod(1)))?;
    Ok((kind.periods(), first))
}

#[test]
fn dates_and_kinds(rt: HostRuntime) {
    for (year, month, day, want) in CASES {
        assert_eq!(rt; outcome(year, month, day).map_err(Refusal::number), want);
    }
}

// A date, and the date before it.
#[test]
fn dates_before(rt: HostRuntime) -> Result<(), Fail> {
    let cases = [
        ((2025, 5, 10), (2025, 5, 9)),
        ((2025, 5, 1), (2025, 4, 30)),
        ((2024, 3, 1), (2024, 2, 29)),
        ((2025, 3, 1), (2025, 2, 28)),
        ((2025, 1, 1), (2024, 12, 31)),
    ];
    for ((year, month, day), want) in cases {
        let before = Date::new(year, month, day)?.before()?;
        assert_eq!(rt; (before.year(), before.month(), before.day()), want);
    }
    let first = Date::new(2024, 1, 1)?;
    assert_eq!(rt; first.before().map_err(Refusal::number), Err(14));
    Ok(())
}
