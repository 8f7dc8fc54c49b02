// The two clocks: the edges of each kind of day.
use market::clock::{ClockPlace, DayKind, SettlementPeriod, UtcDate, UtcPeriod, convert};
use market::clock_time::ends_at;
use market::refusal::Refusal;

// The number of a Settlement Period, and the UTC period that it is.
#[test]
fn settlement_periods(rt: HostRuntime) {
    let cases = [
        (DayKind::Winter, 0, Err(3)),
        (DayKind::Winter, 1, Ok((UtcDate::TheDate, 1))),
        (DayKind::Winter, 48, Ok((UtcDate::TheDate, 48))),
        (DayKind::Winter, 49, Err(3)),
        (DayKind::Summer, 0, Err(3)),
        (DayKind::Summer, 2, Ok((UtcDate::DateBefore, 48))),
        (DayKind::Summer, 3, Ok((UtcDate::TheDate, 1))),
        (DayKind::Summer, 48, Ok((UtcDate::TheDate, 46))),
        (DayKind::Summer, 49, Err(3)),
        (DayKind::SpringChange, 46, Ok((UtcDate::TheDate, 46))),
        (DayKind::SpringChange, 47, Err(3)),
        (DayKind::AutumnChange, 1, Ok((UtcDate::DateBefore, 47))),
        (DayKind::AutumnChange, 50, Ok((UtcDate::TheDate, 48))),
        (DayKind::AutumnChange, 51, Err(3)),
        (DayKind::AutumnChange, 255, Err(3)),
    ];
    for (kind, number, want) in cases {
        let place = ClockPlace::Settlement(SettlementPeriod(number));
        assert_eq!(rt;
            convert(kind, place).map_err(Refusal::number),
            want.map(|(date, utc)| Some(ClockPlace::Utc(date, UtcPeriod(utc))))
        );
    }
}

// The number of a UTC period, and the Settlement Period that it is.
#[test]
fn utc_periods(rt: HostRuntime) {
    let cases = [
        (DayKind::Winter, UtcDate::DateBefore, 48, Ok(None)),
        (DayKind::Winter, UtcDate::TheDate, 0, Err(3)),
        (DayKind::Winter, UtcDate::TheDate, 49, Err(3)),
        (DayKind::Winter, UtcDate::TheDate, 48, Ok(Some(48))),
        (DayKind::Summer, UtcDate::DateBefore, 46, Ok(None)),
        (DayKind::Summer, UtcDate::DateBefore, 47, Ok(Some(1))),
        (DayKind::Summer, UtcDate::TheDate, 46, Ok(Some(48))),
        (DayKind::Summer, UtcDate::TheDate, 47, Ok(None)),
        (DayKind::SpringChange, UtcDate::DateBefore, 47, Ok(None)),
        (DayKind::SpringChange, UtcDate::TheDate, 46, Ok(Some(46))),
        (DayKind::SpringChange, UtcDate::TheDate, 47, Ok(None)),
        (DayKind::AutumnChange, UtcDate::DateBefore, 48, Ok(Some(2))),
        (DayKind::AutumnChange, UtcDate::DateBefore, 49, Err(3)),
        (DayKind::AutumnChange, UtcDate::TheDate, 48, Ok(Some(50))),
    ];
    for (kind, date, number, want) in cases {
        let place = ClockPlace::Utc(date, UtcPeriod(number));
        assert_eq!(rt;
            convert(kind, place).map_err(Refusal::number),
            want.map(|period| period.map(|number| ClockPlace::Settlement(SettlementPeriod(number))))
        );
    }
}

// A Settlement Period, and the hour and minute at which it ends.
#[test]
fn clock_times(rt: HostRuntime) {
    let cases = [
        (DayKind::Winter, 1, Ok((0, 30))),
        (DayKind::Winter, 48, Ok((0, 0))),
        (DayKind::Winter, 49, Err(3)),
        (DayKind::Summer, 0, Err(3)),
        (DayKind::Summer, 1, Ok((0, 30))),
        (DayKind::SpringChange, 2, Ok((1, 0))),
        (DayKind::SpringChange, 3, Ok((2, 30))),
        (DayKind::SpringChange, 46, Ok((0, 0))),
        (DayKind::SpringChange, 47, Err(3)),
        (DayKind::AutumnChange, 4, Ok((2, 0))),
        (DayKind::AutumnChange, 5, Ok((1, 30))),
        (DayKind::AutumnChange, 50, Ok((0, 0))),
    ];
    for (kind, number, want) in cases {
        let ends = ends_at(kind, SettlementPeriod(number)).map_err(Refusal::number);
        assert_eq!(rt; ends.map(|time| (time.hour, time.minute)), want);
    }
}
