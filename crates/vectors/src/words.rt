// Words that are typed for dates.
use std::test::Fail;
use timetable::word::read_date;

#[test]
fn dates(rt: HostRuntime) -> Result<(), Fail> {
    let date = read_date(b"2025-03-30").ok_or("2025-03-30 is a date")?;
    assert_eq!(rt; (date.year(), date.month(), date.day()), (2025, 3, 30));
    Ok(())
}

#[test]
fn no_dates(rt: HostRuntime) {
    let words: [&str; 16] = [
        "",
        "today",
        "2025",
        "2025-3-30",
        "2025-03-3",
        "2025-03-30 ",
        " 2025-03-30",
        "2025/03/30",
        "20250330",
        "2025-03_30",
        "+025-03-30",
        "2025-0x-30",
        "2025-02-29",
        "2025-13-01",
        "2023-12-31",
        "2056-01-01",
    ];
    for word in words {
        assert!(rt; read_date(word.as_bytes()).is_none(), "{}", word);
    }
}
