// Joined days of all four kinds, and windows on them.
use layers::joined::JoinedDay;
use layers::window::Window;
use market::clock::{DayKind, SettlementPeriod, UtcPeriod};
use packed::packed_store::PackedStore;
use readings::delivery::Delivery;
use readings::reading::Reading;
use records::record_store::RecordStore;
use std::process::Abort;
use std::test::Fail;
use stores::store::Store;

// The volume of a reading, or 0 where there is none.
fn volume(shown: Option<Reading>) -> u32 {
    shown.map_or(0, Reading::volume)
}

// Puts the volume p into each Settlement Period p of a day, through a window on it.
fn fill<S: Store<Period = SettlementPeriod>>(rt: &impl Abort, day: &mut S) -> Result<(), Fail> {
    for p in 1..=day.period_count() {
        let reading = Delivery {
            stamp: 1,
            volume: u64::from(p),
            quality: 0,
        }
        .accept(1000)?;
        let mut window = Window::new(&mut *day, SettlementPeriod(p));
        window.put(2, SettlementPeriod(1), reading)?;
        assert_eq!(rt; volume(window.show(2, SettlementPeriod(1))), u32::from(p));
        assert!(rt; window.show(2, SettlementPeriod(2)).is_none());
        assert!(rt; window.show(1, SettlementPeriod(1)).is_none());
    }
    Ok(())
}

// The volumes that a date holds for meter 2 in the first two, the last two and a middle UTC period.
fn volumes<S: Store<Period = UtcPeriod>>(date: &S) -> [u32; 5] {
    [1, 2, 24, 47, 48].map(|u| volume(date.show(2, UtcPeriod(u))))
}

#[test]
fn four_kinds(rt: HostRuntime) -> Result<(), Fail> {
    let cases = [
        (DayKind::Winter, 48, [0, 0, 0, 0, 0], [1, 2, 24, 47, 48]),
        (DayKind::Summer, 48, [0, 0, 0, 1, 2], [3, 4, 26, 0, 0]),
        (DayKind::SpringChange, 46, [0, 0, 0, 0, 0], [1, 2, 24, 0, 0]),
        (
            DayKind::AutumnChange,
            50,
            [0, 0, 0, 1, 2],
            [3, 4, 26, 49, 50],
        ),
    ];
    for (kind, periods, in_before, in_date) in cases {
        let mut bytes = [0_u8; 1300];
        let mut records = [None; 100];
        let mut before = PackedStore::open(&mut bytes);
        let mut date = RecordStore::open(&mut records);
        let mut day = JoinedDay::new(kind, &mut before, &mut date);
        assert_eq!(rt; (day.meter_count(), day.period_count()), (2, periods));
        assert!(rt; day.show(3, SettlementPeriod(1)).is_none());
        fill(&rt, &mut day)?;
        assert_eq!(rt; volumes(&before), in_before);
        assert_eq!(rt; volumes(&date), in_date);
    }
    Ok(())
}

// A place that does not exist: a window on it has no meters, and a put gets 3.
#[test]
fn nowhere(rt: HostRuntime) -> Result<(), Fail> {
    let reading = Delivery {
        stamp: 1,
        volume: 5,
        quality: 0,
    }
    .accept(1000)?;
    let mut first = [0_u8; 432];
    let mut second = [0_u8; 432];
    let mut day = JoinedDay::new(
        DayKind::SpringChange,
        PackedStore::open(&mut first),
        PackedStore::open(&mut second),
    );
    for (period, meters) in [(0, 0), (1, 1), (46, 1), (47, 0)] {
        let mut window = Window::new(&mut day, SettlementPeriod(period));
        assert_eq!(rt; (window.meter_count(), window.period_count()), (meters, 1));
        assert_eq!(rt;
            window.put(1, SettlementPeriod(1), reading).is_ok(),
            meters == 1
        );
        assert!(rt; window.put(1, SettlementPeriod(2), reading).is_err());
    }
    assert!(rt; day.put(2, SettlementPeriod(1), reading).is_err());
    // a window has one period, so that a day over windows has no meters
    let mut third = [0_u8; 432];
    let mut fourth = [0_u8; 432];
    let left = Window::new(PackedStore::open(&mut third), UtcPeriod(1));
    assert_eq!(rt; left.meter_count(), 1);
    assert_eq!(rt;
        Window::new(PackedStore::open(&mut fourth), UtcPeriod(49)).meter_count(),
        0
    );
    Ok(())
}
