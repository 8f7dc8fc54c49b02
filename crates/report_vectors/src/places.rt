// The edges of the places of both reports.
use reports::places::{duos_at, duos_place, unit_at, unit_place};

#[test]
fn units_and_classes(rt: HostRuntime) {
    assert_eq!(rt; unit_place(1, 100), Some(0));
    assert_eq!(rt; unit_place(1, 182), Some(82));
    assert_eq!(rt; unit_place(2, 100), Some(83));
    assert_eq!(rt; unit_place(16, 182), Some(1327));
    for (unit, class) in [(0, 100), (17, 100), (1, 99), (1, 183), (255, 255)] {
        assert_eq!(rt; unit_place(unit, class), None);
    }
    assert_eq!(rt; unit_at(0), Some((1, 100)));
    assert_eq!(rt; unit_at(83), Some((2, 100)));
    assert_eq!(rt; unit_at(1327), Some((16, 182)));
    assert_eq!(rt; unit_at(1328), None);
}

#[test]
fn tariffs_and_suppliers(rt: HostRuntime) {
    assert_eq!(rt; duos_place(1, 1), Some(0));
    assert_eq!(rt; duos_place(1, 8), Some(7));
    assert_eq!(rt; duos_place(2, 1), Some(8));
    assert_eq!(rt; duos_place(32, 8), Some(255));
    for (tariff, supplier) in [(0, 1), (33, 1), (1, 0), (1, 9), (255, 255)] {
        assert_eq!(rt; duos_place(tariff, supplier), None);
    }
    assert_eq!(rt; duos_at(0), Some((1, 1)));
    assert_eq!(rt; duos_at(8), Some((2, 1)));
    assert_eq!(rt; duos_at(255), Some((32, 8)));
    assert_eq!(rt; duos_at(256), None);
}
