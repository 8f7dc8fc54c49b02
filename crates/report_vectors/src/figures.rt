// The amounts of both reports.
use crate::meter::smart_import;
use meters::meter::Meter;
use meters::row::{MeterRow, Status};
use meters::used::UsedReading;
use qualities::quality::Quality;
use reports::bm_unit::BmUnitReport;
use reports::duos::DuosReport;
use std::test::Fail;
use totals::report::Report;

// Losses at the smallest, the neutral and the largest factor, of nothing and of the largest volume.
#[test]
fn losses(rt: HostRuntime) -> Result<(), Fail> {
    let meter = Meter::new(smart_import(Status::Energised, None))?;
    let cases = [
        (0, 0, 0),
        (0, 1_000_000_000, -1_000_000_000_000),
        (1000, 0, 0),
        (1000, 1_000_000_000, 0),
        (9999, 0, 0),
        (9999, 1_000_000_000, 8_999_000_000_000),
    ];
    for (factor, volume, loss) in cases {
        let used = UsedReading {
            volume,
            quality: Quality::A,
        };
        let amount = BmUnitReport.amount_of(meter, used, factor);
        assert_eq!(rt;
            (amount.volume, amount.loss, amount.count),
            (u64::from(volume), loss, 1)
        );
    }
    Ok(())
}

// Energised meters are always counted, and de-energised ones by some qualities; measured volumes are actual, others estimated.
#[test]
fn counts(rt: HostRuntime) -> Result<(), Fail> {
    let energised = Meter::new(smart_import(Status::Energised, Some(5)))?;
    let deenergised = Meter::new(smart_import(Status::Deenergised, Some(5)))?;
    let cases = [
        (Quality::A, 1, 700),
        (Quality::A1, 1, 700),
        (Quality::A2, 1, 700),
        (Quality::A3, 1, 700),
        (Quality::E6, 1, 0),
        (Quality::E2, 0, 0),
    ];
    for (quality, counted, actual) in cases {
        let used = UsedReading {
            volume: 700,
            quality,
        };
        let on = DuosReport.amount_of(energised, used, 1000);
        assert_eq!(rt; (on.energised, on.deenergised), (1, 0));
        assert_eq!(rt;
            (on.volume, on.actual, on.estimated),
            (700, actual, 700 - actual)
        );
        let off = DuosReport.amount_of(deenergised, used, 1000);
        assert_eq!(rt; (off.energised, off.deenergised), (0, counted));
        assert_eq!(rt;
            (off.volume, off.actual, off.estimated),
            (700, actual, 700 - actual)
        );
    }
    Ok(())
}

// The additional BM Unit counts if there is one; a quality without a class and a meter without a tariff have no place.
#[test]
fn named_places(rt: HostRuntime) -> Result<(), Fail> {
    let row = smart_import(Status::Energised, Some(5));
    let base = Meter::new(row)?;
    let additional = Meter::new(MeterRow {
        additional_unit: Some(7),
        ..row
    })?;
    let free = Meter::new(smart_import(Status::Energised, None))?;
    let used = UsedReading {
        volume: 700,
        quality: Quality::E2,
    };
    let classless = UsedReading {
        volume: 700,
        quality: Quality::EA1,
    };
    assert_eq!(rt; BmUnitReport.place_of(base, used), Some(95));
    assert_eq!(rt; BmUnitReport.place_of(additional, used), Some(510));
    assert_eq!(rt; BmUnitReport.place_of(base, classless), None);
    assert_eq!(rt; DuosReport.place_of(base, used), Some(34));
    assert_eq!(rt; DuosReport.place_of(base, classless), Some(34));
    assert_eq!(rt; DuosReport.place_of(free, used), None);
    Ok(())
}
