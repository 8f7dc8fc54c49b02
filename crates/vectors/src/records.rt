// Meter records at their limits, deliveries at a meter, and used readings.
use market::refusal::Refusal;
use meters::meter::Meter;
use meters::row::{Connection, MeterRow, Quantity, Segment, Status};
use qualities::quality::Quality;
use readings::delivery::Delivery;
use std::test::Fail;

const SMART: MeterRow = MeterRow {
    mpan: 1_000_000_000_003,
    segment: Segment::Smart,
    quantity: Quantity::Import,
    connection: Connection::WholeCurrent,
    status: Status::Energised,
    shape_class: 1,
    loss_class: 1,
    base_unit: 1,
    additional_unit: None,
    tariff: None,
    supplier: 1,
};

// What comes of a record: nothing where it is lawful, or the number of its refusal.
fn outcome(row: MeterRow) -> Result<(), u8> {
    Meter::new(row).map(|_| ()).map_err(Refusal::number)
}

#[test]
fn numbers(rt: HostRuntime) {
    for (mpan, want) in [
        (0, Err(4)),
        (1, Ok(())),
        (9_999_999_999_999, Ok(())),
        (10_000_000_000_000, Err(4)),
    ] {
        assert_eq!(rt; outcome(MeterRow { mpan, ..SMART }), want);
    }
    for (shape_class, want) in [(0, Err(4)), (1, Ok(())), (32, Ok(())), (33, Err(4))] {
        assert_eq!(rt;
            outcome(MeterRow {
                shape_class,
                ..SMART
            }),
            want
        );
    }
    for (loss_class, want) in [(0, Err(4)), (1, Ok(())), (40, Ok(())), (41, Err(4))] {
        assert_eq!(rt;
            outcome(MeterRow {
                loss_class,
                ..SMART
            }),
            want
        );
    }
    for (base_unit, want) in [(0, Err(4)), (1, Ok(())), (16, Ok(())), (17, Err(4))] {
        assert_eq!(rt; outcome(MeterRow { base_unit, ..SMART }), want);
    }
    for (supplier, want) in [(0, Err(4)), (1, Ok(())), (8, Ok(())), (9, Err(4))] {
        assert_eq!(rt; outcome(MeterRow { supplier, ..SMART }), want);
    }
}

#[test]
fn options_and_connections(rt: HostRuntime) {
    for (additional_unit, want) in [
        (None, Ok(())),
        (Some(0), Err(4)),
        (Some(1), Ok(())),
        (Some(16), Ok(())),
        (Some(17), Err(4)),
    ] {
        assert_eq!(rt;
            outcome(MeterRow {
                additional_unit,
                ..SMART
            }),
            want
        );
    }
    for (tariff, want) in [
        (None, Ok(())),
        (Some(0), Err(4)),
        (Some(1), Ok(())),
        (Some(32), Ok(())),
        (Some(33), Err(4)),
    ] {
        assert_eq!(rt; outcome(MeterRow { tariff, ..SMART }), want);
    }
    for connection in [
        Connection::LowVoltage,
        Connection::HighVoltage,
        Connection::ExtraHighVoltage,
    ] {
        assert_eq!(rt;
            outcome(MeterRow {
                connection,
                ..SMART
            }),
            Err(4)
        );
        assert_eq!(rt;
            outcome(MeterRow {
                connection,
                segment: Segment::Unmetered,
                ..SMART
            }),
            Err(4)
        );
        assert_eq!(rt;
            outcome(MeterRow {
                connection,
                segment: Segment::Advanced,
                ..SMART
            }),
            Ok(())
        );
    }
}

// What comes of a delivery of this quality at a smart import meter: its class, or the number of its refusal.
#[test]
fn admission(rt: HostRuntime) -> Result<(), Fail> {
    let cases = [
        (Status::Energised, Quality::E1, Ok(112)),
        (Status::Energised, Quality::EA1, Err(13)),
        (Status::Deenergised, Quality::A, Ok(108)),
        (Status::Deenergised, Quality::E1, Err(12)),
        (Status::Deenergised, Quality::E2, Ok(112)),
        (Status::Deenergised, Quality::E6, Ok(112)),
        (Status::Deenergised, Quality::AAE3, Err(13)),
        (Status::Deenergised, Quality::ZE2, Err(12)),
    ];
    for (status, quality, want) in cases {
        let got = Meter::new(MeterRow { status, ..SMART })?.admit(quality);
        assert_eq!(rt; got.map_err(Refusal::number), want);
    }
    Ok(())
}

// What is used where nothing is stored and the shape is 250: a volume and a quality number.
#[test]
fn defaults(rt: HostRuntime) -> Result<(), Fail> {
    let cases = [
        (Segment::Smart, Quantity::Import, 250, 15),
        (Segment::Advanced, Quantity::Import, 250, 27),
        (Segment::Unmetered, Quantity::Import, 250, 7),
        (Segment::Smart, Quantity::Export, 0, 32),
        (Segment::Advanced, Quantity::Export, 0, 28),
        (Segment::Unmetered, Quantity::Export, 0, 7),
    ];
    for (segment, quantity, volume, number) in cases {
        let meter = Meter::new(MeterRow {
            segment,
            quantity,
            ..SMART
        })?;
        let used = meter.used(None, 250).ok_or("a default")?;
        assert_eq!(rt; (used.volume, used.quality.number()), (volume, number));
    }
    assert!(rt;
        Meter::new(MeterRow {
            status: Status::Deenergised,
            ..SMART
        })?
        .used(None, 250)
        .is_none()
    );
    Ok(())
}

// Whether a measured reading of this volume is used.
#[test]
fn stored(rt: HostRuntime) -> Result<(), Fail> {
    for (status, volume, want) in [
        (Status::Energised, 0, true),
        (Status::Energised, 7, true),
        (Status::Deenergised, 0, false),
        (Status::Deenergised, 7, true),
    ] {
        let reading = Delivery {
            stamp: 1,
            volume,
            quality: 0,
        }
        .accept(1000)?;
        assert_eq!(rt;
            Meter::new(MeterRow { status, ..SMART })?
                .used(Some(reading), 250)
                .is_some(),
            want
        );
    }
    Ok(())
}
