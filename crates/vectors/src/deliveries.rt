// Readings at their limits, and which of two stands.
use market::refusal::Refusal;
use qualities::quality::{Quality, UnknownName};
use readings::delivery::Delivery;
use std::test::Fail;

// Stamp, volume, quality number and volume limit of a delivery, and what comes of it.
#[test]
fn limits(rt: HostRuntime) {
    let cases = [
        // stamps
        (0, 5, 0, 1_000_000_000, Err(9)),
        (1, 5, 0, 1_000_000_000, Ok(())),
        (4_294_967_295, 5, 0, 1_000_000_000, Ok(())),
        (4_294_967_296, 5, 0, 1_000_000_000, Err(9)),
        (u64::MAX, 5, 0, 1_000_000_000, Err(9)),
        // qualities
        (1, 0, 34, 1_000_000_000, Ok(())),
        (1, 0, 35, 1_000_000_000, Err(9)),
        (1, 0, 255, 1_000_000_000, Err(9)),
        // volumes with the zero qualities, and beside them
        (1, 1, 30, 1_000_000_000, Ok(())),
        (1, 1, 31, 1_000_000_000, Err(10)),
        (1, 1, 34, 1_000_000_000, Err(10)),
        // volumes at the limit
        (1, 1000, 0, 1000, Ok(())),
        (1, 1001, 0, 1000, Err(11)),
        (1, 1_000_000_000, 0, 1_000_000_000, Ok(())),
        (1, 1_000_000_001, 0, 1_000_000_000, Err(11)),
        (1, 1_000_000_001, 0, u64::MAX, Err(11)),
        (1, 0, 0, 0, Ok(())),
        (1, u64::MAX, 0, 0, Err(11)),
        // the first fault answers
        (0, 7, 31, 5, Err(9)),
        (1, 7, 31, 5, Err(10)),
    ];
    for (stamp, volume, quality, limit, want) in cases {
        let delivery = Delivery {
            stamp,
            volume,
            quality,
        };
        let outcome = delivery.accept(limit).map(|_| ());
        assert_eq!(rt; outcome.map_err(Refusal::number), want);
    }
}

// Stamp, volume and quality number of two readings, and whether the first is ahead.
#[test]
fn order(rt: HostRuntime) -> Result<(), Fail> {
    let cases = [
        ((90, 400, 0), (90, 500, 0), false),
        ((90, 500, 0), (90, 400, 0), true),
        ((91, 1, 27), (90, 500, 0), true),
        ((90, 500, 0), (91, 1, 27), false),
        ((90, 500, 0), (90, 500, 1), true),
        ((90, 500, 1), (90, 500, 0), false),
        ((90, 500, 0), (90, 500, 0), false),
    ];
    for ((stamp, volume, quality), (other_stamp, other_volume, other_quality), want) in cases {
        let first = Delivery {
            stamp,
            volume,
            quality,
        }
        .accept(1000)?;
        let second = Delivery {
            stamp: other_stamp,
            volume: other_volume,
            quality: other_quality,
        }
        .accept(1000)?;
        assert_eq!(rt; first.is_ahead_of(second), want);
    }
    Ok(())
}

#[test]
fn quality_names(rt: HostRuntime) -> Result<(), Fail> {
    for (name, number) in [
        ("A", 0),
        ("A3", 3),
        ("AAE1", 4),
        ("E", 7),
        ("E8", 15),
        ("EA1", 16),
        ("EA12", 27),
        ("EAE3", 30),
        ("ZE", 31),
        ("ZE3", 34),
    ] {
        let quality = name.parse::<Quality>()?;
        assert_eq!(rt; quality.number(), number);
        assert_eq!(rt; quality.text(), name);
    }
    for name in ["", " A", "a", "A4", "E9", "EA0", "EA13", "ZE4", "AA"] {
        assert_eq!(rt; name.parse::<Quality>(), Err(UnknownName));
    }
    Ok(())
}
