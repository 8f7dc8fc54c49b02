// Bytes as they were written elsewhere.
use super::*;

// What these nine bytes show as the first place: stamp, volume and quality number.
fn shown(nine: [u8; 9]) -> Option<(u64, u32, u8)> {
    Packed::show(&nine, 0).map(|reading| {
        (
            reading.stamp(),
            reading.volume(),
            reading.quality().number(),
        )
    })
}

#[test]
fn readings_and_none(rt: HostRuntime) {
    let cases = [
        // highest byte first
        ([1, 2, 3, 4, 0, 0, 1, 2, 0], Some((16_909_060, 258, 0))),
        // the limits of a reading: 1,000,000,000 is 0x3b9aca00
        (
            [255, 255, 255, 255, 0x3b, 0x9a, 0xca, 0x00, 30],
            Some((4_294_967_295, 1_000_000_000, 30)),
        ),
        ([0, 0, 0, 1, 0, 0, 0, 0, 34], Some((1, 0, 34))),
        // no stamp
        ([0, 0, 0, 0, 0, 0, 1, 2, 0], None),
        // a volume above 1,000,000,000
        ([0, 0, 0, 1, 0x3b, 0x9a, 0xca, 0x01, 0], None),
        // a quality that does not exist
        ([0, 0, 0, 1, 0, 0, 0, 0, 35], None),
        ([0, 0, 0, 1, 0, 0, 0, 0, 255], None),
        // a zero quality with a volume
        ([0, 0, 0, 1, 0, 0, 0, 1, 31], None),
    ];
    for (nine, want) in cases {
        assert_eq!(rt; shown(nine), want);
    }
}
