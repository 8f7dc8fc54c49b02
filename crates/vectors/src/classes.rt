// The table of consumption component classes as it was published, against the code.
use meters::class::{class_for_losses, consumption_class};
use meters::row::{Connection, Quantity, Segment};
use qualities::quality::{QUALITIES, Quality};

// What a class counts: consumption, or the losses of it.
#[derive(Clone, Copy, PartialEq, Eq)]
enum Counted {
    Consumption,
    Losses,
}

// The letters of the published table.
const U: Segment = Segment::Unmetered;

const S: Segment = Segment::Smart;

const A: Segment = Segment::Advanced;

const I: Quantity = Quantity::Import;

const X: Quantity = Quantity::Export;

const W: Connection = Connection::WholeCurrent;

const L: Connection = Connection::LowVoltage;

const H: Connection = Connection::HighVoltage;

const E: Connection = Connection::ExtraHighVoltage;

const CONSUMPTION: Counted = Counted::Consumption;

const LOSSES: Counted = Counted::Losses;

// A row: the class, the segment, the quantity, what is counted, the connection and the qualities.
struct Row(u8, Segment, Quantity, Counted, Connection, &'static str);

const TABLE: [Row; 83] = [
    Row(100, U, I, CONSUMPTION, W, "A"),
    Row(101, U, I, LOSSES, W, "A"),
    Row(102, U, X, CONSUMPTION, W, "A"),
    Row(103, U, X, LOSSES, W, "A"),
    Row(104, U, I, CONSUMPTION, W, "E ZE"),
    Row(105, U, I, LOSSES, W, "E ZE"),
    Row(106, U, X, CONSUMPTION, W, "E ZE"),
    Row(107, U, X, LOSSES, W, "E ZE"),
    Row(108, S, I, CONSUMPTION, W, "A"),
    Row(109, S, I, LOSSES, W, "A"),
    Row(110, S, X, CONSUMPTION, W, "A"),
    Row(111, S, X, LOSSES, W, "A"),
    Row(112, S, I, CONSUMPTION, W, "E1 E2 E3 E6"),
    Row(113, S, I, CONSUMPTION, W, "E4 E5 E7"),
    Row(114, S, I, CONSUMPTION, W, "E8 ZE2 ZE3"),
    Row(115, S, I, LOSSES, W, "E1 E2 E3 E6"),
    Row(116, S, I, LOSSES, W, "E4 E5 E7"),
    Row(117, S, I, LOSSES, W, "E8 ZE2 ZE3"),
    Row(118, S, X, CONSUMPTION, W, "E1 E2 E3 E6 ZE1 ZE2 ZE3"),
    Row(119, S, X, LOSSES, W, "E1 E2 E3 E6 ZE1 ZE2 ZE3"),
    Row(120, A, I, CONSUMPTION, W, "A A1 A2 A3"),
    Row(121, A, I, LOSSES, W, "A A1 A2 A3"),
    Row(122, A, X, CONSUMPTION, W, "A A1 A2 A3"),
    Row(123, A, X, LOSSES, W, "A A1 A2 A3"),
    Row(124, A, I, CONSUMPTION, L, "A A1 A2 A3"),
    Row(125, A, I, LOSSES, L, "A A1 A2 A3"),
    Row(126, A, X, CONSUMPTION, L, "A A1 A2 A3"),
    Row(127, A, X, LOSSES, L, "A A1 A2 A3"),
    Row(128, A, I, CONSUMPTION, H, "A A1 A2 A3"),
    Row(129, A, I, LOSSES, H, "A A1 A2 A3"),
    Row(130, A, X, CONSUMPTION, H, "A A1 A2 A3"),
    Row(131, A, X, LOSSES, H, "A A1 A2 A3"),
    Row(132, A, I, CONSUMPTION, E, "A A1 A2 A3"),
    Row(133, A, I, LOSSES, E, "A A1 A2 A3"),
    Row(134, A, X, CONSUMPTION, E, "A A1 A2 A3"),
    Row(135, A, X, LOSSES, E, "A A1 A2 A3"),
    Row(136, A, I, CONSUMPTION, W, "EA1 EA2 EA3 EA4 EA5"),
    Row(137, A, I, CONSUMPTION, W, "EA7 EA8 EA9"),
    Row(138, A, I, CONSUMPTION, W, "EA6 EA10 EA11 EA12"),
    Row(139, A, I, LOSSES, W, "EA1 EA2 EA3 EA4 EA5"),
    Row(140, A, I, LOSSES, W, "EA7 EA8 EA9"),
    Row(141, A, I, LOSSES, W, "EA6 EA10 EA11 EA12"),
    Row(142, A, X, CONSUMPTION, W, "AAE1 AAE2"),
    Row(143, A, X, CONSUMPTION, W, "AAE3"),
    Row(144, A, X, CONSUMPTION, W, "EAE1 EAE2 EAE3"),
    Row(145, A, X, LOSSES, W, "AAE1 AAE2"),
    Row(146, A, X, LOSSES, W, "AAE3"),
    Row(147, A, X, LOSSES, W, "EAE1 EAE2 EAE3"),
    Row(148, A, I, CONSUMPTION, L, "EA1 EA2 EA3 EA4 EA5"),
    Row(149, A, I, CONSUMPTION, L, "EA7 EA8 EA9"),
    Row(150, A, I, CONSUMPTION, L, "EA6 EA10 EA11 EA12"),
    Row(151, A, I, LOSSES, L, "EA1 EA2 EA3 EA4 EA5"),
    Row(152, A, I, LOSSES, L, "EA7 EA8 EA9"),
    Row(153, A, I, LOSSES, L, "EA6 EA10 EA11 EA12"),
    Row(154, A, X, CONSUMPTION, L, "AAE1 AAE2"),
    Row(155, A, X, CONSUMPTION, L, "AAE3"),
    Row(156, A, X, CONSUMPTION, L, "EAE1 EAE2 EAE3"),
    Row(157, A, X, LOSSES, L, "AAE1 AAE2"),
    Row(158, A, X, LOSSES, L, "AAE3"),
    Row(159, A, X, LOSSES, L, "EAE1 EAE2 EAE3"),
    Row(160, A, I, CONSUMPTION, H, "EA1 EA2 EA3 EA4 EA5"),
    Row(161, A, I, CONSUMPTION, H, "EA7 EA8 EA9"),
    Row(162, A, I, CONSUMPTION, H, "EA6 EA10 EA11 EA12"),
    Row(163, A, I, LOSSES, H, "EA1 EA2 EA3 EA4 EA5"),
    Row(164, A, I, LOSSES, H, "EA7 EA8 EA9"),
    Row(165, A, I, LOSSES, H, "EA6 EA10 EA11 EA12"),
    Row(166, A, X, CONSUMPTION, H, "AAE1 AAE2"),
    Row(167, A, X, CONSUMPTION, H, "AAE3"),
    Row(168, A, X, CONSUMPTION, H, "EAE1 EAE2 EAE3"),
    Row(169, A, X, LOSSES, H, "AAE1 AAE2"),
    Row(170, A, X, LOSSES, H, "AAE3"),
    Row(171, A, X, LOSSES, H, "EAE1 EAE2 EAE3"),
    Row(172, A, I, CONSUMPTION, E, "EA1 EA2 EA3 EA4 EA5"),
    Row(173, A, I, CONSUMPTION, E, "EA7 EA8 EA9"),
    Row(174, A, I, CONSUMPTION, E, "EA6 EA10 EA11 EA12"),
    Row(175, A, I, LOSSES, E, "EA1 EA2 EA3 EA4 EA5"),
    Row(176, A, I, LOSSES, E, "EA7 EA8 EA9"),
    Row(177, A, I, LOSSES, E, "EA6 EA10 EA11 EA12"),
    Row(178, A, X, CONSUMPTION, E, "AAE1 AAE2"),
    Row(179, A, X, CONSUMPTION, E, "AAE3"),
    Row(180, A, X, CONSUMPTION, E, "EAE1 EAE2 EAE3"),
    Row(181, A, X, LOSSES, E, "AAE1 AAE2"),
    Row(182, A, X, LOSSES, E, "AAE3"),
];

// Whether a row lists a quality.
fn lists(row: &Row, quality: Quality) -> bool {
    row.5.split_whitespace().any(|name| name == quality.text())
}

// The class of the row that lists these indicators, or none.
fn listed(
    segment: Segment,
    quantity: Quantity,
    counted: Counted,
    connection: Connection,
    quality: Quality,
) -> Option<u8> {
    let key = (segment, quantity, counted, connection);
    TABLE
        .iter()
        .find(|row| (row.1, row.2, row.3, row.4) == key && lists(row, quality))
        .map(|row| row.0)
}

// Every segment, quantity, connection and quality has the class of the row that lists them, and as its class for losses that of the
// row for losses that lists them; where no row does, it has none.
#[test]
fn published_classes(rt: HostRuntime) {
    for segment in [U, S, A] {
        for quantity in [I, X] {
            for connection in [W, L, H, E] {
                for quality in QUALITIES {
                    let class = consumption_class(segment, quantity, connection, quality);
                    assert_eq!(rt;
                        class,
                        listed(segment, quantity, CONSUMPTION, connection, quality)
                    );
                    assert_eq!(rt;
                        class.and_then(class_for_losses),
                        listed(segment, quantity, LOSSES, connection, quality)
                    );
                }
            }
        }
    }
}
