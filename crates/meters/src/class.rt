// Consumption component classes: which class a volume counts in, by its meter and quality.
ghost use Rattle.std.specs.Prelude.{◌≡◌};
ghost use Rattle.meters.specs.Class.{class_of, losses_of};

use crate::making::can_connect;
use crate::row::{Connection, Quantity, Segment};
use qualities::quality::Quality;

// The class of a volume, 100 to 182, or none.
pub fn consumption_class(
    segment: Segment,
    quantity: Quantity,
    connection: Connection,
    quality: Quality,
) -> Option<u8>
    ensures { result ≡ class_of segment quantity connection quality }
{
    if !can_connect(segment, connection) {
        return None;
    }
    // how far the connection is from whole current
    let place = connection as u8;
    // one flat match over segment, quantity and quality is no plainer: half of its arms take five lines each
    let class = match (segment, quantity) {
        (Segment::Unmetered, Quantity::Import) => match quality {
            Quality::A => 100,
            Quality::E | Quality::ZE => 104,
            _ => return None,
        },
        (Segment::Unmetered, Quantity::Export) => match quality {
            Quality::A => 102,
            Quality::E | Quality::ZE => 106,
            _ => return None,
        },
        (Segment::Smart, Quantity::Import) => match quality {
            Quality::A => 108,
            Quality::E1 | Quality::E2 | Quality::E3 | Quality::E6 => 112,
            Quality::E4 | Quality::E5 | Quality::E7 => 113,
            Quality::E8 | Quality::ZE2 | Quality::ZE3 => 114,
            _ => return None,
        },
        (Segment::Smart, Quantity::Export) => match quality {
            Quality::A => 110,
            Quality::E1 | Quality::E2 | Quality::E3 | Quality::E6 => 118,
            Quality::ZE1 | Quality::ZE2 | Quality::ZE3 => 118,
            _ => return None,
        },
        (Segment::Advanced, Quantity::Import) => match quality {
            Quality::A | Quality::A1 | Quality::A2 | Quality::A3 => 120 + 4 * place,
            Quality::EA1 | Quality::EA2 | Quality::EA3 | Quality::EA4 | Quality::EA5 => 136
                + 12 * place,
            Quality::EA7 | Quality::EA8 | Quality::EA9 => 137 + 12 * place,
            Quality::EA6 | Quality::EA10 | Quality::EA11 | Quality::EA12 => 138 + 12 * place,
            _ => return None,
        },
        (Segment::Advanced, Quantity::Export) => match quality {
            Quality::A | Quality::A1 | Quality::A2 | Quality::A3 => 122 + 4 * place,
            Quality::AAE1 | Quality::AAE2 => 142 + 12 * place,
            Quality::AAE3 => 143 + 12 * place,
            Quality::EAE1 | Quality::EAE2 | Quality::EAE3 => 144 + 12 * place,
            _ => return None,
        },
    };
    Some(class)
}

// The class under which the losses of a consumption class are reported, or none where the published table has none.
pub fn class_for_losses(class: u8) -> Option<u8>
    ensures { result ≡ losses_of class }
{
    match class {
        100..=111 | 118..=135 => Some(class + 1),
        112..=114 | 136..=179 => Some(class + 3),
        _ => None,
    }
}
