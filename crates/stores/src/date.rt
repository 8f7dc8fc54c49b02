// The places of a UTC date: 48 to a meter, one a period, for at most 4,096 meters.
ghost use Rattle.std.specs.Prelude.{◌≡◌, ◌*◌, ◌<◌, IfSome, if◌then◌else◌, Some, None};
ghost use Rattle.stores.specs.Date.{meters_of, place_of, is_inside};

use market::clock::UtcPeriod;

// The periods of a UTC date.
pub const PERIODS: u8 = 48;

// How many meters a store has where there is room for so many.
pub fn meters_of(room: usize) -> usize
    ensures { result ≡ meters_of room }
{
    room.min(4096)
}

// The place of a meter and a period, counted from 0, if the store has them.
pub fn place_in(room: usize, meter: usize, period: UtcPeriod) -> Option<usize>
    ensures value { result ≡ (if is_inside (meters_of room) meter period.0 then Some (place_of meter period.0) else None) }
    ensures fits { IfSome result (λ place. place < meters_of room * 48) }
{
    if (1..=meters_of(room)).contains(&meter) && (1..=PERIODS).contains(&period.0) {
        Some((meter - 1) * 48 + (period.0 as usize - 1))
    } else {
        None
    }
}
