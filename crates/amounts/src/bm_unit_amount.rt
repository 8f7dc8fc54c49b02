// The amount of the BM Unit report.
ghost use Rattle.std.specs.Prelude.{◌^◌, ◌<◌};
ghost use Rattle.std.specs.Int.Signed.{mag};

// A volume in Wh, its loss in mWh, and how many meters make it up. All three wrap at 64 bits.
#[derive(Clone, Copy)]
pub struct BmUnitAmount {
    pub volume: u64,
    pub loss: i64,
    pub count: u64,
    ghost volume_fits: { volume < 2 ^ 64 },
    ghost loss_fits: { mag loss < 2 ^ 63 },
    ghost count_fits: { count < 2 ^ 64 },
}
