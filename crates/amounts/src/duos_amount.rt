// The amount of the DUoS report.
ghost use Rattle.std.specs.Prelude.{◌^◌, ◌<◌};

// A volume in Wh; how many energised and how many de-energised meters are counted; and the parts of the volume that are actual and
// estimated. All five wrap at 64 bits.
#[derive(Clone, Copy)]
pub struct DuosAmount {
    pub volume: u64,
    pub energised: u64,
    pub deenergised: u64,
    pub actual: u64,
    pub estimated: u64,
    ghost volume_fits: { volume < 2 ^ 64 },
    ghost energised_fits: { energised < 2 ^ 64 },
    ghost deenergised_fits: { deenergised < 2 ^ 64 },
    ghost actual_fits: { actual < 2 ^ 64 },
    ghost estimated_fits: { estimated < 2 ^ 64 },
}
