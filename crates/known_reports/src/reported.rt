// Known values of the reports.
ghost use Rattle.std.specs.Prelude.{◌≡◌, true};

use known::meter::smart_import;
use meters::meter::Meter;
use meters::row::Status;
use meters::used::UsedReading;
use qualities::quality::Quality;
use reports::bm_unit::BmUnitReport;
use reports::duos::DuosReport;
use totals::report::Report;

// Whether 250 Wh at factor 1,085 lose 21,250 mWh, and 30 Wh at factor 950 lose -1,500 mWh.
pub fn losses_stand() -> bool
    ensures { result ≡ true }
{
    Meter::new(smart_import(Status::Energised)).is_ok_and(|meter| {
        let above = BmUnitReport.amount_of(
            meter,
            UsedReading {
                volume: 250,
                quality: Quality::E8,
            },
            1085,
        );
        let below = BmUnitReport.amount_of(
            meter,
            UsedReading {
                volume: 30,
                quality: Quality::A,
            },
            950,
        );
        above.loss == 21_250 && below.loss == -1_500
    })
}

// Whether 700 Wh of quality E2 at a de-energised meter are estimated, and count in neither way.
pub fn estimate_is_not_counted() -> bool
    ensures { result ≡ true }
{
    Meter::new(smart_import(Status::Deenergised)).is_ok_and(|meter| {
        let amount = DuosReport.amount_of(
            meter,
            UsedReading {
                volume: 700,
                quality: Quality::E2,
            },
            1000,
        );
        amount.estimated == 700 && amount.energised == 0 && amount.deenergised == 0
    })
}
