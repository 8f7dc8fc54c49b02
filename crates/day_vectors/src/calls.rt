// One meter in one period: all six calls, among them some that are superseded or turned down.
use amounts::amount::Amount;
use amounts::bm_unit_amount::BmUnitAmount;
use amounts::duos_amount::DuosAmount;
use layers::window::Window;
use market::clock::{SettlementPeriod, UtcPeriod};
use market::refusal::Refusal;
use meters::row::{Connection, MeterRow, Quantity, Segment, Status};
use readings::delivery::Delivery;
use records::record_store::RecordStore;
use reports::bm_unit::BmUnitReport;
use reports::duos::DuosReport;
use rules::call::Call;
use rules::revision::Revision;
use settlement::day::{Day, Outcome};
use settlement::inputs::Inputs;
use settlement::replay::replay;
use std::test::Fail;
use totals::account::Account;

// Written out, as in the other worked cases, so that its values are read beside the case.
// A smart import meter of BM Unit 2, tariff 1 and a supplier.
fn smart_import(supplier: u8) -> MeterRow {
    MeterRow {
        mpan: 1,
        segment: Segment::Smart,
        quantity: Quantity::Import,
        connection: Connection::WholeCurrent,
        status: Status::Energised,
        shape_class: 1,
        loss_class: 1,
        base_unit: 2,
        additional_unit: None,
        tariff: Some(1),
        supplier,
    }
}

// A measured reading for a meter in the first period.
fn deliver(meter: usize, stamp: u64, volume: u64) -> Call<SettlementPeriod, Delivery> {
    Call::Deliver {
        meter,
        period: SettlementPeriod(1),
        reading: Delivery {
            stamp,
            volume,
            quality: 0,
        },
    }
}

// A shape of 250 Wh is settled; 400 Wh are delivered and 300 Wh of the same stamp superseded; the factor goes from 1,085 to 950, and the meter
// to another supplier. What counts in the end is 400 Wh of class 108 that lose -20,000 mWh, at tariff 1 and supplier 4.
#[test]
fn six_calls(rt: HostRuntime) -> Result<(), Fail> {
    let mut records = [None; 48];
    let mut window = Window::new(RecordStore::open(&mut records), UtcPeriod(1));
    let mut day = Day::new(1, 1000);
    let mut rows = [smart_import(3)];
    let mut factors = [Some(1085); 40];
    let mut shapes = [Some(250); 32];
    let mut units = [BmUnitAmount::nothing(); 1328];
    let mut duos = [DuosAmount::nothing(); 256];
    let period = SettlementPeriod(1);
    let calls = [
        Call::Close,
        Call::Settle,
        deliver(1, 90, 400),
        deliver(1, 90, 300),
        deliver(1, 91, 1001),
        deliver(2, 91, 500),
        Call::Revise {
            period,
            revision: Revision::Factor {
                class: 1,
                factor: 950,
            },
        },
        Call::Revise {
            period,
            revision: Revision::Shape {
                class: 1,
                shape: 300,
            },
        },
        Call::Amend {
            meter: 1,
            row: smart_import(4),
        },
        Call::Close,
        Call::Settle,
    ];
    let wanted = [
        Err(2),
        Ok(Outcome::Done),
        Ok(Outcome::Done),
        Ok(Outcome::Superseded),
        Err(11),
        Err(3),
        Ok(Outcome::Done),
        Ok(Outcome::Done),
        Ok(Outcome::Done),
        Ok(Outcome::Done),
        Err(2),
    ];
    let mut inputs = Inputs {
        store: &mut window,
        rows: &mut rows,
        factors: &mut factors,
        shapes: &mut shapes,
    };
    let mut first = Account {
        report: &BmUnitReport,
        totals: &mut units,
    };
    let mut second = Account {
        report: &DuosReport,
        totals: &mut duos,
    };
    let answers = replay(
        rt.alloc(),
        &mut day,
        &mut inputs,
        &mut first,
        &mut second,
        &calls,
    )?;
    assert_eq!(rt; answers.len(), wanted.len());
    for (answer, want) in answers.iter().zip(wanted.iter()) {
        assert_eq!(rt; answer.map_err(Refusal::number), *want);
    }
    assert_eq!(rt;
        (units[91].volume, units[91].loss, units[91].count),
        (400, -20_000, 1)
    );
    assert_eq!(rt;
        (units[97].volume, units[97].loss, units[97].count),
        (0, 0, 0)
    );
    assert_eq!(rt; (duos[2].volume, duos[2].energised), (0, 0));
    assert_eq!(rt;
        (
            duos[3].volume,
            duos[3].energised,
            duos[3].actual,
            duos[3].estimated
        ),
        (400, 1, 400, 0)
    );
    Ok(())
}
