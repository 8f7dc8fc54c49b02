// One meter in one period of a summer day over two UTC dates, the date before in records and the date in bytes: a pile of stores, each lent on.
use amounts::amount::Amount;
use amounts::bm_unit_amount::BmUnitAmount;
use amounts::duos_amount::DuosAmount;
use layers::joined::JoinedDay;
use layers::window::Window;
use market::clock::{DayKind, SettlementPeriod};
use meters::row::{Connection, MeterRow, Quantity, Segment, Status};
use packed::packed_store::PackedStore;
use readings::delivery::Delivery;
use records::record_store::RecordStore;
use reports::bm_unit::BmUnitReport;
use reports::duos::DuosReport;
use rules::call::Call;
use settlement::day::Day;
use settlement::inputs::Inputs;
use settlement::replay::replay;
use std::alloc::{AllocError, Global};
use std::test::Fail;
use stores::store::Store;
use totals::account::Account;
use totals::report::Report;

// A smart import meter of BM Unit 2, tariff 1 and supplier 3.
const METER: MeterRow = MeterRow {
    mpan: 1,
    segment: Segment::Smart,
    quantity: Quantity::Import,
    connection: Connection::WholeCurrent,
    status: Status::Energised,
    shape_class: 1,
    loss_class: 1,
    base_unit: 2,
    additional_unit: None,
    tariff: Some(1),
    supplier: 3,
};

// The supplier of the first meter, the first factor and the first shape after a list of calls: that they are there still is promised of what is lent.
fn first_of_each<S: Store, Q: Report, R: Report>(
    heap: Global,
    day: &mut Day,
    inputs: &mut Inputs<'_, S>,
    first: &mut Account<'_, Q, Q::Amount>,
    second: &mut Account<'_, R, R::Amount>,
    calls: &[Call<S::Period, Delivery>],
) -> Result<(u8, Option<u16>, Option<u32>), AllocError> {
    if inputs.rows.len() < 1 || inputs.factors.len() < 1 || inputs.shapes.len() < 1 {
        return Ok((0, None, None));
    }
    let _ = replay(heap, day, inputs, first, second, calls)?;
    Ok((inputs.rows[0].supplier, inputs.factors[0], inputs.shapes[0]))
}

// The third period of a summer day is UTC period 1 of the date. A shape of 250 Wh is settled there; 500 Wh come to stand, in class 108. At a factor
// of 1,085 they lose 42,500 mWh.
#[test]
fn over_two_dates(rt: HostRuntime) -> Result<(), Fail> {
    let mut records = [None; 48];
    let mut bytes = [0u8; 432];
    let mut before = RecordStore::open(&mut records);
    let mut store = JoinedDay::new(DayKind::Summer, &mut before, PackedStore::open(&mut bytes));
    let mut window = Window::new(&mut store, SettlementPeriod(3));
    let mut day = Day::new(1, 1000);
    let mut rows = [METER];
    let mut factors = [Some(1085); 40];
    let mut shapes = [Some(250); 32];
    let mut units = [BmUnitAmount::nothing(); 1328];
    let mut duos = [DuosAmount::nothing(); 256];
    let calls = [
        Call::Settle,
        Call::Deliver {
            meter: 1,
            period: SettlementPeriod(1),
            reading: Delivery {
                stamp: 90,
                volume: 500,
                quality: 0,
            },
        },
        Call::Close,
    ];
    let mut inputs = Inputs::new(&mut window, &mut rows, &mut factors, &mut shapes);
    let mut first = Account::new(&BmUnitReport, &mut units);
    let mut second = Account::new(&DuosReport, &mut duos);
    let told = first_of_each(
        rt.alloc(),
        &mut day,
        &mut inputs,
        &mut first,
        &mut second,
        &calls,
    )?;
    assert_eq!(rt; told, (3, Some(1085), Some(250)));
    assert_eq!(rt;
        (units[91].volume, units[91].loss, units[91].count),
        (500, 42_500, 1)
    );
    assert_eq!(rt; (duos[2].volume, duos[2].actual), (500, 500));
    let shown = store.show(1, SettlementPeriod(3));
    assert_eq!(rt; shown.map(|reading| reading.volume()), Some(500));
    Ok(())
}
