// The record store and the packed store over memory of odd lengths.
use market::clock::UtcPeriod;
use market::refusal::Refusal;
use packed::packed_store::PackedStore;
use readings::delivery::Delivery;
use records::record_store::RecordStore;
use std::process::Abort;
use std::test::Fail;
use stores::store::Store;

// The edges of a store with one meter: puts inside are taken and shown, outside they get 3 and nothing is shown.
fn check_one_meter<S: Store<Period = UtcPeriod>>(
    rt: &impl Abort,
    store: &mut S,
) -> Result<(), Fail> {
    let reading = Delivery {
        stamp: 7,
        volume: 900,
        quality: 0,
    }
    .accept(1000)?;
    assert_eq!(rt; (store.meter_count(), store.period_count()), (1, 48));
    for (meter, period, want) in [
        (1, 1, Ok(())),
        (1, 48, Ok(())),
        (1, 0, Err(3)),
        (1, 49, Err(3)),
        (0, 1, Err(3)),
        (2, 1, Err(3)),
        (usize::MAX, 255, Err(3)),
    ] {
        let period = UtcPeriod(period);
        assert!(rt; store.show(meter, period).is_none());
        let put = store.put(meter, period, reading);
        assert_eq!(rt; put.map_err(Refusal::number), want);
        assert_eq!(rt; store.show(meter, period).is_some(), want.is_ok());
    }
    Ok(())
}

#[test]
fn bytes_of_odd_length(rt: HostRuntime) -> Result<(), Fail> {
    let mut bytes = [0xaa_u8; 863];
    check_one_meter(&rt, &mut PackedStore::open(&mut bytes))?;
    // stamp 7, volume 900, quality 0 in the first and the last place of the meter
    assert_eq!(rt;
        [bytes[0], bytes[3], bytes[4], bytes[6], bytes[7], bytes[8]],
        [0, 7, 0, 3, 132, 0]
    );
    assert_eq!(rt;
        [bytes[423], bytes[426], bytes[429], bytes[430], bytes[431]],
        [0, 7, 3, 132, 0]
    );
    // nothing between, and the remainder is untouched
    assert!(rt; bytes[9..423].iter().all(|byte| *byte == 0));
    assert!(rt; bytes[432..863].iter().all(|byte| *byte == 0xaa));
    Ok(())
}

#[test]
fn records_of_odd_length(rt: HostRuntime) -> Result<(), Fail> {
    let other = Delivery {
        stamp: 1,
        volume: 1,
        quality: 0,
    }
    .accept(1000)?;
    let mut records = [Some(other); 95];
    check_one_meter(&rt, &mut RecordStore::open(&mut records))?;
    assert!(rt; records[1..47].iter().all(|record| record.is_none()));
    assert!(rt; records[48..95].iter().all(|record| record.is_some()));
    Ok(())
}

#[test]
fn too_little_and_too_much(rt: HostRuntime) -> Result<(), Fail> {
    let mut few = [0_u8; 431];
    assert_eq!(rt; PackedStore::open(&mut few).meter_count(), 0);
    assert_eq!(rt; PackedStore::open(&mut few[0..0]).meter_count(), 0);
    let mut few_records = [None; 47];
    assert_eq!(rt; RecordStore::open(&mut few_records).meter_count(), 0);
    let mut many = vec![in rt.alloc(); 0xaa_u8; 432 * 4097]?;
    assert_eq!(rt; PackedStore::open(&mut many).meter_count(), 4096);
    assert_eq!(rt; many.get(432 * 4096 - 1).copied(), Some(0));
    assert_eq!(rt; many.get(432 * 4096).copied(), Some(0xaa));
    Ok(())
}
