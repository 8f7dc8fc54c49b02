// The table of totals, and totals that are worked out and moved.
ghost use Rattle.std.specs.Prelude.{if◌then◌else◌, nat_eq};

use crate::meter::smart_import;
use amounts::amount::Amount;
use amounts::duos_amount::DuosAmount;
use market::refusal::Refusal;
use meters::row::Status;
use meters::used::UsedReading;
use qualities::quality::Quality;
use reports::duos::DuosReport;
use std::test::Fail;
use totals::account::Account;
use totals::entries::Entries;
use totals::entry::Entry;
use totals::totals::Totals;

// Two meters whose entries are the same in every period.
#[derive(Clone, Copy)]
struct TwoMeters {
    first: Entry,
    second: Entry,
}

impl Entries for TwoMeters {
    ghost entries = { λ s i p. (if nat_eq i 0 then s.first else s.second) };

    ghost count = { λ _. 2 };

    fn meter_count(&self) -> usize {
        2
    }

    fn entry_at(&self, index: usize, _period: u8) -> Entry {
        if index == 0 { self.first } else { self.second }
    }
}

// An energised meter of tariff 1 and supplier 3 that used so much.
fn entry(volume: u32) -> Entry {
    Entry {
        row: smart_import(Status::Energised, Some(1)),
        used: Some(UsedReading {
            volume,
            quality: Quality::A,
        }),
        factor: Some(1000),
    }
}

// The volume and the count of the total of a period and place; else the number of the refusal.
fn total(table: &Totals<'_, DuosAmount>, period: u8, place: usize) -> Result<(u64, u64), u8> {
    table
        .read(period, place)
        .map(|amount| (amount.volume, amount.energised))
        .map_err(Refusal::number)
}

// A table over amounts of another number gets 1.
#[test]
fn wrong_length(rt: HostRuntime) -> Result<(), Fail> {
    let mut cells = [DuosAmount::nothing(); 511];
    // By match: tried with `is_err_and`, and no proof covers a closure that takes lent amounts.
    match Totals::over(&mut cells, 2, 256) {
        Ok(_) => assert!(rt; false),
        Err(none) => assert_eq!(rt; none.refusal.number(), 1),
    }
    let meters = TwoMeters {
        first: entry(10),
        second: entry(30),
    };
    let mut account = Account {
        report: &DuosReport,
        totals: &mut cells,
    };
    assert!(rt; !account.fits(2));
    let settled = account.settle(2, &meters);
    assert_eq!(rt; settled.map_err(Refusal::number), Err(1));
    let moved = account.replace(2, 1, entry(10), entry(20));
    assert_eq!(rt; moved.map_err(Refusal::number), Err(1));
    Ok(())
}

// A period or place that does not exist gets 3.
#[test]
fn edges(rt: HostRuntime) -> Result<(), Fail> {
    let mut cells = [DuosAmount::nothing(); 512];
    let Ok(table) = Totals::over(&mut cells, 2, 256) else {
        assert!(rt; false);
        return Ok(());
    };
    assert_eq!(rt; total(&table, 0, 0), Err(3));
    assert_eq!(rt; total(&table, 1, 0), Ok((0, 0)));
    assert_eq!(rt; total(&table, 2, 255), Ok((0, 0)));
    assert_eq!(rt; total(&table, 3, 0), Err(3));
    assert_eq!(rt; total(&table, 1, 256), Err(3));
    Ok(())
}

// Two meters settled, then one of them moved in the second period: place 2 of period p is amount (p - 1) * 256 + 2.
#[test]
fn settled_and_moved(rt: HostRuntime) -> Result<(), Fail> {
    let meters = TwoMeters {
        first: entry(10),
        second: entry(30),
    };
    let full = DuosAmount {
        volume: 9,
        energised: 9,
        deenergised: 9,
        actual: 9,
        estimated: 9,
    };
    let mut cells = [full; 512];
    let mut account = Account {
        report: &DuosReport,
        totals: &mut cells,
    };
    account.settle(2, &meters)?;
    assert_eq!(rt; (cells[2].volume, cells[2].energised), (40, 2));
    assert_eq!(rt; (cells[258].volume, cells[258].energised), (40, 2));
    assert_eq!(rt; (cells[3].volume, cells[0].volume), (0, 0));
    let mut account = Account {
        report: &DuosReport,
        totals: &mut cells,
    };
    account.replace(2, 2, entry(30), entry(7))?;
    assert_eq!(rt; (cells[2].volume, cells[2].energised), (40, 2));
    assert_eq!(rt; (cells[258].volume, cells[258].energised), (17, 2));
    Ok(())
}
