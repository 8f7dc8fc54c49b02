// The judgement of a call: what is to be done, or the lowest fault.
ghost use Rattle.market.specs.Lowest.{Lowest, turned_down};
ghost use Rattle.rules.specs.Asked.{asked, settle, deliver, amend, revised};
ghost use Rattle.rules.specs.Standing.{standing_of};
ghost use Rattle.rules.specs.Places.{RevisionFault};
ghost use Rattle.rules.specs.Rules.{Judged, Cleared, LaterFault, Taken};

use crate::call::Call;
use crate::case::Case;
use crate::delivering::check_delivery;
use crate::lowest::earlier;
use crate::revision::Revision;
use crate::state::State;
use market::refusal::Refusal;
use meters::row::MeterRow;
use readings::delivery::Delivery;
use readings::reading::Reading;
use stores::period::Period;
use stores::store::Store;

impl<'a, S: Store> Case<'a, S> {
    // Settling, where all that was handed over is of the day's size.
    fn judge_settle(&self) -> Result<Call<S::Period, Reading>, Refusal>
        ensures lowest { Lowest (LaterFault (standing_of S.Store self.now) settle) (turned_down result) }
        ensures task { Taken S.Period.number settle result }
    {
        self.sources.check_records(self.sizes.periods)?;
        Ok(Call::Settle)
    }

    // Delivering to a meter and a period.
    fn judge_deliver(
        &self,
        meter: usize,
        period: S::Period,
        delivery: Delivery,
    ) -> Result<Call<S::Period, Reading>, Refusal>
        ensures lowest { Lowest (LaterFault (standing_of S.Store self.now) (deliver meter (S.Period.number period) delivery)) (turned_down result) }
        ensures task { Taken S.Period.number (deliver meter (S.Period.number period) delivery) result }
    {
        let row = self.sources.row(meter);
        let record = self.check_meter(row, meter, period.number_of())?;
        let reading = check_delivery(record, self.sizes.limit, delivery)?;
        Ok(Call::Deliver {
            meter,
            period,
            reading,
        })
    }

    // The lowest fault of a record that is to replace that of a meter.
    fn check_amend(&self, meter: usize, row: MeterRow) -> Result<(), Refusal>
        ensures { Lowest (LaterFault (standing_of S.Store self.now) (amend meter row)) (turned_down result) }
    {
        let periods = self.sizes.periods;
        match self.state {
            State::Settled => {
                let new = self.sources.check_record(row, meter, periods);
                let old = self
                    .sources
                    .check_record(self.sources.row(meter), meter, periods);
                earlier(new, old)
            }
            _ => self.sources.check_stored(row, meter, periods),
        }
    }

    // Amending the record of a meter.
    fn judge_amend(&self, meter: usize, row: MeterRow) -> Result<Call<S::Period, Reading>, Refusal>
        ensures lowest { Lowest (LaterFault (standing_of S.Store self.now) (amend meter row)) (turned_down result) }
        ensures task { Taken S.Period.number (amend meter row) result }
    {
        self.check_amend(meter, row)?;
        Ok(Call::Amend { meter, row })
    }

    // The lowest fault of all meters in a period, on a settled day, and of a factor or a shape that is given.
    fn check_revision(&self, period: u8, revision: Revision) -> Result<(), Refusal>
        ensures { Lowest (RevisionFault self.now.state (S.grid self.now.sources.store.now) self.now.sources.factors.now self.now.sources.shapes.now self.now.sources.rows.now period revision) (turned_down result) }
    {
        match self.state {
            State::Settled => earlier(self.sources.check_period(period), revision.check()),
            _ => revision.check(),
        }
    }

    // Setting the factor or the shape of a class in a period.
    fn judge_revision(
        &self,
        period: S::Period,
        revision: Revision,
    ) -> Result<Call<S::Period, Reading>, Refusal>
        ensures lowest { Lowest (LaterFault (standing_of S.Store self.now) (revised (S.Period.number period) revision)) (turned_down result) }
        ensures task { Taken S.Period.number (revised (S.Period.number period) revision) result }
    {
        self.check_revision(period.number_of(), revision)?;
        Ok(Call::Revise { period, revision })
    }

    // What is to be done for a call, or the lowest of its faults.
    pub fn judge(
        &self,
        call: Call<S::Period, Delivery>,
    ) -> Result<Call<S::Period, Reading>, Refusal>
        ensures judged { Judged (standing_of S.Store self.now) (asked S.Period.number call) result }
        ensures cleared { Cleared S.Period.number (standing_of S.Store self.now) (asked S.Period.number call) result }
    {
        self.check_first(call)?;
        match call {
            Call::Settle => self.judge_settle(),
            Call::Deliver {
                meter,
                period,
                reading,
            } => self.judge_deliver(meter, period, reading),
            Call::Amend { meter, row } => self.judge_amend(meter, row),
            Call::Revise { period, revision } => self.judge_revision(period, revision),
            Call::Close => Ok(Call::Close),
        }
    }
}
