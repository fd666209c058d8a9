// What became of an item.
ghost use Rattle.std.specs.Prelude.{◌≡◌, ◌≤◌, length};
ghost use Rattle.bench.specs.Model.{core_of, model_of};
ghost use Rattle.bench.specs.Reports.{broadcasts, reports};

use crate::state::{Bench, Inner};
use kinds::Kind;
use processor::Decision;
use refusals::Refusal;
use seals::Scheme;

// An item's broadcasts, and the decisions recorded so far by the n processors; that of processor p is at p - 1.
// An array of eight and how many count: no heap here.
#[derive(Clone, Copy, Debug, PartialEq, Eq)]
pub struct Report {
    pub n: u8,
    pub broadcasts: usize,
    pub decisions: [Option<Decision>; 8],
}

impl Inner {
    fn broadcasts(&self, item: u32) -> usize
        ensures { result ≡ broadcasts (core_of self.now) item }
    {
        let flights = self.flights.as_slice();
        flights
            .iter()
            .filter(|flight| u32::from(flight.item) == item)
            .count()
    }
}

impl<S: Scheme, K: Kind> Bench<S, K> {
    // What became of an item of the agenda so far.
    pub fn report(&self, item: u32) -> Result<Report, Refusal>
        ensures { result ≡ reports item (model_of S.Scheme.meaning self.now).core }
    {
        let plan = self.inner.plan?;
        if !plan.has_item(item) {
            return Err(Refusal::Item);
        }
        let broadcasts = self.inner.broadcasts(item);
        let decisions = self.inner.seats.decisions(item);
        Ok(Report {
            n: plan.n,
            broadcasts,
            decisions,
        })
    }
}
