// Making a bench, and taking it apart.
ghost use Rattle.std.specs.Prelude.{◌≡◌};
ghost use Rattle.plans.specs.Setups.{setup_in};
ghost use Rattle.bench.specs.Model.{core_of, model_of};
ghost use Rattle.bench.specs.Making.{fresh, made, refusal_in};
ghost use Rattle.bench.specs.Promise.{Promised};

use crate::flights::Flights;
use crate::seats::Seats;
use crate::state::{Bench, Inner};
use kinds::Kind;
use plans::{Appointment, Plan, Sizes};
use refusals::Refusal;
use seals::Scheme;

// Nothing has happened yet.
fn fresh(plan: Result<Plan, Refusal>) -> Inner
    ensures { core_of result ≡ fresh (setup_in plan) }
{
    Inner {
        plan,
        time: 0,
        seats: Seats::new(),
        flights: Flights::new(),
    }
}

impl<S: Scheme, K: Kind> Bench<S, K> {
    // A bench of n processors, at most f of them faulty. Where that is refused, every call on it answers the refusal.
    pub fn new(sizes: Sizes, agenda: &[Appointment], scheme: S, kind: K) -> Self
        ensures is { model_of S.Scheme.meaning result ≡ made sizes.n sizes.f sizes.d sizes.e agenda.now (S.Scheme.meaning scheme) }
        ensures promise { Promised K.Kind.admitted K.Kind.same (model_of S.Scheme.meaning result) }
    {
        let plan = Plan::prepare(sizes, agenda, &scheme);
        Bench {
            inner: fresh(plan),
            scheme,
            kind,
        }
    }

    // The refusal of the making, if it was refused.
    pub fn refusal(&self) -> Option<Refusal>
        ensures { result ≡ refusal_in (model_of S.Scheme.meaning self.now).core.plan }
    {
        self.inner.plan.err()
    }

    // Takes the bench apart: the scheme, with every seal.
    pub fn into_scheme(self) -> S
        ensures { result ≡ self.scheme }
    {
        let Bench {
            inner: _,
            scheme,
            kind: _,
        } = self;
        scheme
    }
}
