// Whether a scheme serves a run.
ghost use Rattle.std.specs.Prelude.{◌≡◌};
ghost use Rattle.plans.specs.Schemes.{has_room, is_unused, prepared};
ghost use Rattle.plans.specs.Setups.{setup_in};

use crate::plan::{Appointment, Plan, Sizes};
use refusals::Refusal;
use seals::Scheme;

// The longest text of a frame's link: `frames::LONGEST_TEXT`, named here, since a plan knows no frames and would stand on
// them for one number.
const TEXT: usize = 18;

// The most that one signer seals in a run.
const SEALS: usize = 16;

// Two questions to a scheme, a line each: with the question as a closure, one function and two calls would be no shorter.
// Whether each signer up to n has enough left.
fn has_room<S: Scheme>(n: u8, scheme: &S) -> bool
    ensures { result ≡ has_room n (S.Scheme.meaning scheme.now) }
{
    (0..n).all(|k| scheme.left(k + 1) >= SEALS)
}

// Whether no signer up to n has a triple.
fn is_unused<S: Scheme>(n: u8, scheme: &S) -> bool
    ensures { result ≡ is_unused n (S.Scheme.meaning scheme.now) }
{
    (0..n).all(|k| scheme.count(k + 1) == 0)
}

impl Plan {
    // A plan of these sizes and this agenda for a run with the scheme, or row 1, 2, 3 or 4.
    pub fn prepare<S: Scheme>(
        sizes: Sizes,
        agenda: &[Appointment],
        scheme: &S,
    ) -> Result<Plan, Refusal>
        ensures { setup_in result ≡ prepared sizes.n sizes.f sizes.d sizes.e agenda.now (S.Scheme.meaning scheme.now) }
    {
        let plan = Plan::new(sizes, agenda)?;
        if scheme.longest() < TEXT || !has_room(plan.n, scheme) {
            return Err(Refusal::Scheme);
        }
        if !is_unused(plan.n, scheme) {
            return Err(Refusal::Used);
        }
        Ok(plan)
    }
}
