// A controller's processor: it passes calls on to its part, with what was agreed.
ghost use Rattle.std.specs.Prelude.{◌≡◌};
ghost use Rattle.processor.specs.Opening.{opened};
ghost use Rattle.processor.specs.Receiving.{received};
ghost use Rattle.processor.specs.Deciding.{decided};
ghost use Rattle.processor.specs.Controllers.{controller_in, controller_of, started, passed, recorded};

use crate::owed::Owed;
use crate::part::{Decision, Part};
use kinds::Kind;
use plans::{Appointment, Plan, Sizes};
use refusals::Refusal;
use seals::Scheme;

// A part, and the plan that it keeps to.
#[derive(Clone, Copy, Debug, PartialEq, Eq)]
struct Seat {
    plan: Plan,
    part: Part,
}

// The seat of processor `own` in a run, or the row that refuses it.
fn seated<S: Scheme>(
    sizes: Sizes,
    agenda: &[Appointment],
    own: u32,
    scheme: &S,
) -> Result<Seat, Refusal>
    ensures { controller_in result ≡ started sizes.n sizes.f sizes.d sizes.e agenda.now own (S.Scheme.meaning scheme.now) }
{
    let plan = Plan::prepare(sizes, agenda, scheme)?;
    if !plan.has_processor(own) {
        return Err(Refusal::Processor);
    }
    Ok(Seat {
        plan,
        part: Part::new(own as u8),
    })
}

// A refused making leaves its refusal in the place of the seat.
#[derive(Drop)]
pub struct Processor<K> {
    seat: Result<Seat, Refusal>,
    kind: K,
}

// The seat is matched in each call: the contract of `as_mut` says nothing of what is left behind. No model: with one, a
// call would open and close the processor to lend the plan beside the part.
impl<K: Kind> Processor<K> {
    // Processor `own` in a run of n. Where that is refused, every call on it answers the refusal.
    pub fn new<S: Scheme>(
        sizes: Sizes,
        agenda: &[Appointment],
        own: u32,
        scheme: &S,
        kind: K,
    ) -> Processor<K>
        ensures { controller_of result ≡ started sizes.n sizes.f sizes.d sizes.e agenda.now own (S.Scheme.meaning scheme.now) }
    {
        Processor {
            seat: seated(sizes, agenda, own, scheme),
            kind,
        }
    }

    // Opens the own item with a value at its reading, and answers the broadcast that is then owed.
    pub fn open(&mut self, reading: u64, item: u32, value: u64) -> Result<Owed, Refusal>
        ensures { (result, controller_of self.new) ≡ passed (λ s p. opened K.Kind.admitted s reading item value p) (controller_of self.old) }
    {
        match &mut self.seat {
            Ok(seat) => seat.part.open(&seat.plan, &self.kind, reading, item, value),
            Err(refusal) => Err(*refusal),
        }
    }

    // Accepts a frame at a reading of the own clock, and answers the broadcast that is then owed, if one is.
    pub fn receive<S: Scheme>(
        &mut self,
        scheme: &S,
        reading: u64,
        bytes: &[u8],
    ) -> Result<Option<Owed>, Refusal>
        ensures { (result, controller_of self.new) ≡ passed (λ s p. received K.Kind.admitted K.Kind.same s (S.Scheme.meaning scheme.now).triples reading bytes.now p) (controller_of self.old) }
    {
        match &mut self.seat {
            Ok(seat) => seat
                .part
                .receive(&seat.plan, scheme, &self.kind, reading, bytes),
            Err(refusal) => Err(*refusal),
        }
    }

    // The decision on an item, which stands once it is given.
    pub fn decide(&mut self, reading: u64, item: u32) -> Result<Decision, Refusal>
        ensures { (result, controller_of self.new) ≡ passed (λ s p. decided s reading item p) (controller_of self.old) }
    {
        match &mut self.seat {
            Ok(seat) => seat.part.decide(&seat.plan, reading, item),
            Err(refusal) => Err(*refusal),
        }
    }

    // The recorded decision of an item, if there is one.
    pub fn decision(&self, item: u32) -> Result<Option<Decision>, Refusal>
        ensures { result ≡ recorded item (controller_of self.now) }
    {
        match &self.seat {
            Ok(seat) => Ok(seat.part.decision(item)),
            Err(refusal) => Err(*refusal),
        }
    }
}
