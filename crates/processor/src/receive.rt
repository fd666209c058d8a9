// Receiving a frame.
ghost use Rattle.std.specs.Prelude.{◌≡◌, ◌≤◌, OnOk};
ghost use Rattle.frames.specs.Views.{fields_of};
ghost use Rattle.plans.specs.Setups.{setup_of};
ghost use Rattle.processor.specs.Receiving.{headed, owes, arrived, received};

use crate::agenda::appointment;
use crate::chains::chain_stands;
use crate::owed::Owed;
use crate::part::Part;
use crate::windows::in_time;
use frames::Frame;
use kinds::Kind;
use plans::{Appointment, Plan};
use refusals::Refusal;
use seals::Scheme;

// Rows 31 to 34: the item, the value, the number of links, and the first link.
fn head_stands<K: Kind>(plan: &Plan, kind: &K, frame: &Frame<'_>) -> Result<Appointment, Refusal>
    ensures is { result ≡ headed K.Kind.admitted (setup_of plan.now) (fields_of frame.now) }
    ensures within { OnOk result ((1 ≤ (fields_of frame.now).item) × ((fields_of frame.now).item ≤ 8)) }
{
    let appointment = appointment(plan, u32::from(frame.item()), Refusal::Row)?;
    if !kind.admits(frame.value()) {
        return Err(Refusal::Code);
    }
    if frame.count() > plan.f + 1 {
        return Err(Refusal::Long);
    }
    match frame.link(1) {
        Some(link) if u32::from(link.processor) == appointment.sender => Ok(appointment),
        _ => Err(Refusal::First),
    }
}

// What is owed after the frame: nothing where it has more than f links.
fn owed(plan: &Plan, frame: &Frame<'_>, own: u8) -> Option<Owed>
    ensures { result ≡ owes (setup_of plan.now) own (fields_of frame.now) }
{
    if frame.count() > plan.f {
        return None;
    }
    Some(Owed::next(frame, own))
}

impl Part {
    // Rows 31 to 42.
    #[tactic(auto, using(crate::proofs::Entering::same_bag))]
    fn accept<S: Scheme, K: Kind>(
        &mut self,
        plan: &Plan,
        scheme: &S,
        kind: &K,
        reading: u64,
        frame: &Frame<'_>,
    ) -> Result<Option<Owed>, Refusal>
        ensures { (result, self.new) ≡ arrived K.Kind.admitted K.Kind.same (setup_of plan.now) (S.Scheme.meaning scheme.now).triples reading (fields_of frame.now) self.old }
    {
        let appointment = head_stands(plan, kind, frame)?;
        chain_stands(plan, scheme, self.own, frame)?;
        in_time(plan, appointment.reading, frame.count(), reading)?;
        self.bags[frame.item() as usize - 1].join(kind, frame.value())?;
        Ok(owed(plan, frame, self.own))
    }

    // Accepts a frame at a reading of the own clock, and answers the broadcast that is then owed, if one is.
    pub fn receive<S: Scheme, K: Kind>(
        &mut self,
        plan: &Plan,
        scheme: &S,
        kind: &K,
        reading: u64,
        bytes: &[u8],
    ) -> Result<Option<Owed>, Refusal>
        ensures { (result, self.new) ≡ received K.Kind.admitted K.Kind.same (setup_of plan.now) (S.Scheme.meaning scheme.now).triples reading bytes.now self.old }
    {
        let frame = frames::read(bytes)?;
        self.accept(plan, scheme, kind, reading, &frame)
    }
}
