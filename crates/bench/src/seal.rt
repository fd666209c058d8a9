// Sealing for a faulty processor.
ghost use Rattle.std.specs.Prelude.{◌≡◌};
ghost use Rattle.seals.specs.Meanings.{given};
ghost use Rattle.bench.specs.Model.{model_of};
ghost use Rattle.bench.specs.Seals.{seals};

use crate::place::Place;
use crate::state::Bench;
use kinds::Kind;
use refusals::Refusal;
use seals::Scheme;

impl<S: Scheme, K: Kind> Bench<S, K> {
    // Signs any text for a faulty processor. A refusal of the scheme is passed on as it is.
    pub fn seal(&mut self, p: u32, text: &[u8]) -> Result<u32, Refusal>
        ensures { (result, model_of S.Scheme.meaning self.new) ≡ seals (given result) p text.now (model_of S.Scheme.meaning self.old) }
    {
        let plan = self.inner.plan?;
        if !self.inner.seats.has_turned(Place::of(&plan, p)?) {
            return Err(Refusal::Sound);
        }
        self.scheme.sign(p as u8, text)
    }
}
