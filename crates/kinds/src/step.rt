// A recipe step: a recipe code of two bytes, a quantity of four and an operator of two.
ghost use Rattle.std.specs.Prelude.{◌≡◌};
ghost use Rattle.kinds.specs.Codes.{is_step, same_step};
ghost use Rattle.std.proofs.Common.{rules};

use crate::kind::Kind;

#[derive(Clone, Copy, Debug, PartialEq, Eq)]
pub struct Step;

impl Kind for Step {
    ghost admitted = { is_step };

    ghost same = { same_step };

    ghost reflexive = { Prim.search rules };

    ghost symmetric = { Prim.search rules };

    ghost transitive = { Prim.search rules };

    ghost strict = { Prim.search rules };

    fn admits(&self, code: u64) -> bool {
        let recipe = code >> 48;
        let quantity = (code >> 16) % 0x1_0000_0000;
        match (recipe, quantity) {
            (1..=9_999, q) if q <= 1_000_000 => true,
            _ => false,
        }
    }

    // The operator is left out.
    fn are_same(&self, a: u64, b: u64) -> bool {
        self.admits(a) && self.admits(b) && a >> 16 == b >> 16
    }
}
