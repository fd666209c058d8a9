// A set value: four zero bytes, then a two's complement number of four bytes from -1,000,000 to 1,000,000.
ghost use Rattle.std.specs.Prelude.{◌≡◌};
ghost use Rattle.kinds.specs.Codes.{is_setpoint, same_setpoint};
ghost use Rattle.std.proofs.Common.{rules};

use crate::kind::Kind;

#[derive(Clone, Copy, Debug, PartialEq, Eq)]
pub struct Setpoint;

impl Kind for Setpoint {
    ghost admitted = { is_setpoint };

    ghost same = { same_setpoint };

    ghost reflexive = { Prim.search rules };

    ghost symmetric = { Prim.search rules };

    ghost transitive = { Prim.search rules };

    ghost strict = { Prim.search rules };

    fn admits(&self, code: u64) -> bool {
        let high = code >> 32;
        let low = code % 0x1_0000_0000;
        match (high, low) {
            (0, 0..=1_000_000) => true,
            (0, 0xFFF0_BDC0..=0xFFFF_FFFF) => true,
            _ => false,
        }
    }

    fn are_same(&self, a: u64, b: u64) -> bool {
        self.admits(a) && a == b
    }
}
