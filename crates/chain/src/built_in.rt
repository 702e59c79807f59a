//! The chain that stands in where data are no chain.
ghost use Rattle.std.specs.Prelude.{ℕ, refl};
ghost use Rattle.std.proofs.Common.{lit<, lit≤};
ghost use Rattle.chain.specs.Markov.{built_in};

use crate::interface::Chain;

/// One state without propositions, with an edge of weight 1 out of 1 to itself.
#[derive(Clone, Copy)]
pub struct BuiltIn;

impl Chain for BuiltIn {
    ghost meaning = { λ _. built_in };

    ghost lawful = { λ _. record {
      some = lit≤ tt;
      few = lit≤ tt;
      starts = lit< tt;
      divides = lit≤ tt;
      divided = lit≤ tt;
      sparse = lit≤ tt;
      each = (record { lettered = lit< tt; rising = (lit≤ tt, lit< tt, lit≤ tt, tt); whole = refl }, tt);
    } };

    fn states(&self) -> usize {
        1
    }

    fn edges(&self) -> usize {
        1
    }

    fn start(&self) -> usize {
        0
    }

    fn denominator(&self) -> u32 {
        1
    }

    fn propositions(&self, state: usize) -> Option<u16> {
        if state == 0 { Some(0) } else { None }
    }

    fn edge_count(&self, state: usize) -> Option<usize> {
        if state == 0 { Some(1) } else { None }
    }

    fn edge(&self, state: usize, place: usize) -> Option<(usize, u32)> {
        if state == 0 && place == 0 {
            Some((0, 1))
        } else {
            None
        }
    }
}
