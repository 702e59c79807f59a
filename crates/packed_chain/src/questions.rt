//! Taking up a file, and the questions, answered from its bytes.
ghost use Rattle.std.specs.Prelude.{◌≡◌};
ghost use Rattle.packed_file.specs.Format.{decoded};
ghost use Rattle.packed_file.specs.Judgement.{Faultless};
ghost use Rattle.packed_file.proofs.Judged.{faultless_lawful};
ghost use Rattle.packed_chain.specs.Meaning.{meaning_of};
ghost use Rattle.packed_file.specs.TakenUp.{taken_up};

use crate::packed_chain::PackedChain;
use crate::rows::find_rows;
use arrayvec::ArrayVec;
use bits::fields::get;
use bits::mirror::mirror;
use chain::Chain;
use packed_file::faultless_body;

// What follows the mark in the file of the built-in chain.
static BUILT_IN: [u8; 12] = [0, 0, 0, 0x40, 0, 0, 0, 2, 0, 0, 0, 0x80];

/// What follows the mark in the file, or in that of the built-in chain where the file has a fault.
// That a body has no fault is carried by `PackedChain`; a type for the body alone would be made and taken apart in `new`.
fn body_or_built_in(bytes: &[u8]) -> &[u8]
    ensures faultless { Faultless result.now }
    ensures meaning { decoded result.now ≡ taken_up bytes.now }
{
    faultless_body(bytes).unwrap_or(&BUILT_IN)
}

impl<'a> PackedChain<'a> {
    /// Takes up a file: its chain, or the built-in chain where the file has a fault.
    pub fn new(bytes: &'a [u8]) -> PackedChain<'a>
        ensures { meaning_of result ≡ taken_up bytes.now }
    {
        let body = body_or_built_in(bytes);
        let denominator = get(body, 10, 16);
        let start = get(body, 10 + 16, 10) as usize;
        let mut rows = ArrayVec::new();
        let edges = find_rows(body, &mut rows);
        PackedChain {
            body,
            rows,
            edges,
            denominator,
            start,
        }
    }
}

impl<'a> Chain for PackedChain<'a> {
    ghost meaning = { meaning_of };

    ghost lawful = { λ t. faultless_lawful t.body.now t.faultless };

    fn states(&self) -> usize {
        self.rows.len()
    }

    fn edges(&self) -> usize {
        self.edges
    }

    fn start(&self) -> usize {
        self.start
    }

    fn denominator(&self) -> u32 {
        self.denominator
    }

    fn propositions(&self, state: usize) -> Option<u16> {
        let row = self.row(state)?;
        Some(mirror(get(self.body, row, 16) as u16))
    }

    fn edge_count(&self, state: usize) -> Option<usize> {
        let row = self.row(state)?;
        Some(get(self.body, row + 16, 11) as usize)
    }

    fn edge(&self, state: usize, place: usize) -> Option<(usize, u32)> {
        let row = self.row(state)?;
        if place >= get(self.body, row + 16, 11) as usize {
            return None;
        }
        let at = row + 16 + 11 + 26 * place;
        Some((get(self.body, at, 10) as usize, get(self.body, at + 10, 16)))
    }
}
