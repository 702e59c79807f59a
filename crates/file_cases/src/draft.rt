//! Files for the tests, written a bit at a time, with one field changed.
use std::alloc::{AllocError, Global};

/// The field that begins at that bit holds that value in place of its own.
#[derive(Clone, Copy)]
pub(crate) struct Change(pub(crate) usize, pub(crate) usize);

#[derive(Drop)]
struct Draft {
    bytes: Vec<u8>,
    byte: u8,
    at: usize,
    change: Option<Change>,
}

impl Draft {
    fn new(heap: Global, change: Option<Change>) -> Draft {
        Draft {
            bytes: Vec::new(heap),
            byte: 0,
            at: 0,
            change,
        }
    }

    fn bit(&mut self, bit: bool) -> Result<(), AllocError> {
        self.byte = (self.byte & 127) * 2 + u8::from(bit);
        self.at = self.at.wrapping_add(1);
        if self.at % 8 == 0 {
            self.bytes.push(self.byte)?;
        }
        Ok(())
    }

    fn field(&mut self, width: u32, value: usize) -> Result<(), AllocError> {
        let value = match self.change {
            Some(Change(place, changed)) if place == self.at => changed,
            _ => value,
        };
        for shift in (0..width).rev() {
            let shifted = value.checked_shr(shift).unwrap_or(0);
            self.bit(shifted % 2 == 1)?;
        }
        Ok(())
    }

    fn header(
        &mut self,
        states: usize,
        denominator: usize,
        start: usize,
    ) -> Result<(), AllocError> {
        self.field(16, 0xFEFF)?;
        self.field(10, states.wrapping_sub(1))?;
        self.field(16, denominator)?;
        self.field(10, start)
    }

    fn row(&mut self, propositions: usize, edges: &[(usize, usize)]) -> Result<(), AllocError> {
        self.field(16, propositions)?;
        self.field(11, edges.len())?;
        for (target, weight) in edges {
            self.field(10, *target)?;
            self.field(16, *weight)?;
        }
        Ok(())
    }

    /// Zero bits up to the next byte.
    fn filled(mut self) -> Result<Vec<u8>, AllocError> {
        for _ in 0..(8 - self.at % 8) % 8 {
            self.bit(false)?;
        }
        Ok(self.bytes)
    }
}

/// One state with the proposition b and an edge to itself, out of 1.
pub(crate) fn one_state(heap: Global, change: Option<Change>) -> Result<Vec<u8>, AllocError> {
    let mut file = Draft::new(heap, change);
    file.header(1, 1, 0)?;
    file.row(0x4000, &[(0, 1)])?;
    file.filled()
}

/// Four states, nine edges, out of 10.
pub(crate) fn four_states(heap: Global, change: Option<Change>) -> Result<Vec<u8>, AllocError> {
    let mut file = Draft::new(heap, change);
    file.header(4, 10, 0)?;
    file.row(0x8000, &[(1, 6), (2, 1), (3, 3)])?;
    file.row(0x8000, &[(0, 2), (1, 3), (2, 4), (3, 1)])?;
    file.row(0x4000, &[(2, 10)])?;
    file.row(0, &[(3, 10)])?;
    file.filled()
}

/// 1,024 states with four edges each: as many states and edges as a chain can have.
pub(crate) fn largest(heap: Global, change: Option<Change>) -> Result<Vec<u8>, AllocError> {
    let mut file = Draft::new(heap, change);
    file.header(1024, 65_535, 1023)?;
    for _ in 0..1024 {
        file.row(1, &[(0, 1), (1, 1), (2, 1), (3, 65_532)])?;
    }
    file.filled()
}

/// The first four of 1,024 states, with an edge to every state each.
pub(crate) fn widest_rows(heap: Global, change: Option<Change>) -> Result<Vec<u8>, AllocError> {
    let mut file = Draft::new(heap, change);
    file.header(1024, 65_535, 0)?;
    for _ in 0..4 {
        file.field(16, 0)?;
        file.field(11, 1024)?;
        for target in 0..1023 {
            file.field(10, target)?;
            file.field(16, 1)?;
        }
        file.field(10, 1023)?;
        file.field(16, 65_535 - 1023)?;
    }
    file.filled()
}
