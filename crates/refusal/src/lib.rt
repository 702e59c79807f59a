//! Refusals: what is wrong, and where.
#![tactic(auto)]

ghost use Rattle.std.specs.Prelude.{◌≡◌, ℕ, [], ◌∷◌};
ghost use Rattle.refusal.specs.Demands.{demand as demanded, told};

/// What can be wrong with something.
pub trait Fault {
    // the number of each fault
    ghost numbered: { Self → ℕ };

    /// The number under which the documents list the fault.
    fn number(self) -> u32
        ensures { result ≡ numbered self };
}

/// A fault, and the place at which it was met.
#[derive(Clone, Copy, PartialEq, Eq, Debug)]
pub struct Refusal<F> {
    pub fault: F,
    pub place: usize,
}

/// What does not meet a demand is refused, for a fault at a place.
pub fn demand<F: Copy>(met: bool, fault: F, place: usize) -> Result<(), Refusal<F>>
    ensures { result ≡ told (demanded met fault place ∷ []) tt }
{
    if met {
        Ok(())
    } else {
        Err(Refusal { fault, place })
    }
}
