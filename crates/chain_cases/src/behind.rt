//! What a caller may rest on of a chain behind a `dyn`: that it is lawful, as every chain is.
ghost use Rattle.std.specs.Prelude.{◌≡◌, ◌≤◌};

use chain::Chain;

/// The denominator of a chain of any kind, which is never 0.
pub fn denominator_of(chain: &dyn Chain) -> u32
    ensures value { result ≡ (meaning chain.now).denominator }
    ensures some { 1 ≤ result }
{
    chain.denominator()
}

#[cfg(test)]
mod tests {
    use super::denominator_of;
    use crate::makes::four_states;
    use chain::BuiltIn;
    use packed_chain::PackedChain;
    use std::test::Fail;
    use table_chain::TableChain;

    #[test]
    fn denominators_behind_a_dyn(rt: HostRuntime) -> Result<(), Fail> {
        let made = four_states(rt.alloc())?;
        assert_eq!(rt; denominator_of(&TableChain::new(made.lent())), 10);
        assert_eq!(rt; denominator_of(&PackedChain::new(&[])), 1);
        assert_eq!(rt; denominator_of(&BuiltIn), 1);
        Ok(())
    }
}
