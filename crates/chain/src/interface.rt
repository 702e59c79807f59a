//! What a chain means, and what it can be asked.
ghost use Rattle.std.specs.Prelude.{◌≡◌};
ghost use Rattle.chain.specs.Markov.{Markov, Lawful};
ghost use Rattle.chain.specs.Questions.{state_total, edge_total, propositions_of, degree_of, edge_of};

/// A lawful Markov chain. A question changes nothing, and past the end its answer is absent.
pub trait Chain {
    // the Markov chain that a value stands for
    ghost meaning: { Self → Markov };

    // what every implementation proves of its meaning; above the functions, so that it is known behind a `dyn` too
    ghost lawful: { (c : Self) → Lawful (meaning c) };

    /// How many states there are; they are numbered from 0.
    fn states(&self) -> usize
        ensures { result ≡ state_total (meaning self.now) };

    /// How many edges there are in all.
    fn edges(&self) -> usize
        ensures { result ≡ edge_total (meaning self.now) };

    /// The state in which the chain starts.
    fn start(&self) -> usize
        ensures { result ≡ (meaning self.now).start };

    /// What a weight is divided by to give a probability.
    fn denominator(&self) -> u32
        ensures { result ≡ (meaning self.now).denominator };

    /// The propositions of a state: bit 0 stands for a, bit 15 for p.
    fn propositions(&self, state: usize) -> Option<u16>
        ensures { result ≡ propositions_of (meaning self.now) state };

    /// How many edges leave a state.
    fn edge_count(&self, state: usize) -> Option<usize>
        ensures { result ≡ degree_of (meaning self.now) state };

    /// The target and the weight of the edge at a place of a state's row.
    fn edge(&self, state: usize, place: usize) -> Option<(usize, u32)>
        ensures { result ≡ edge_of (meaning self.now) state place };
}
