//! `lister show FILE`
use crate::check::tell_size;
use crate::command_error::CommandError;
use chain::Chain;
use inputs::accepted_file;
use packed_chain::PackedChain;
use std::fmt;
use std::rt::Files;

/// The letters of a set of propositions, or `-` where it has none.
#[derive(Clone, Copy)]
struct Letters(u16);

impl fmt::Display for Letters {
    fn fmt<W: fmt::Write>(&self, f: &mut fmt::Formatter<W>) -> fmt::Result {
        if self.0 == 0 {
            return f.write_str("-");
        }
        for letter in (b'a'..=b'p').filter(|&letter| self.0 >> (letter - b'a') & 1 == 1) {
            f.write_char(letter as char)?;
        }
        Ok(())
    }
}

/// A state's edges, each as its target and its weight.
#[derive(Clone, Copy)]
struct Edges<'a> {
    chain: &'a PackedChain<'a>,
    state: usize,
}

impl fmt::Display for Edges<'_> {
    fn fmt<W: fmt::Write>(&self, f: &mut fmt::Formatter<W>) -> fmt::Result {
        let edges = (0..).map_while(|place| self.chain.edge(self.state, place));
        for (place, (target, weight)) in edges.enumerate() {
            if place > 0 {
                f.write_str(", ")?;
            }
            write!(f, "{target} {weight}")?;
        }
        Ok(())
    }
}

pub(crate) fn show_file<'a>(
    rt: &(impl Print + Files + AllocGlobal),
    path: &'a str,
) -> Result<(), CommandError<'a>> {
    let bytes = accepted_file(rt, path)?;
    let chain = PackedChain::new(&bytes);
    tell_size(rt, &chain)?;
    println!(rt;
        "Each line is a state: its number, its letters (- if none), and its edges, each as target and weight."
    )?;
    for state in 0..chain.states() {
        let letters = Letters(chain.propositions(state).unwrap());
        let edges = Edges {
            chain: &chain,
            state,
        };
        println!(rt; "{state} {letters}: {edges}")?;
    }
    Ok(())
}
