//! `lister check FILE`
use crate::command_error::CommandError;
use chain::Chain;
use inputs::accepted_file;
use packed_chain::PackedChain;
use std::io;
use std::rt::Files;

/// The line that says how large a chain is.
pub(crate) fn tell_size(rt: &impl Print, chain: &PackedChain) -> io::Result<()> {
    let states = chain.states();
    let edges = chain.edges();
    let denominator = chain.denominator();
    let start = chain.start();
    println!(rt; "CHAIN states {states} edges {edges} denominator {denominator} start {start}")
}

pub(crate) fn check_file<'a>(
    rt: &(impl Print + Files + AllocGlobal),
    path: &'a str,
) -> Result<(), CommandError<'a>> {
    let bytes = accepted_file(rt, path)?;
    let chain = PackedChain::new(&bytes);
    tell_size(rt, &chain)?;
    let denominator = chain.denominator();
    println!(rt;
        "The file holds a lawful chain; in each of its rows the weights add up to {denominator}."
    )?;
    Ok(())
}
