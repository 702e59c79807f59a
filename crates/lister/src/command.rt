//! The commands, by their words.
use crate::check::check_file;
use crate::command_error::CommandError;
use crate::copy::copy_file;
use crate::property_command::tell_property;
use crate::show::show_file;
use std::io;
use std::rt::Files;

pub(crate) const USAGE: &str = "\
lister: counterexamples for Markov chains with whole-number weights

  lister check FILE   Is FILE the packed file of a chain? If not, what is wrong with it, and where?
                      lister check examples/firing.chain
  lister show FILE    The chain of FILE for a person, a line for each state.
                      lister show examples/firing.chain
  lister copy FROM TO Takes up the chain of FROM, and writes its file to TO.
                      lister copy examples/firing.chain /tmp/copy.chain
  lister property TEXT
                      Is TEXT a property? If so, what it asks, in its plainest form; if not, what is wrong, and where.
                      lister property 'P<=3/1000[a U<=12 b]'
  lister help         This page.

The first line of an answer is for machines, the lines after it are for people.
The status is 0 where a command was carried out, and 1 where it was refused.";

fn help(rt: &impl Print) -> io::Result<()> {
    println!(rt; "{USAGE}")
}

/// Carries out the command that the words after the program's name give.
pub(crate) fn obey<'a>(
    rt: &(impl Print + Files + AllocGlobal),
    words: &'a [String],
) -> Result<(), CommandError<'a>> {
    // Each arm takes words of its own number, which a table of closures would have to count again.
    match words {
        [] => Ok(help(rt)?),
        [verb] if verb.as_str() == "help" => Ok(help(rt)?),
        [verb, path] if verb.as_str() == "check" => check_file(rt, path.as_str()),
        [verb, path] if verb.as_str() == "show" => show_file(rt, path.as_str()),
        [verb, text] if verb.as_str() == "property" => tell_property(rt, text.as_str()),
        [verb, from, to] if verb.as_str() == "copy" => copy_file(rt, from.as_str(), to.as_str()),
        _ => Err(CommandError::WrongUsage),
    }
}
