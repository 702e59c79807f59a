//! `lister copy FROM TO`
use crate::command_error::CommandError;
use inputs::accepted_file;
use packed_chain::PackedChain;
use packed_file::DECIDING_BYTES;
use packed_writer::write;
use std::alloc::Global;
use std::rt::Files;
use std::{fs, io};

/// The file of the chain that `bytes` hold.
fn written_file(alloc: Global, bytes: &[u8]) -> Result<Vec<u8>, CommandError<'static>> {
    let mut buffer = vec![in alloc; 0u8; DECIDING_BYTES].map_err(io::Error::from)?;
    let length = write(&PackedChain::new(bytes), &mut buffer)?;
    buffer.truncate(length);
    Ok(buffer)
}

pub(crate) fn copy_file<'a>(
    rt: &(impl Print + Files + AllocGlobal),
    from: &'a str,
    to: &'a str,
) -> Result<(), CommandError<'a>> {
    let bytes = accepted_file(rt, from)?;
    let written = written_file(rt.alloc(), &bytes)?;
    fs::write(rt, to, &written).map_err(|cause| CommandError::Unwritten { path: to, cause })?;
    let count = written.len();
    println!(rt; "WROTE bytes {count}")?;
    if written == bytes {
        println!(rt; "It is the same file to the byte, as the one file of its chain.")?;
    } else {
        println!(rt; "It is not the same file to the byte.")?;
    }
    Ok(())
}
