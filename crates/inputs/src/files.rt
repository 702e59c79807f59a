//! Reading chain files.
ghost use Rattle.std.specs.Prelude.{◌≡◌, true, is_ok, IfOk};
ghost use Rattle.packed_file.specs.Faults.{judged};

use crate::file_error::{FileError, RefusedFile};
use packed_file::{DECIDING_BYTES, check};
use std::io::Read;
use std::rt::Files;
use std::{fs, io};

/// The bytes of a file; of a long one as many from its front as decide the check, so that no file is too long.
fn read_front(rt: &(impl Files + AllocGlobal), path: &str) -> io::Result<Vec<u8>> {
    let file = fs::open(rt, path)?;
    let mut bytes = Vec::new(rt.alloc());
    file.take(DECIDING_BYTES as u64).read_to_end(&mut bytes)?;
    Ok(bytes)
}

/// The bytes of a file that the check accepts; of any other, why it is not accepted.
pub fn accepted_file<'a>(
    rt: &(impl Files + AllocGlobal),
    path: &'a str,
) -> Result<Vec<u8>, FileError<'a>>
    ensures { IfOk result (λ bytes. is_ok (judged bytes.items) ≡ true) }
{
    let bytes = read_front(rt, path).map_err(|cause| FileError::Unread { path, cause })?;
    check(&bytes).map_err(RefusedFile)?;
    Ok(bytes)
}
