//! What the program's commands are given: files and properties that are accepted, and of any other what is wrong.
#![tactic(auto)]

mod file_error;
mod files;
mod properties;
mod refused_property;

pub use crate::file_error::{FileError, RefusedFile};
pub use crate::files::accepted_file;
pub use crate::properties::accepted_property;
pub use crate::refused_property::RefusedProperty;
