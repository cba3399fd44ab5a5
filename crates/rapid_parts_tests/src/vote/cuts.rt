// Cuts of one process, by its number.

use crate::numbered::{are_numbered, process};
use rapid_config::{ConfigError, Cut};
use std::alloc::Global;

/// The cut of the process with this number.
pub fn cut(alloc: Global, number: u8) -> Result<Cut, ConfigError> {
    Cut::new(Vec::from_array(alloc, [process(u16::from(number))])?)
}

/// Whether it is the cut of the process with this number, or none, as expected.
pub fn is_cut(found: Option<&Cut>, number: Option<u8>) -> bool {
    match (found, number) {
        (Some(found), Some(number)) => are_numbered(found.processes(), &[u16::from(number)]),
        (None, None) => true,
        (Some(_), None) | (None, Some(_)) => false,
    }
}
