// Tables of explicit edges.

use crate::numbered::{Marks, process};
use rapid_config::Params;
use rapid_rings::{Table, TableError};
use std::alloc::{AllocError, Global};
use std::test::Fail;

/// A ring, an observer and a subject.
pub type Edge = (u8, u16, u16);

/// Adds an edge to a table.
fn add(table: &mut Table, ring: u8, observer: u16, subject: u16) -> Result<(), TableError> {
    table.add(ring, process(observer), process(subject))
}

/// Adds edges to a table.
fn add_all(table: &mut Table, edges: &[Edge]) -> Result<(), TableError> {
    for (ring, observer, subject) in edges {
        add(table, *ring, *observer, *subject)?;
    }
    Ok(())
}

/// Makes processes joiners.
fn add_joiners(table: &mut Table, joiners: &[u16]) -> Result<(), AllocError> {
    for number in joiners {
        table.joiner(process(*number))?;
    }
    Ok(())
}

/// The table with these joiners and these edges.
pub fn table(
    alloc: Global,
    (k, h, l): Marks,
    joiners: &[u16],
    edges: &[Edge],
) -> Result<Table, Fail> {
    let mut table = Table::new(alloc, Params::new(k, h, l)?);
    add_joiners(&mut table, joiners)?;
    add_all(&mut table, edges)?;
    Ok(table)
}
