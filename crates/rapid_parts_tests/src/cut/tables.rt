// Tables of explicit edges.

use crate::numbered::process;
use rapid_config::{ConfigError, Params};
use rapid_rings::{Table, TableError};
use std::alloc::{AllocError, Global};

/// A ring, an observer and a subject.
pub type Edge = (u8, u16, u16);

/// Adds an edge to a table.
fn add(table: &mut Table, ring: u8, observer: u16, subject: u16) -> Result<(), TableError> {
    table.add(ring, process(observer), process(subject))
}

/// Makes a process a joiner.
fn add_joiner(table: &mut Table, number: u16) -> Result<(), AllocError> {
    table.joiner(process(number))
}

/// Adds edges to a table.
fn add_all(table: &mut Table, edges: &[Edge]) -> Result<(), TableError> {
    for (ring, observer, subject) in edges {
        add(table, *ring, *observer, *subject)?;
    }
    Ok(())
}

/// Adds this many joiners, from 2 on, each observed by process 1 on rings 0 and 1.
fn add_joiners(table: &mut Table, joiners: u16) -> Result<(), TableError> {
    for joiner in 0..joiners {
        let number = joiner.saturating_add(2);
        add_joiner(table, number)?;
        add_all(table, &[(0, 1, number), (1, 1, number)])?;
    }
    Ok(())
}

/// Adds a member that process 1 observes on sixteen rings.
fn add_member(table: &mut Table, number: u16) -> Result<(), TableError> {
    for ring in 0..16 {
        add(table, ring, 1, number)?;
    }
    Ok(())
}

/// Adds this many members, from 2 on, each observed by process 1 on sixteen rings.
fn add_members(table: &mut Table, members: u16) -> Result<(), TableError> {
    for member in 0..members {
        add_member(table, member.saturating_add(2))?;
    }
    Ok(())
}

/// The parameters K, H and L, and what a table has.
#[derive(Clone, Copy)]
pub enum Start<'a> {
    /// These edges.
    Edges(u8, u8, u8, &'a [Edge]),
    /// This many joiners, from 2 on, each observed by process 1 on rings 0 and 1, with K = H = 2
    /// and L = 1. The member 1000 is observed on ring 0.
    Joiners(u16),
    /// This many members, from 2 on, each observed by process 1 on sixteen rings, with H = 9 and L
    /// = 3.
    Members(u16),
}

/// The parameters of a table.
fn params_of(start: &Start) -> Result<Params, ConfigError> {
    match start {
        Start::Edges(k, h, l, _) => Params::new(*k, *h, *l),
        Start::Joiners(_) => Params::new(2, 2, 1),
        Start::Members(_) => Params::new(16, 9, 3),
    }
}

/// Fills a table.
fn fill(table: &mut Table, start: &Start) -> Result<(), TableError> {
    match start {
        Start::Edges(_, _, _, edges) => add_all(table, edges),
        Start::Joiners(joiners) => {
            add(table, 0, 1, 1000)?;
            add_joiners(table, *joiners)
        }
        Start::Members(members) => add_members(table, *members),
    }
}

/// The table that has this. `RingRange` if its parameters are in no order.
pub fn table(alloc: Global, start: &Start) -> Result<Table, TableError> {
    let Ok(params) = params_of(start) else {
        return Err(TableError::RingRange);
    };
    let mut table = Table::new(alloc, params);
    fill(&mut table, start)?;
    Ok(table)
}
