//! Who observes whom.
//!
//! A membership service (Rapid, USENIX ATC 2018) has each process watched by one observer on each
//! of K rings. Whoever takes alerts asks an [`ObserverTable`]: the [`Rings`] of a configuration, or
//! a [`Table`] of explicit edges.
#![tactic(auto)]

mod known_keys;
mod maybe_place;
mod observer_table;
mod places;
mod ring;
mod rings;
mod row;
mod rows;
mod seats;
mod table;
mod table_error;

pub use observer_table::ObserverTable;
pub use rings::Rings;
pub use table::Table;
pub use table_error::TableError;
