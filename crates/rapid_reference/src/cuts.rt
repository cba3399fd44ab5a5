// The two cuts that are voted for.
use anyhow::Result;
use rapid_config::Cut;
use rapid_endpoint::{Endpoint, Process, ProcessId};
use std::alloc::Global;

/// A process, by its number. A cut of one process too, by the number of the process: 6 or 7.
pub type Number = u16;

/// The numbers of both cuts, which ascend as their cuts do.
pub const NUMBERS: [Number; 2] = [6, 7];

/// The cuts of both numbers.
#[derive(Drop)]
pub struct Cuts {
    six: Cut,
    seven: Cut,
}

/// The process with this number: the identifier n, and the endpoint 127.0.0.1:n.
pub fn process(n: Number) -> Process {
    let id = ProcessId::new(u128::from(n).to_be_bytes());
    Process::new(id, Endpoint::new([127, 0, 0, 1], n))
}

/// The cut of the process with this number.
fn cut(alloc: Global, n: Number) -> Result<Cut> {
    let mut processes = Vec::new(alloc);
    processes.push(process(n))?;
    Ok(Cut::new(processes)?)
}

impl Cuts {
    pub fn new(alloc: Global) -> Result<Cuts> {
        Ok(Cuts {
            six: cut(alloc, 6)?,
            seven: cut(alloc, 7)?,
        })
    }

    /// The cut of the number 6 or 7.
    pub fn of(&self, number: Number) -> &Cut {
        if number == 6 { &self.six } else { &self.seven }
    }
}

/// The number of a cut's first process, if there is a cut.
pub fn number_in(cut: &Option<Cut>) -> Option<Number> {
    match cut {
        Some(cut) => Some(number_of(cut)),
        None => None,
    }
}

/// The number of a cut's first process.
pub fn number_of(cut: &Cut) -> Number {
    match cut.processes().iter().next() {
        None => 0,
        Some(first) => first.endpoint().port(),
    }
}
