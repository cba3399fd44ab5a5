// Steps of a node, in time and memory.
use crate::cluster::{
    alert_on_itself, alerts_on_many, alerts_on_one, founder, report_many, ticks, votes,
};
use crate::members::{MEMBERS, configuration};
use crate::meter::Meter;
use anyhow::Result;
use rapid_config::Configuration;
use rapid_node::{Event, Node};
use std::alloc::Global;
use std::fs::Files;
use std::slice;
use std::time::{Clock, Instant};

/// The numbers of members for which steps are measured.
const SIZES: [u16; 3] = [5, 100, MEMBERS];

/// About how many steps a run has.
const STEPS: usize = 1000;

/// About how many long steps a run has.
const LONG_STEPS: usize = 20;

/// A node takes the events.
fn take_all(node: &mut Node, events: &[Event]) -> Result<()> {
    for event in events {
        let _ = node.step(event)?;
    }
    Ok(())
}

/// Each of the nodes takes the events.
fn each_takes(nodes: &mut [Node], events: &[Event]) -> Result<()> {
    for node in nodes {
        take_all(node, events)?;
    }
    Ok(())
}

/// This many copies of a node.
fn copies(alloc: Global, node: &Node, count: usize) -> Result<Vec<Node>> {
    let mut nodes = Vec::with_capacity(alloc, count)?;
    for _ in 0..count {
        nodes.push(node.try_copy()?)?;
    }
    Ok(nodes)
}

/// What steps are measured with: nodes among this many members.
#[derive(Drop)]
struct Bench<'a, R> {
    rt: &'a R,
    alloc: Global,
    meter: Meter,
    members: u16,
}

impl<R: Print + Clock + Files + Alloc> Bench<'_, R> {
    /// How much more there is than before.
    fn more_than(&self, before: u64) -> Result<u64> {
        Ok(self.meter.read(self.rt)?.saturating_sub(before))
    }

    /// How much it takes that each of the nodes takes the events.
    fn taken(&self, nodes: &mut [Node], events: &[Event]) -> Result<u64> {
        let before = self.meter.read(self.rt)?;
        each_takes(nodes, events)?;
        self.more_than(before)
    }

    /// How much a run takes, in which this many copies of a node take the events.
    fn run(&self, node: &Node, events: &[Event], count: usize) -> Result<u64> {
        let mut nodes = copies(self.alloc, node, count)?;
        self.taken(&mut nodes, events)
    }

    /// How much a run takes, in which this many copies of a node are made and take the events.
    fn run_copied(&self, node: &Node, events: &[Event], count: usize) -> Result<u64> {
        let before = self.meter.read(self.rt)?;
        let mut nodes = copies(self.alloc, node, count)?;
        each_takes(&mut nodes, events)?;
        self.more_than(before)
    }

    /// How much a run takes, in which this many copies of a node take the events. Before that each
    /// takes another event, so that it shares nothing that both change.
    fn run_own(&self, node: &Node, before: &Event, events: &[Event], count: usize) -> Result<u64> {
        let mut nodes = copies(self.alloc, node, count)?;
        each_takes(&mut nodes, slice::from_ref(before))?;
        self.taken(&mut nodes, events)
    }

    /// How much the copies of a run take.
    fn copied(&self, node: &Node) -> Result<u64> {
        let before = self.meter.read(self.rt)?;
        let _nodes = copies(self.alloc, node, STEPS)?;
        self.more_than(before)
    }

    /// Prints a figure.
    fn print(&self, name: &str, figure: u64) -> Result<()> {
        println!(self.rt; "{name}_{}{} {figure}", self.members, self.meter.ending())?;
        Ok(())
    }

    /// Prints how much a step takes in the best run. Copies of a node take these events from the
    /// same start, in about this many steps a run.
    fn print_steps(&self, name: &str, node: &Node, events: &[Event], steps: usize) -> Result<()> {
        let count = (steps / events.len().max(1)).max(2);
        let mut least = u64::MAX;
        for _ in 0..self.meter.runs() {
            least = least.min(self.run(node, events, count)?);
        }
        let steps = count.saturating_mul(events.len()).max(1) as u64;
        self.print(name, least / steps)
    }

    /// Prints how much a copy of a node takes.
    fn print_copy(&self, node: &Node) -> Result<()> {
        let mut least = u64::MAX;
        for _ in 0..self.meter.runs() {
            least = least.min(self.copied(node)?);
        }
        self.print("copy", least / STEPS as u64)
    }

    /// Prints how much a step at a vote takes.
    fn print_votes(&self, configuration: &Configuration, node: &Node) -> Result<()> {
        let events = votes(self.alloc, configuration.id(), self.members)?;
        self.print_steps("vote_step", node, &events, STEPS)
    }

    /// Prints how much a step at a batch takes, in about this many steps a run.
    fn print_batch(
        &self,
        name: &str,
        configuration: &Configuration,
        node: &Node,
        steps: usize,
    ) -> Result<()> {
        let event = alerts_on_one(self.alloc, configuration)?;
        self.print_steps(name, node, slice::from_ref(&event), steps)
    }

    /// Prints how much a copy of a node and the step at a batch on it take, about this many a run.
    fn print_copied_batch(
        &self,
        name: &str,
        configuration: &Configuration,
        node: &Node,
        steps: usize,
    ) -> Result<()> {
        let event = alerts_on_one(self.alloc, configuration)?;
        let mut least = u64::MAX;
        for _ in 0..self.meter.runs() {
            least = least.min(self.run_copied(node, slice::from_ref(&event), steps)?);
        }
        self.print(name, least / steps.max(1) as u64)
    }

    /// Prints how much a step at a batch takes at a node that shares its reports with no other, in
    /// this many steps a run.
    fn print_own_batch(
        &self,
        name: &str,
        configuration: &Configuration,
        node: &Node,
        steps: usize,
    ) -> Result<()> {
        let before = alert_on_itself(self.alloc, configuration.id())?;
        let event = alerts_on_one(self.alloc, configuration)?;
        let mut least = u64::MAX;
        for _ in 0..self.meter.runs() {
            least = least.min(self.run_own(node, &before, slice::from_ref(&event), steps)?);
        }
        self.print(name, least / steps.max(1) as u64)
    }

    /// Prints how much a step at a batch of 2,048 alerts takes.
    fn print_great_batch(&self, configuration: &Configuration, node: &Node) -> Result<()> {
        let event = alerts_on_many(self.alloc, configuration.id())?;
        self.print_steps(
            "great_batch_step",
            node,
            slice::from_ref(&event),
            LONG_STEPS,
        )
    }

    /// Prints how much a step at a tick takes.
    fn print_ticks(&self, node: &Node) -> Result<()> {
        self.print_steps("tick_step", node, &ticks(self.alloc)?, STEPS)
    }

    /// Prints the figures of a node that has taken nothing.
    fn print_short(&self, configuration: &Configuration, node: &Node) -> Result<()> {
        self.print_votes(configuration, node)?;
        self.print_batch("batch_step", configuration, node, STEPS)?;
        self.print_copied_batch("copied_batch_step", configuration, node, STEPS)?;
        self.print_own_batch("own_batch_step", configuration, node, STEPS)?;
        self.print_ticks(node)?;
        self.print_copy(node)
    }

    /// Prints the figures of long batches, the second of them after many reports.
    fn print_long(&self, configuration: &Configuration, node: &mut Node) -> Result<()> {
        self.print_great_batch(configuration, node)?;
        report_many(self.alloc, configuration, node)?;
        self.print_batch("late_batch_step", configuration, node, LONG_STEPS)?;
        self.print_copied_batch("copied_late_batch_step", configuration, node, LONG_STEPS)?;
        self.print_own_batch("own_late_batch_step", configuration, node, LONG_STEPS)
    }

    /// Prints the figures of the founder's node.
    fn print_founder(&self, configuration: &Configuration, is_long: bool) -> Result<()> {
        let mut node = founder(self.alloc, configuration)?;
        if is_long {
            self.print_long(configuration, &mut *node)
        } else {
            self.print_short(configuration, &*node)
        }
    }

    /// Prints the figures of the founding configuration.
    fn print_all(&self, is_long: bool) -> Result<()> {
        self.print_founder(&configuration(self.alloc, self.members)?, is_long)
    }
}

/// Prints the figures of steps and copies, and those of long batches.
fn print_with<R: Print + Clock + Files + Alloc>(rt: &R, alloc: Global, meter: Meter) -> Result<()> {
    for members in SIZES {
        Bench {
            rt,
            alloc,
            meter,
            members,
        }
        .print_all(false)?;
    }
    Bench {
        rt,
        alloc,
        meter,
        members: MEMBERS,
    }
    .print_all(true)
}

/// Prints the figures of time: `vote_step_5`, `batch_step_5`, `copied_batch_step_5`,
/// `own_batch_step_5`, `tick_step_5`, `copy_5` and so on, `great_batch_step_1024`,
/// `late_batch_step_1024`, `copied_late_batch_step_1024` and `own_late_batch_step_1024`.
pub fn print<R: Print + Clock + Files + Alloc>(rt: &R, alloc: Global) -> Result<()> {
    print_with(rt, alloc, Meter::Time(Instant::now(rt)?))
}

/// Prints the figures of memory: `vote_step_5_bytes`, `copy_5_bytes` and so on. They are all that a
/// step allocates if the allocator gives nothing back.
pub fn print_bytes<R: Print + Clock + Files + Alloc>(rt: &R, alloc: Global) -> Result<()> {
    print_with(rt, alloc, Meter::Memory)
}
