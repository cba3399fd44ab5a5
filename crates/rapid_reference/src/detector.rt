// The cut detector as a list of reports, which repeated passes close.
use crate::cuts::{Number, process};
use anyhow::{Result, bail};
use rapid_alerts::{Alert, Kind};
use rapid_config::{ConfigId, Cut, Params};
use rapid_cut::Detector;
use rapid_endpoint::Process;
use rapid_rings::Table;
use std::alloc::{AllocError, Global};

/// How many alerts a sequence has.
const LENGTH: usize = 4;

/// How many sequences there are: each alert is one of nine, and ends its batch or does not.
const SEQUENCES: usize = 104_976;

/// A report on a process, for a ring. The processes 1 to 3 are members, 4 is a joiner.
type Report = (Number, u8);

/// Who observes whom on each of two rings: ring, observer, subject.
const EDGES: [(u8, Number, Number); 8] = [
    (0, 2, 1),
    (0, 3, 2),
    (0, 1, 3),
    (0, 1, 4),
    (1, 3, 1),
    (1, 1, 2),
    (1, 2, 3),
    (1, 2, 4),
];

/// The numbers of these processes.
fn numbers(alloc: Global, processes: &[Process]) -> Result<Vec<Number>, AllocError> {
    let mut found = Vec::new(alloc);
    for process in processes {
        found.push(process.endpoint().port())?;
    }
    Ok(found)
}

/// Each report that was taken, and the marks H and L.
#[derive(Drop)]
struct ReportList {
    high: usize,
    low: usize,
    reports: Vec<Report>,
    closed: bool,
}

/// How many of the reports are on the process.
fn tally(reports: &[Report], subject: Number) -> usize {
    reports.iter().filter(|report| report.0 == subject).count()
}

impl ReportList {
    /// The reports with each that they imply: pass after pass until none can be left.
    fn closure(&self, alloc: Global) -> Result<Vec<Report>, AllocError> {
        let mut all = Vec::from_slice(alloc, self.reports.as_slice())?;
        for _ in 0..EDGES.len() {
            for edge in EDGES.iter() {
                let report = (edge.2, edge.0);
                let both = tally(all.as_slice(), edge.2) >= self.low
                    && tally(all.as_slice(), edge.1) >= self.low;
                if both && !all.contains(&report) {
                    all.push(report)?;
                }
            }
        }
        Ok(all)
    }

    /// The processes with at least the first of these numbers of reports, but fewer than the
    /// second.
    fn within(&self, alloc: Global, least: usize, below: usize) -> Result<Vec<Number>, AllocError> {
        let all = self.closure(alloc)?;
        let mut found = Vec::new(alloc);
        for number in 1..5 {
            let tally = tally(all.as_slice(), number);
            if least <= tally && tally < below {
                found.push(number)?;
            }
        }
        Ok(found)
    }

    /// Takes the reports of a batch; the cut, at the first batch that has one.
    fn batch(
        &mut self,
        alloc: Global,
        reports: &[Report],
    ) -> Result<Option<Vec<Number>>, AllocError> {
        if self.closed {
            return Ok(None);
        }
        for report in reports {
            if !self.reports.contains(report) {
                self.reports.push(*report)?;
            }
        }
        let stable = self.within(alloc, self.high, usize::MAX)?;
        let unstable = self.within(alloc, self.low, self.high)?;
        if stable.is_empty() || !unstable.is_empty() {
            return Ok(None);
        }
        self.closed = true;
        Ok(Some(stable))
    }
}

/// Adds the edges.
fn add_edges(table: &mut Table) -> Result<()> {
    for edge in EDGES.iter() {
        table.add(edge.0, process(edge.1), process(edge.2))?;
    }
    Ok(())
}

/// The table of the edges, with these marks.
fn table(alloc: Global, high: u8, low: u8) -> Result<Table> {
    let mut table = Table::new(alloc, Params::new(2, high, low)?);
    table.joiner(process(4))?;
    add_edges(&mut table)?;
    Ok(table)
}

/// The alert with this number: that of an edge, or one of a process that is no observer.
fn alert(number: usize) -> (Alert, Option<Report>) {
    let (ring, observer, subject) = match EDGES.get(number) {
        Some(edge) => *edge,
        None => (0, 4, 1),
    };
    let alert = Alert {
        observer: process(observer),
        subject: process(subject),
        ring,
        kind: if subject == 4 {
            Kind::Join
        } else {
            Kind::Remove
        },
        config: ConfigId::zero(),
    };
    let report = if observer == 4 {
        None
    } else {
        Some((subject, ring))
    };
    (alert, report)
}

/// Compares all answers after a batch.
fn compare_state(
    alloc: Global,
    detector: &Detector<Table>,
    list: &ReportList,
    skipped: usize,
) -> Result<()> {
    if detector.skipped() != skipped {
        bail!(
            "{} alerts are skipped and not {skipped}",
            detector.skipped()
        );
    }
    let unstable = numbers(alloc, detector.unstable()?.as_slice())?;
    if unstable != list.within(alloc, list.low, list.high)? {
        bail!("unstable are {unstable:?}");
    }
    let all = list.closure(alloc)?;
    for number in 1..5 {
        if detector.tally(&process(number)) != tally(all.as_slice(), number) {
            bail!("{number} has {} reports", detector.tally(&process(number)));
        }
    }
    Ok(())
}

/// Both take a batch; whether it had a cut.
fn batch(
    alloc: Global,
    detector: &mut Detector<Table>,
    list: &mut ReportList,
    alerts: &[Alert],
    reports: &[Report],
) -> Result<bool> {
    let was_closed = list.closed;
    let cut: Option<Cut> = detector.batch(alerts)?;
    let answer = match &cut {
        Some(cut) => Some(numbers(alloc, cut.processes().to_vec(alloc)?.as_slice())?),
        None => None,
    };
    let expected = list.batch(alloc, reports)?;
    if answer != expected {
        bail!("a batch is answered {answer:?} and not {expected:?}");
    }
    let skipped = if was_closed {
        0
    } else {
        alerts.len().saturating_sub(reports.len())
    };
    compare_state(alloc, detector, list, skipped)?;
    Ok(answer.is_some())
}

/// Adds the alert with this number, and the report that it makes.
fn put(
    alerts: &mut Vec<Alert>,
    reports: &mut Vec<Report>,
    number: usize,
) -> Result<(), AllocError> {
    let (alert, report) = alert(number);
    alerts.push(alert)?;
    if let Some(report) = report {
        reports.push(report)?;
    }
    Ok(())
}

/// Tries one sequence, and answers how many cuts there were in it.
fn try_one(alloc: Global, high: u8, low: u8, sequence: usize) -> Result<usize> {
    let mut detector = Detector::new(alloc, table(alloc, high, low)?);
    let mut list = ReportList {
        high: usize::from(high),
        low: usize::from(low),
        reports: Vec::new(alloc),
        closed: false,
    };
    take(alloc, &mut detector, &mut list, sequence)
}

/// Both take a sequence; how many cuts there were in it.
fn take(
    alloc: Global,
    detector: &mut Detector<Table>,
    list: &mut ReportList,
    sequence: usize,
) -> Result<usize> {
    let mut rest = sequence;
    let mut cuts: usize = 0;
    let mut alerts = Vec::new(alloc);
    let mut reports = Vec::new(alloc);
    for _ in 0..LENGTH {
        put(&mut alerts, &mut reports, rest % 9)?;
        if rest / 9 % 2 == 0 {
            let has_cut = batch(alloc, detector, list, &alerts, &reports)?;
            cuts = cuts.saturating_add(usize::from(has_cut));
            alerts.clear();
            reports.clear();
        }
        rest /= 18;
    }
    Ok(cuts)
}

/// Tries every sequence with the marks H and L, and answers how many cuts there were.
pub fn compare(alloc: Global, high: u8, low: u8) -> Result<usize> {
    let mut cuts: usize = 0;
    for sequence in 0..SEQUENCES {
        cuts = cuts.saturating_add(try_one(alloc, high, low, sequence)?);
    }
    Ok(cuts)
}
