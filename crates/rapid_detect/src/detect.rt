// A run of `detect`.

ghost use Rattle.std.specs.Prelude.{◌≡◌, ℕ, List, false, None, IfOk, IfSome, OnOk, OnErr};
ghost use Rattle.std.specs.Io.KnownBytes.{Appends};
ghost use Rattle.rapid_model.specs.Alert as alert;
ghost use Rattle.rapid_model.specs.DetectLine as line;
ghost use Rattle.rapid_model.specs.DetectText as model;
ghost use Rattle.rapid_model.specs.Numbered.{numbered};
ghost use Rattle.rapid_alerts.specs.Alerts.{kind_of};
ghost use Rattle.rapid_detect.specs.Commands.{place_of, command_of, asked_of};
ghost use Rattle.rapid_detect.specs.Phases.{run_by, run_of, reporting, is_building, Obeys};
ghost use Rattle.rapid_text.specs.Underway.{AppendsFront};

use crate::command::{DetectAsked, DetectCommand, Place, read_line};
use crate::numbered_alerts::{NumberedAlert, NumberedAlerts};
use crate::reply::{DetectRefusal, DetectReply, write_reply};
use rapid_alerts::Kind;
use rapid_config::{Cut, Params};
use rapid_cut::Detector;
use rapid_rings::{Table, TableError};
use rapid_text::{Engine, RunFault, numbered};
use std::alloc::{AllocError, Global};
use std::io::{Read, Write};
use std::mem;

/// How many edge lines are taken.
const MOST_EDGES: usize = 16_384;

/// How many alerts a batch has.
const MOST_ALERTS: usize = 16_384;

/// How far a run has come.
#[derive(Drop)]
enum DetectPhase {
    /// `watermarks` was not taken yet.
    Unmarked,
    /// The table is made.
    Building(Table),
    /// Alerts and batches are taken.
    Reporting(Detector<Table>),
}

/// A run of `detect`.
#[derive(Drop)]
pub struct DetectRun {
    alloc: Global,
    phase: DetectPhase,
    joiner_lines: usize,
    edge_lines: usize,
    alerts: Vec<NumberedAlert>,
}

/// From here on alerts and batches are taken, if `watermarks` was.
fn start(alloc: Global, phase: &mut DetectPhase)
    ensures state { (joiners edges : ℕ) (alerts : List alert.Alert) → run_by phase.new joiners edges alerts ≡ reporting (run_by phase.old joiners edges alerts) }
    ensures started { is_building phase.new ≡ false }
{
    if let DetectPhase::Building(_) = phase {
        end_building(alloc, phase);
    }
}

/// The same, if the table is made: its phase is moved here and at no alert.
#[inline(never)]
fn end_building(alloc: Global, phase: &mut DetectPhase)
    ensures state { (joiners edges : ℕ) (alerts : List alert.Alert) → run_by phase.new joiners edges alerts ≡ reporting (run_by phase.old joiners edges alerts) }
    ensures started { is_building phase.new ≡ false }
{
    let before = mem::replace(phase, DetectPhase::Unmarked);
    *phase = match before {
        DetectPhase::Building(table) => DetectPhase::Reporting(Detector::new(alloc, table)),
        other => other,
    };
}

#[tactic(auto, unfolding(rapid_model::specs::DetectText::after, rapid_model::specs::DetectText::printed, rapid_model::specs::Table::table_observers))]
impl DetectRun {
    /// A run that has taken nothing.
    pub fn new(alloc: Global) -> DetectRun
        ensures { run_of result ≡ None }
    {
        DetectRun {
            alloc,
            phase: DetectPhase::Unmarked,
            joiner_lines: 0,
            edge_lines: 0,
            alerts: Vec::new(alloc),
        }
    }

    /// Takes the numbers K, H and L.
    fn watermarks(&mut self, k: u8, h: u8, l: u8) -> DetectReply
        ensures { Obeys self.old self.new (model.Command (line.Watermarks (record { k = k; h = h; l = l }))) result }
    {
        let DetectPhase::Unmarked = self.phase else {
            return DetectReply::Refused(DetectRefusal::BadLine);
        };
        match Params::new(k, h, l) {
            Ok(params) => {
                self.phase = DetectPhase::Building(Table::new(self.alloc, params));
                self.joiner_lines = 0;
                self.edge_lines = 0;
                self.alerts.clear();
                DetectReply::Silent
            }
            Err(_) => DetectReply::Refused(DetectRefusal::BadParams),
        }
    }

    /// Takes the process of a number as a joiner.
    fn joiner(&mut self, number: u16) -> Result<DetectReply, AllocError>
        ensures { IfOk result (Obeys self.old self.new (model.Command (line.Joiner (numbered number)))) }
    {
        match &mut self.phase {
            DetectPhase::Unmarked => Ok(DetectReply::Refused(DetectRefusal::NoWatermarks)),
            DetectPhase::Reporting(_) => Ok(DetectReply::Refused(DetectRefusal::TooLate)),
            DetectPhase::Building(table) => {
                if self.joiner_lines >= Cut::MOST_JOINERS {
                    return Ok(DetectReply::Refused(DetectRefusal::TooMany));
                }
                table.joiner(numbered(number))?;
                self.joiner_lines += 1;
                Ok(DetectReply::Silent)
            }
        }
    }

    /// Takes an edge of the table.
    fn edge(&mut self, place: Place) -> Result<DetectReply, AllocError>
        ensures { IfOk result (Obeys self.old self.new (model.Command (line.Edge (place_of place)))) }
    {
        match &mut self.phase {
            DetectPhase::Unmarked => Ok(DetectReply::Refused(DetectRefusal::NoWatermarks)),
            DetectPhase::Reporting(_) => Ok(DetectReply::Refused(DetectRefusal::TooLate)),
            DetectPhase::Building(table) => {
                if self.edge_lines >= MOST_EDGES {
                    return Ok(DetectReply::Refused(DetectRefusal::TooMany));
                }
                match table.add(
                    place.ring,
                    numbered(place.observer),
                    numbered(place.subject),
                ) {
                    Ok(()) => {
                        self.edge_lines += 1;
                        Ok(DetectReply::Silent)
                    }
                    Err(TableError::TooMany) => Ok(DetectReply::Refused(DetectRefusal::TooMany)),
                    Err(TableError::RingRange) => Ok(DetectReply::Refused(
                        DetectRefusal::RingRange,
                    )),
                    Err(TableError::EdgeTwice) => Ok(DetectReply::Refused(
                        DetectRefusal::EdgeTwice,
                    )),
                    Err(TableError::OutOfMemory) => Err(AllocError),
                }
            }
        }
    }

    /// Takes an alert for the next batch.
    fn report(&mut self, kind: Kind, place: Place) -> Result<DetectReply, AllocError>
        ensures { IfOk result (Obeys self.old self.new (model.Command (line.Report (kind_of kind) (place_of place)))) }
    {
        if let DetectPhase::Unmarked = self.phase {
            return Ok(DetectReply::Refused(DetectRefusal::NoWatermarks));
        }
        if self.alerts.len() >= MOST_ALERTS {
            return Ok(DetectReply::Refused(DetectRefusal::TooMany));
        }
        self.alerts.push(NumberedAlert {
            kind,
            ring: place.ring,
            observer: place.observer,
            subject: place.subject,
        })?;
        start(self.alloc, &mut self.phase);
        Ok(DetectReply::Silent)
    }

    /// Gives the batch to the detector.
    fn batch(&mut self) -> Result<DetectReply, AllocError>
        ensures { IfOk result (Obeys self.old self.new (model.Command line.Batch)) }
    {
        start(self.alloc, &mut self.phase);
        match &mut self.phase {
            DetectPhase::Unmarked => Ok(DetectReply::Refused(DetectRefusal::NoWatermarks)),
            DetectPhase::Building(_) => unreachable!(),
            DetectPhase::Reporting(detector) => {
                // the alerts go only once the detector has taken them
                let cut = detector.batch_in_turn(&NumberedAlerts::new(&self.alerts))?;
                let skipped = detector.skipped();
                self.alerts.clear();
                Ok(DetectReply::Batch(cut, skipped))
            }
        }
    }

    /// Takes a command, or refuses it.
    fn obey(&mut self, command: DetectCommand) -> Result<DetectReply, AllocError>
        ensures { IfOk result (Obeys self.old self.new (model.Command (command_of command))) }
    {
        match command {
            DetectCommand::Watermarks(k, h, l) => Ok(self.watermarks(k, h, l)),
            DetectCommand::Joiner(number) => self.joiner(number),
            DetectCommand::Edge(place) => self.edge(place),
            DetectCommand::Report(kind, place) => self.report(kind, place),
            DetectCommand::Batch => self.batch(),
        }
    }

    /// Does what a line asks for.
    fn respond(&mut self, asked: DetectAsked) -> Result<DetectReply, AllocError>
        ensures { IfOk result (Obeys self.old self.new (asked_of asked)) }
    {
        match asked {
            DetectAsked::Nothing => Ok(DetectReply::Silent),
            DetectAsked::Unknown => Ok(DetectReply::Refused(DetectRefusal::BadLine)),
            DetectAsked::Taken(command) => self.obey(command),
        }
    }
}

impl Engine for DetectRun {
    ghost use Rattle.std.proofs.Common.{◌∙◌, refl};
    ghost use Rattle.rapid_model.specs.DetectText.{text_of_lines};
    ghost use Rattle.rapid_detect.specs.Phases.{run_of};
    ghost use Rattle.rapid_detect.specs.TooLong.{long_lines};

    ghost prints = { λ run lines text n. text ≡ text_of_lines (run_of run) lines };

    ghost met = { λ run. 0 };

    fn answer(&mut self, line: &[u8], output: &mut Vec<u8>) -> Result<(), AllocError> {
        let reply = self.respond(read_line(line))?;
        write_reply(&reply, output)
    }

    ghost ends = { λ state. refl };

    ghost too_long = { λ state line other later text n h k p. p ∙ long_lines (run_of state) line other later h k };

    ghost speaks = { λ state lines. (text_of_lines (run_of state) lines, refl) };
}

/// Reads lines and writes what they print, and nothing else. After a fault a beginning of that is
/// written. The fault is `Read` if the input could not be read, `Write` if the output could not be
/// written, `OutOfMemory` if out of memory.
pub fn run_detect<R: Read, W: Write>(
    alloc: Global,
    reader: &mut R,
    writer: &mut W,
) -> Result<(), RunFault>
    ensures written { OnOk result (IfSome (R.remaining reader.old) (λ input.
        Appends (W.contents writer.old) (W.contents writer.new) (model.detect_text input))) }
    ensures begun { OnErr result (IfSome (R.remaining reader.old) (λ input.
        AppendsFront (W.contents writer.old) (W.contents writer.new) (model.detect_text input))) }
{
    let mut run = DetectRun::new(alloc);
    rapid_text::run(alloc, &mut run, reader, writer)
}
