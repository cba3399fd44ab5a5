// A run of `sim`.

ghost use Rattle.std.specs.Prelude.{◌≡◌, ◌≢◌, ◌≤◌, ◌<◌, ◌++◌, ℕ, List, length, false, None, IfOk, IfErr, IfSome, OnOk, OnErr};
ghost use Rattle.std.specs.Io.KnownBytes.{Appends};
ghost use Rattle.rapid_model.specs.Configuration.{Params as ModelParams, founding};
ghost use Rattle.rapid_model.specs.Reading.{members_fault};
ghost use Rattle.rapid_model.specs.SimLine as line;
ghost use Rattle.rapid_model.specs.SimText as model;
ghost use Rattle.rapid_text.specs.Underway.{AppendsFront, IsCounted};
ghost use Rattle.rapid_text.specs.declared.fault.RunFault.TheVariants.{OutOfMemory};
ghost use Rattle.rapid_sim.specs.Commands.{command_of, tags_refusal_of, asked_of, HasFounding, IsFromOne, IsPreparation, IsReady, AsksReady};
ghost use Rattle.rapid_sim.specs.Progress.{IsAnswered, IsAnsweredExactly};
ghost use Rattle.rapid_sim.specs.Replies.{refusal_of};
ghost use Rattle.rapid_sim.specs.Simulators.{simulation_of, phase_state, phase_wants, state_of, wants_in, HasParams};
ghost use Rattle.rapid_sim.specs.Wants.{SimPrints};

use crate::command::{SimAsked, SimCommand, read_line};
use crate::settled::Settled;
use crate::simulator::Simulator;
use crate::view::{SimRefusal, refused_line, write_founding, write_packets};
use rapid_config::{Configuration, Params};
use rapid_endpoint::ParseError;
use rapid_text::{Engine, RunFault};
use rapid_world::World;
use std::alloc::{AllocError, Global};
use std::io::{Read, Write};

/// How far a run has come.
#[derive(Drop)]
pub(crate) enum SimPhase {
    /// Neither parameters nor founders were taken.
    Blank,
    /// Parameters were taken.
    Prepared(Params),
    /// Founders were taken too.
    Underway(Simulator),
}

/// A run of `sim`.
#[derive(Drop)]
pub struct SimRun {
    alloc: Global,
    phase: SimPhase,
}

/// The world of founders, in which nothing happened yet.
fn begin(alloc: Global, configuration: &Configuration) -> Result<Simulator, AllocError>
    requires members { members_fault configuration.now.members ≡ None }
    requires some { 0 < length configuration.now.members }
    requires founding { configuration.now ≡ founding configuration.now.params configuration.now.members }
    ensures state { IfOk result (λ s. simulation_of s ≡ model.begun configuration.now.params configuration.now.members) }
    ensures met { IfOk result (λ s. s.met ≡ 0) }
{
    let world = World::new(alloc, configuration.params(), configuration.members())?;
    Ok(Simulator {
        world,
        settled: Settled::new(alloc),
        met: 0,
    })
}

#[tactic(auto, unfolding(rapid_model::specs::SimText::answer))]
impl Simulator {
    /// Settles a packet that was sent.
    fn drop_packet(&mut self, packet: u64, output: &mut Vec<u8>) -> Result<(), AllocError>
        requires { 1 ≤ packet }
        ensures exactly { OnOk result (IsAnsweredExactly (model.Underway (simulation_of self.old)) (model.Underway (simulation_of self.new)) (model.Command (line.Drop packet)) output.old.items output.new.items) }
        ensures met { self.new.met ≡ self.old.met }
    {
        if packet > self.world.packets() {
            return output.extend_from_slice(refused_line(SimRefusal::BadLine));
        }
        self.settled.settle(packet)
    }

    /// Prints how many packets were sent.
    fn tell_packets(&self, output: &mut Vec<u8>) -> Result<(), AllocError>
        ensures { OnOk result (IsAnsweredExactly (model.Underway (simulation_of self.now)) (model.Underway (simulation_of self.now)) (model.Command line.Packets) output.old.items output.new.items) }
    {
        write_packets(self.world.packets(), output)
    }

    /// Refuses parameters or founders, which were taken before.
    fn refuse(&self, command: &SimCommand, output: &mut Vec<u8>) -> Result<(), AllocError>
        requires { IsPreparation command.now }
        ensures { OnOk result (IsAnsweredExactly (model.Underway (simulation_of self.now)) (model.Underway (simulation_of self.now)) (model.Command (command_of command.now)) output.old.items output.new.items) }
    {
        output.extend_from_slice(refused_line(SimRefusal::BadLine))
    }

    /// Refuses a start with wrong tags.
    fn refuse_tags(&self, error: ParseError, output: &mut Vec<u8>) -> Result<(), AllocError>
        ensures { OnOk result (IsAnsweredExactly (model.Underway (simulation_of self.now)) (model.Underway (simulation_of self.now)) (model.Command (line.WrongTags (tags_refusal_of error))) output.old.items output.new.items) }
    {
        let refusal = match error {
            ParseError::TooManyTags => SimRefusal::TooManyTags,
            ParseError::TagsNotSorted => SimRefusal::TagsNotSorted,
            _ => SimRefusal::BadTag,
        };
        output.extend_from_slice(refused_line(refusal))
    }

    /// Does what a command asks for, or refuses it, and appends what that prints.
    fn obey(
        &mut self,
        alloc: Global,
        command: &SimCommand,
        output: &mut Vec<u8>,
    ) -> Result<(), AllocError>
        requires { IsFromOne command.now }
        ensures { OnOk result (IsAnswered (model.Underway (simulation_of self.old)) (model.Underway (simulation_of self.new)) (model.Command (command_of command.now)) output.old.items output.new.items self.old.met self.new.met) }
    {
        match command {
            SimCommand::Parameters(_, _, _) | SimCommand::Found(_) => self.refuse(command, output),
            SimCommand::Events(event, count) => self.repeat(event, *count, output),
            SimCommand::WrongTags(error) => self.refuse_tags(*error, output),
            SimCommand::Lose(id) => self.lose(alloc, id, output),
            SimCommand::Deliver(packet) => self.deliver(*packet, output),
            SimCommand::Drop(packet) => self.drop_packet(*packet, output),
            SimCommand::Flow => self.flow(output),
            SimCommand::Packets => self.tell_packets(output),
        }
    }
}

#[tactic(auto, unfolding(rapid_model::specs::SimText::answer))]
impl SimRun {
    /// A run that has taken nothing.
    fn new(alloc: Global) -> SimRun
        ensures state { state_of result ≡ model.Blank }
        ensures met { wants_in result ≡ 0 }
    {
        SimRun {
            alloc,
            phase: SimPhase::Blank,
        }
    }

    /// How often memory ran out.
    fn met(&self) -> u64
        ensures { result ≡ wants_in self.now }
    {
        match &self.phase {
            SimPhase::Underway(simulator) => simulator.met,
            SimPhase::Blank | SimPhase::Prepared(_) => 0,
        }
    }

    /// The parameters of a founding that would be taken now.
    fn params(&self) -> Result<Params, AllocError>
        ensures { IfOk result (HasParams self.now.phase) }
    {
        match &self.phase {
            SimPhase::Prepared(params) => Ok(*params),
            SimPhase::Blank | SimPhase::Underway(_) => Params::new(1, 1, 1).map_err(|_| AllocError),
        }
    }

    /// Takes the numbers K, H and L, if nothing was taken yet.
    fn take_params(&mut self, k: u8, h: u8, l: u8, output: &mut Vec<u8>) -> Result<(), AllocError>
        requires { state_of self.old ≡ model.Blank }
        ensures taken { OnOk result (IsAnsweredExactly model.Blank (state_of self.new) (model.Command (line.Parameters (record { k = k; h = h; l = l }))) output.old.items output.new.items) }
        ensures met { wants_in self.new ≡ 0 }
    {
        match Params::new(k, h, l) {
            Ok(params) => {
                self.phase = SimPhase::Prepared(params);
                Ok(())
            }
            Err(_) => output.extend_from_slice(refused_line(SimRefusal::BadParams)),
        }
    }

    /// Takes founders.
    fn take_founders(
        &mut self,
        configuration: &Configuration,
        output: &mut Vec<u8>,
    ) -> Result<(), AllocError>
        requires members { members_fault configuration.now.members ≡ None }
        requires some { 0 < length configuration.now.members }
        requires founding { configuration.now ≡ founding configuration.now.params configuration.now.members }
        ensures taken { OnOk result (IsAnsweredExactly (model.Prepared configuration.now.params) (state_of self.new) (model.Command (line.Found configuration.now.members)) output.old.items output.new.items) }
        ensures met { OnOk result (wants_in self.new ≡ 0) }
    {
        self.phase = SimPhase::Underway(begin(self.alloc, configuration)?);
        write_founding(configuration, output)
    }
    /// Does what a command asks for before any was taken, or refuses it.
    fn blank(&mut self, command: &SimCommand, output: &mut Vec<u8>) -> Result<(), AllocError>
        requires { state_of self.old ≡ model.Blank }
        ensures exactly { OnOk result (IsAnsweredExactly model.Blank (state_of self.new) (model.Command (command_of command.now)) output.old.items output.new.items) }
        ensures met { OnOk result (wants_in self.new ≡ 0) }
    {
        match command {
            SimCommand::Parameters(k, h, l) => self.take_params(*k, *h, *l, output),
            SimCommand::Drop(_) => output.extend_from_slice(refused_line(SimRefusal::BadLine)),
            SimCommand::Found(_)
            | SimCommand::Events(_, _)
            | SimCommand::WrongTags(_)
            | SimCommand::Lose(_)
            | SimCommand::Deliver(_)
            | SimCommand::Flow
            | SimCommand::Packets => output.extend_from_slice(refused_line(SimRefusal::NoParams)),
        }
    }

    /// Does what a command asks for after the parameters were taken, or refuses it.
    fn prepared(
        &mut self,
        params: Params,
        command: &SimCommand,
        output: &mut Vec<u8>,
    ) -> Result<(), AllocError>
        requires state { state_of self.old ≡ model.Prepared params }
        requires ready { IsReady params command.now }
        ensures exactly { OnOk result (IsAnsweredExactly (model.Prepared params) (state_of self.new) (model.Command (command_of command.now)) output.old.items output.new.items) }
        ensures met { OnOk result (wants_in self.new ≡ 0) }
    {
        match command {
            SimCommand::Found(configuration) => self.take_founders(configuration, output),
            SimCommand::Parameters(_, _, _) | SimCommand::Drop(_) => {
                output.extend_from_slice(refused_line(SimRefusal::BadLine))
            }
            SimCommand::Events(_, _)
            | SimCommand::WrongTags(_)
            | SimCommand::Lose(_)
            | SimCommand::Deliver(_)
            | SimCommand::Flow
            | SimCommand::Packets => output.extend_from_slice(refused_line(SimRefusal::NoParams)),
        }
    }

    /// Does what a command asks for, or refuses it, and appends what that prints.
    fn obey(&mut self, command: &SimCommand, output: &mut Vec<u8>) -> Result<(), AllocError>
        requires { (params : ModelParams) × HasParams self.old.phase params × IsReady params command.now }
        ensures { OnOk result (IsAnswered (state_of self.old) (state_of self.new) (model.Command (command_of command.now)) output.old.items output.new.items (wants_in self.old) (wants_in self.new)) }
    {
        match &mut self.phase {
            SimPhase::Underway(simulator) => simulator.obey(self.alloc, command, output),
            SimPhase::Prepared(params) => {
                let params = *params;
                self.prepared(params, command, output)
            }
            SimPhase::Blank => self.blank(command, output),
        }
    }

    /// Does what a line asks for, and appends what that prints.
    fn respond(&mut self, asked: &SimAsked, output: &mut Vec<u8>) -> Result<(), AllocError>
        requires { (params : ModelParams) × HasParams self.old.phase params × AsksReady params asked.now }
        ensures { OnOk result (IsAnswered (state_of self.old) (state_of self.new) (asked_of asked.now) output.old.items output.new.items (wants_in self.old) (wants_in self.new)) }
    {
        match asked {
            SimAsked::Nothing => Ok(()),
            SimAsked::Unknown => output.extend_from_slice(refused_line(SimRefusal::BadLine)),
            SimAsked::Taken(command) => self.obey(command, output),
        }
    }
}

impl Engine for SimRun {
    ghost use Rattle.rapid_sim.specs.Simulators.{RunPrints, wants_in};
    ghost use Rattle.rapid_sim.specs.Runs.{run_ends, run_too_long, run_speaks};

    ghost prints = { RunPrints };

    ghost met = { wants_in };

    fn answer(&mut self, line: &[u8], output: &mut Vec<u8>) -> Result<(), AllocError> {
        let asked = read_line(self.alloc, self.params()?, line)?;
        let mut text = Vec::new(self.alloc);
        self.respond(&asked, &mut text)?;
        output.extend_from_slice(text.as_slice())
    }

    ghost ends = { run_ends };

    ghost too_long = { run_too_long };

    ghost speaks = { run_speaks };
}

/// What became of a run of `sim`.
#[derive(Clone, Copy, Debug)]
pub struct SimRan {
    /// How many times memory ran out: the world's own, for which an event was refused as `refused
    /// OutOfMemory`, and that of nodes, which halted.
    pub met: u64,
    /// How it ended: at the end of the input, or by a fault.
    pub ended: Result<(), RunFault>,
}

/// Reads lines, drives a simulated cluster by them, and writes what they print, and nothing else.
/// Says how it ended, and how many times memory ran out. If that is 0, what was written is what the
/// input prints. Else it is what the input may print if memory runs out this often. After a fault a
/// beginning of such a text was written. The fault is `Read` if the input could not be read, and
/// `Write` if the output could not be written. It is `OutOfMemory` if there was no memory to read
/// and answer lines. After `OutOfMemory` the count says nothing of what was written.
pub fn run_sim_counted<R: Read, W: Write>(alloc: Global, reader: &mut R, writer: &mut W) -> SimRan
    ensures written { OnOk result.ended (IfSome (R.remaining reader.old) (λ input.
        (text : List ℕ) × SimPrints input text result.met × Appends (W.contents writer.old) (W.contents writer.new) text)) }
    ensures exact { OnOk result.ended (result.met ≡ 0 → IfSome (R.remaining reader.old) (λ input.
        Appends (W.contents writer.old) (W.contents writer.new) (model.sim_text input))) }
    ensures begun { IfErr result.ended (λ fault. IfSome (R.remaining reader.old) (λ input.
        (text : List ℕ) × (met : ℕ) × IsCounted fault met result.met × SimPrints input text met × AppendsFront (W.contents writer.old) (W.contents writer.new) text)) }
    ensures exactly_begun { IfErr result.ended (λ fault. fault ≢ OutOfMemory → result.met ≡ 0 → IfSome (R.remaining reader.old) (λ input.
        AppendsFront (W.contents writer.old) (W.contents writer.new) (model.sim_text input))) }
{
    let mut run = SimRun::new(alloc);
    let ended = rapid_text::run(alloc, &mut run, reader, writer);
    SimRan {
        met: run.met(),
        ended,
    }
}

/// Does what [`run_sim_counted`] does. The answer is how often memory ran out, unless a fault ended
/// the run.
pub fn run_sim<R: Read, W: Write>(
    alloc: Global,
    reader: &mut R,
    writer: &mut W,
) -> Result<u64, RunFault>
    ensures written { IfOk result (λ met. IfSome (R.remaining reader.old) (λ input.
        (text : List ℕ) × SimPrints input text met × Appends (W.contents writer.old) (W.contents writer.new) text)) }
    ensures exact { IfOk result (λ met. met ≡ 0 → IfSome (R.remaining reader.old) (λ input.
        Appends (W.contents writer.old) (W.contents writer.new) (model.sim_text input))) }
    ensures begun { OnErr result (IfSome (R.remaining reader.old) (λ input.
        (text : List ℕ) × (met : ℕ) × SimPrints input text met × AppendsFront (W.contents writer.old) (W.contents writer.new) text)) }
{
    let ran = run_sim_counted(alloc, reader, writer);
    match ran.ended {
        Ok(()) => Ok(ran.met),
        Err(fault) => Err(fault),
    }
}
