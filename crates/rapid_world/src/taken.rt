// What comes of an event that a node takes.

ghost use Rattle.std.specs.Prelude.{◌≡◌, false, true, [], ◌∷◌, All, map, length, nat_lt, IfOk, OnOk, IfSome, if◌then◌else◌, None};
ghost use Rattle.std.specs.Option.{option_map, option_to_list};
ghost use Rattle.rapid_model.specs.Node.{configuration_of, has_installed};
ghost use Rattle.rapid_model.specs.Run.{ReportHalted};
ghost use Rattle.rapid_model.specs.NodeReports.{installed_report};
ghost use Rattle.rapid_world.specs.Events.{report_of};
ghost use Rattle.rapid_world.specs.Framed.{framed_packet, HasFrame};
ghost use Rattle.rapid_world.specs.Handed.{sent_by};
ghost use Rattle.rapid_world.specs.Windows.{packets_in};

use crate::framed::frame_all;
use crate::recipients::Recipients;
use crate::report::Report;
use crate::sending::Sending;
use bytes::Bytes;
use rapid_endpoint::ProcessId;
use rapid_message::Output;
use rapid_node::Node;
use std::alloc::{AllocError, Global};

/// What comes of an event: whether the node halts in it because it is out of memory, and what it
/// reports.
#[derive(Debug, Drop)]
pub(crate) struct Told {
    pub(crate) halts: bool,
    pub(crate) report: Option<Report>,
}

impl Told {
    /// Nothing comes of it.
    pub(crate) fn nothing() -> Told
        ensures halts { result.halts ≡ false }
        ensures report { option_to_list (option_map report_of result.report) ≡ [] }
    {
        Told {
            halts: false,
            report: None,
        }
    }

    /// The node halts, because it is out of memory or for another reason.
    pub(crate) fn halted(id: ProcessId, halts: bool) -> Told
        ensures halts { result.halts ≡ halts }
        ensures report { option_to_list (option_map report_of result.report) ≡ ReportHalted id ∷ [] }
    {
        Told {
            halts,
            report: Some(Report::Halted(id)),
        }
    }
}

/// What comes of an event, and what the node sends by it.
#[derive(Debug, Drop)]
pub(crate) struct StepTaken {
    pub(crate) told: Told,
    pub(crate) sending: Option<Sending>,
}

/// What a node sends by these outputs, if it sends anything; `first` packets were sent before. A
/// frame shares the memory of the last one if they are equal.
#[tactic(auto, using(crate::proofs::Framing::frames_are, crate::proofs::Framing::have_frames))]
fn sending_of(
    alloc: Global,
    node: &Node,
    first: u64,
    outputs: &[Output],
    last: Option<&Bytes>,
) -> Result<Option<Sending>, AllocError>
    ensures packets { IfOk result (λ sending. packets_in sending ≡ map framed_packet (sent_by node.now outputs.now)) }
    ensures framed { OnOk result (All HasFrame (sent_by node.now outputs.now)) }
    ensures first { IfOk result (λ sending. IfSome sending (λ s. s.first ≡ first)) }
{
    let framed = frame_all(alloc, outputs, last)?;
    if framed.is_empty() {
        return Ok(None);
    }
    let recipients = Recipients::of(alloc, node)?;
    match Sending::new(first, recipients, framed) {
        Some(sending) => Ok(Some(sending)),
        None => Err(AllocError),
    }
}

/// What a node reports that had installed `before` views before its step.
fn report_after(alloc: Global, node: &Node, before: usize) -> Result<Option<Report>, AllocError>
    ensures { IfOk result (λ report. option_to_list (option_map report_of report)
        ≡ (if nat_lt before (length node.now.installed) then installed_report node.now (configuration_of node.now) else [])) }
{
    if node.installed().len() <= before {
        return Ok(None);
    }
    match node.configuration() {
        Some(configuration) => {
            let shared = configuration.try_copy(alloc)?;
            Ok(Some(Report::Installed(node.process().id(), shared)))
        }
        None => Ok(None),
    }
}

impl StepTaken {
    /// What comes of it if the node halts, because it is out of memory or for another reason.
    pub(crate) fn halted(id: ProcessId, halts: bool) -> StepTaken
        ensures halts { result.told.halts ≡ halts }
        ensures report { option_to_list (option_map report_of result.told.report) ≡ ReportHalted id ∷ [] }
        ensures sending { packets_in result.sending ≡ [] }
        ensures first { result.sending ≡ None }
    {
        StepTaken {
            told: Told::halted(id, halts),
            sending: None,
        }
    }

    /// What comes of it if the node makes a step from one state to another and has these outputs;
    /// `first` packets were sent before. A frame shares the memory of the last one if they are
    /// equal.
    pub(crate) fn of(
        alloc: Global,
        old: &Node,
        new: &Node,
        first: u64,
        outputs: &[Output],
        last: Option<&Bytes>,
    ) -> Result<StepTaken, AllocError>
        ensures halts { IfOk result (λ taken. taken.told.halts ≡ false) }
        ensures report { IfOk result (λ taken. option_to_list (option_map report_of taken.told.report)
            ≡ (if has_installed old.now new.now then installed_report new.now (configuration_of new.now) else [])) }
        ensures sending { IfOk result (λ taken. packets_in taken.sending ≡ map framed_packet (sent_by old.now outputs.now)) }
        ensures framed { OnOk result (All HasFrame (sent_by old.now outputs.now)) }
        ensures first { IfOk result (λ taken. IfSome taken.sending (λ s. s.first ≡ first)) }
    {
        let report = report_after(alloc, new, old.installed().len())?;
        let sending = sending_of(alloc, old, first, outputs, last)?;
        let told = Told {
            halts: false,
            report,
        };
        Ok(StepTaken { told, sending })
    }

    /// The frame that was sent last, shared, if any was.
    pub(crate) fn last_frame(&self) -> Result<Option<Bytes>, AllocError> {
        match &self.sending {
            Some(sending) => sending.last_frame(),
            None => Ok(None),
        }
    }
}
