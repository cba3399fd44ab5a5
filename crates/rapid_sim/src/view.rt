// What `sim` prints.

ghost use Rattle.std.specs.Prelude.{◌≡◌, ◌++◌, ◌∷◌, [], flat_map, map, decimal, codes, OnOk};
ghost use Rattle.rapid_model.specs.Lines.{line_feed};
ghost use Rattle.rapid_model.specs.Process.{identifier, same_bytes};
ghost use Rattle.rapid_model.specs.Run.{ReportInstalled};
ghost use Rattle.rapid_model.specs.SimText.{refusal_line, node_text, is_among, view_text, report_line, reports_text, founding_text};
ghost use Rattle.rapid_world.specs.Events.{report_of};
ghost use Rattle.rapid_sim.specs.Replies.{refusal_of};

use rapid_config::Configuration;
use rapid_endpoint::{Process, ProcessId};
use rapid_text::{write_members, write_node, write_number};
use rapid_world::Report;
use std::alloc::AllocError;

/// Why a line is refused.
#[derive(Clone, Copy, Debug)]
pub(crate) enum SimRefusal {
    /// It is not in the grammar, or it repeats what can be said once.
    BadLine,
    /// Parameters or founders were not taken yet.
    NoParams,
    /// K, H and L are not in order.
    BadParams,
    /// A process starts with a tag that is none.
    BadTag,
    /// A process starts with more than 8 tags.
    TooManyTags,
    /// A process starts with tags that do not strictly ascend.
    TagsNotSorted,
    /// A process starts under an identifier that was used before.
    IdentifierUsed,
    /// A process starts at an endpoint at which a node runs.
    EndpointBusy,
    /// No node runs under the identifier, or at the packet's endpoint.
    NoSuchNode,
    /// No packet with this number was sent.
    NoSuchPacket,
    /// The node observes no member on the ring.
    NotObserved,
    /// No further event is accepted.
    EventsFull,
}

/// The line that a refused line prints.
pub(crate) fn refused_line(refusal: SimRefusal) -> &'static [u8]
    ensures { result.now ≡ refusal_line (refusal_of refusal) }
{
    match refusal {
        SimRefusal::BadLine => b"refused BadLine\n",
        SimRefusal::NoParams => b"refused NoParams\n",
        SimRefusal::BadParams => b"refused BadParams\n",
        SimRefusal::BadTag => b"refused BadTag\n",
        SimRefusal::TooManyTags => b"refused TooManyTags\n",
        SimRefusal::TagsNotSorted => b"refused TagsNotSorted\n",
        SimRefusal::IdentifierUsed => b"refused IdentifierUsed\n",
        SimRefusal::EndpointBusy => b"refused EndpointBusy\n",
        SimRefusal::NoSuchNode => b"refused NoSuchNode\n",
        SimRefusal::NoSuchPacket => b"refused NoSuchPacket\n",
        SimRefusal::NotObserved => b"refused NotObserved\n",
        SimRefusal::EventsFull => b"refused EventsFull\n",
    }
}

/// Whether the process has this identifier.
fn has_identifier(process: &Process, id: &ProcessId) -> bool
    ensures { result ≡ same_bytes id.now (identifier process.now) }
{
    *id == process.id()
}

/// Whether the process of this identifier is among these.
fn is_among(id: &ProcessId, processes: &[Process]) -> bool
    ensures { result ≡ is_among id.now processes.now }
{
    processes.iter().any(|process| has_identifier(process, id))
}

/// Appends what a node that is in a configuration says of it, or one that is not.
fn write_view(
    id: &ProcessId,
    configuration: &Configuration,
    output: &mut Vec<u8>,
) -> Result<(), AllocError>
    ensures { OnOk result (output.new.items ≡ output.old.items ++ view_text id.now configuration.now) }
{
    if !is_among(id, configuration.members()) {
        output.extend_from_slice(b" removed at height ")?;
        return write_number(configuration.height(), output);
    }
    output.extend_from_slice(b" height ")?;
    write_number(configuration.height(), output)?;
    output.extend_from_slice(b" members")?;
    write_members(configuration.members(), output)
}

/// Appends the line of a configuration that a node installed.
fn write_installed(
    id: &ProcessId,
    configuration: &Configuration,
    output: &mut Vec<u8>,
) -> Result<(), AllocError>
    ensures { OnOk result (output.new.items ≡ output.old.items ++ (node_text id.now ++ view_text id.now configuration.now ++ line_feed ∷ [])) }
{
    write_node(id, output)?;
    write_view(id, configuration, output)?;
    output.push(b'\n')?;
    Ok(())
}

/// Appends the line that a report prints.
fn write_report(report: &Report, output: &mut Vec<u8>) -> Result<(), AllocError>
    ensures { OnOk result (output.new.items ≡ output.old.items ++ report_line (report_of report.now)) }
{
    match report {
        Report::Installed(id, configuration) => write_installed(id, configuration, output),
        Report::Halted(id) => {
            write_node(id, output)?;
            output.extend_from_slice(b" halted\n")
        }
    }
}

/// Appends the lines that reports print.
pub(crate) fn write_reports(reports: &[Report], output: &mut Vec<u8>) -> Result<(), AllocError>
    ensures { OnOk result (output.new.items ≡ output.old.items ++ reports_text (map report_of reports.now)) }
{
    for report in reports {
        write_report(report, output)?;
    }
    Ok(())
}

/// Appends the lines of nodes that installed a configuration.
fn write_installs(
    nodes: &[Process],
    configuration: &Configuration,
    output: &mut Vec<u8>,
) -> Result<(), AllocError>
    ensures { OnOk result (output.new.items ≡ output.old.items ++ flat_map (λ p. report_line (ReportInstalled (identifier p) configuration.now)) nodes.now) }
{
    for node in nodes {
        write_installed(&node.id(), configuration, output)?;
    }
    Ok(())
}

/// Appends the lines that founders print, all of whom installed the founding configuration.
#[tactic(auto, using(crate::proofs::Views::founding_lines))]
pub(crate) fn write_founding(
    configuration: &Configuration,
    output: &mut Vec<u8>,
) -> Result<(), AllocError>
    ensures { OnOk result (output.new.items ≡ output.old.items ++ founding_text configuration.now) }
{
    write_installs(configuration.members(), configuration, output)
}

/// Appends how many packets were sent.
pub(crate) fn write_packets(packets: u64, output: &mut Vec<u8>) -> Result<(), AllocError>
    ensures { OnOk result (output.new.items ≡ output.old.items ++ (codes "packets " ++ decimal packets ++ line_feed ∷ [])) }
{
    output.extend_from_slice(b"packets ")?;
    write_number(packets, output)?;
    output.push(b'\n')?;
    Ok(())
}
