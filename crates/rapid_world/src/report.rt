// What a step of a world reports.

use rapid_config::Configuration;
use rapid_endpoint::ProcessId;

/// What a step of a world reports.
#[derive(Debug, Drop)]
pub enum Report {
    /// The node installed this configuration, which shares its members with the node.
    Installed(ProcessId, Configuration),
    /// The node halted: it had no memory, or no room for a further view.
    Halted(ProcessId),
}
