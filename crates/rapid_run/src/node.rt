// A node as its threads see it.

use rapid_agent::Agent;
use rapid_lines::Note;
use rapid_session::run_lines;
use rapid_signals::Ending;
use rapid_threads::Node;
use std::alloc::Global;
use std::io::Read;
use std::sync::Wait;

/// The node of an agent. Its methods and the function that opens the agent are all that looks into
/// one.
#[derive(Drop)]
pub(crate) struct AgentNode<'n, 'a, W: Wait> {
    pub rt: &'n W,
    pub alloc: Global,
    pub agent: &'n Agent<'a, W>,
}

impl<W: Wait> Node for AgentNode<'_, '_, W> {
    fn ending(&self) -> &Ending {
        self.agent.shared().ending()
    }

    fn take_notes(&self) -> Vec<Note> {
        self.agent.shared().take_notes(self.rt)
    }

    fn lacks_descriptors(&self) -> bool {
        self.agent.counters().exhausted > 0
    }

    fn answer<I: Read>(&self, reader: &mut I) {
        run_lines(self.rt, self.alloc, self.agent.shared(), reader);
    }
}
