// The view in which a node is.

ghost use Rattle.std.specs.Prelude.{◌≡◌};
ghost use Rattle.rapid_model.specs.Ring.{subjects_of};

use rapid_repeats::Repeats;
use rapid_rounds::ObservedEdges;
use rapid_view::View;

/// The current view, the probes of the members that are observed in it, and the filter of messages
/// that repeat others since it was entered.
#[derive(Drop)]
pub(crate) struct Present {
    pub(crate) view: View,
    pub(crate) watch: ObservedEdges,
    pub(crate) repeats: Repeats,
    ghost here: { watch.edges.items ≡ subjects_of view watch.me },
    ghost same: { watch.rings ≡ view },
}
