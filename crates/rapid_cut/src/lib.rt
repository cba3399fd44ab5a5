//! Cut detection (Rapid, USENIX ATC 2018): from the alerts of many observers, the set of processes
//! that are to be removed or let in together.
#![tactic(auto)]

ghost use Rattle.rapid_cut.specs.Laws.{ListsAreExact, CutIsExact, NoCutIsExact, OrderAndRepeatsChangeNothing, BatchesAddUp, AllTakenAreKept, OnePassIsEnough};

mod ascending;
mod bare;
mod closure;
mod detector;
mod few;
mod growing;
mod in_turn;
mod many;
mod mask;
mod reports;
mod shared_list;
mod subject;
mod taken;

pub use detector::Detector;
pub use in_turn::{InTurn, Turn};

/// A process is listed as stable exactly if it has at least H reports. It is listed as unstable
/// exactly if it has from L to H - 1. Both lists ascend.
pub fn lists_are_exact()
    ensures { ListsAreExact }
{}

/// There is a cut exactly if some process has at least H reports and none has from L to H - 1. It
/// is all processes with at least H, ascending.
pub fn cut_is_exact()
    ensures { CutIsExact }
{}

/// There is none exactly if no process has at least H reports, or one has from L to H - 1.
pub fn no_cut_is_exact()
    ensures { NoCutIsExact }
{}

/// Neither the order of the alerts that are taken nor repeats among them change what they report.
pub fn order_and_repeats_change_nothing()
    ensures { OrderAndRepeatsChangeNothing }
{}

/// Into which batches the alerts that are taken are cut does not change what they report.
pub fn batches_add_up()
    ensures { BatchesAddUp }
{}

/// What a detector keeps after batches is the set that all alerts make that it took of them.
pub fn all_taken_are_kept()
    ensures { AllTakenAreKept }
{}

/// The reports are the direct ones and each whose subject and observer both have at least L direct
/// reports: what is implied implies nothing more.
pub fn one_pass_is_enough()
    ensures { OnePassIsEnough }
{}
