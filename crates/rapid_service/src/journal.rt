// How the journal of a desk stays short.

ghost use Rattle.std.specs.Prelude.{◌≡◌, ◌<◌, length, OnOk, OnErr, IfErr};
ghost use Rattle.rapid_model.specs.Limits.{long_journal};
ghost use Rattle.rapid_desk.specs.Desks.{NoCheckpoint};

use rapid_desk::{Desk, DeskError};
use std::sync::Wait;

/// From how many records on a journal is begun anew. A record may hold a batch of 2,048 alerts. The
/// entry costs little, since a copy of a node shares its parts. So this is far less than the 65,536
/// that a journal may have.
const LONG: usize = 512;

/// Begins the journal of a desk anew, at the node as it is, if it has 512 records or more. If this
/// is asked before each step, the desk refuses an event as `JournalFull` only after memory was
/// refused again and again.
///
/// # Errors
///
/// Those of `Desk::checkpoint`, which change nothing: the call may be repeated.
pub(crate) fn shorten<R: Wait + Copy + Drop>(desk: &mut Desk<R>) -> Result<(), DeskError>
    ensures short { OnOk result (length desk.new.state.journal < long_journal) }
    ensures node { desk.new.state.node ≡ desk.old.state.node }
    ensures published { desk.new.state.published ≡ desk.old.state.published }
    ensures same { (desk.new.seats ≡ desk.old.seats) × (desk.new.count ≡ desk.old.count) × (desk.new.subscriptions ≡ desk.old.subscriptions) }
    ensures rarely { length desk.old.state.journal < long_journal → desk.new ≡ desk.old }
    ensures refused { IfErr result (NoCheckpoint desk.old.state.full) }
    ensures unchanged { OnErr result (desk.new ≡ desk.old) }
{
    if desk.journal_len() < LONG {
        return Ok(());
    }
    desk.checkpoint()
}
