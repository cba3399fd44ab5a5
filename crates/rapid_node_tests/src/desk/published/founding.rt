// Views and cells to begin with.

ghost use Rattle.std.specs.Prelude.{◌≡◌, ◌<◌, ◌≤◌, All, IfSome};

use crate::desk::founding::founding;
use rapid_config::Configuration;
use rapid_view::{View, ViewSeat, ViewWriter};
use std::alloc::Global;
use std::sync::Wait;
use std::test::Fail;

/// The view of a copy of this configuration.
pub(crate) fn view_of(alloc: Global, configuration: &Configuration) -> Result<View, Fail> {
    Ok(View::new(configuration.try_copy(alloc)?))
}

/// The view of the founding configuration.
pub(crate) fn first_view(alloc: Global) -> Result<View, Fail> {
    view_of(alloc, &founding(alloc)?)
}

/// Two seats of one cell.
pub(crate) fn two_of<R: Wait + Drop>(
    writer: &ViewWriter<R>,
    mut seats: Vec<ViewSeat>,
) -> Option<(ViewSeat, ViewSeat)>
    requires { All (λ s. s.cell ≡ writer.now.cell) seats.items }
    ensures { IfSome result (λ p. (p.0.cell ≡ writer.now.cell) × (p.1.cell ≡ writer.now.cell)) }
{
    let second = seats.pop()?;
    let first = seats.pop()?;
    Some((first, second))
}
