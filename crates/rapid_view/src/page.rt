// A copy of the published view.

ghost use Rattle.std.specs.Prelude.{◌≡◌, Some, IfOk};
ghost use Rattle.std.specs.Option.{ForSome};
ghost use Rattle.rapid_model.specs.Configuration as model;

use crate::View;
use left_right::Absorb;
use rapid_config::Stamp;
use std::alloc::{AllocError, Global};

/// The last published view, and its stamp. The view shares its list of members with all its copies,
/// so it takes its place here without memory. It is missing only if even such a copy was refused.
#[derive(Drop)]
pub struct Page {
    alloc: Global,
    stamp: Stamp,
    view: Option<View>,
    ghost same: { ForSome view (λ v. model.stamp v ≡ stamp) },
}

impl Absorb<View> for Page {
    type State = Stamp;

    ghost state = { λ p. p.stamp };

    ghost applied = { λ _ view. model.stamp view };

    ghost never_fails = { Unit {0} };

    fn absorb_first(&mut self, operation: &View, _other: &Page) -> Result<(), AllocError> {
        *self = Page {
            alloc: self.alloc,
            stamp: operation.stamp(),
            // an absorbed view has to take no memory and not to fail, so a refused copy is left out
            view: operation.try_copy(self.alloc).ok(),
        };
        Ok(())
    }

    fn absorb_second(&mut self, operation: View, _other: &Page) -> Result<(), View> {
        *self = Page::of(self.alloc, operation);
        Ok(())
    }
}

impl Page {
    /// The page of this view.
    pub(crate) fn of(alloc: Global, view: View) -> Page
        ensures view { result.view ≡ Some view }
        ensures stamp { result.stamp ≡ model.stamp view }
    {
        Page {
            alloc,
            stamp: view.stamp(),
            view: Some(view),
        }
    }

    /// A copy of the view.
    pub(crate) fn view(&self) -> Result<View, AllocError>
        ensures { IfOk result (λ view. self.now.view ≡ Some view) }
    {
        match &self.view {
            Some(view) => view.try_copy(self.alloc),
            None => Err(AllocError),
        }
    }
}
