// What is put for a subscriber.

use rapid_line::Order;
use rapid_view::View;

/// Why a change was not put for a subscriber.
#[derive(Clone, Copy, Debug, PartialEq, Eq)]
pub enum Loss {
    /// As many changes waited as the subscription has room for.
    Full,
    /// There was no memory for a copy of the view.
    Memory,
}

/// What is put for a subscriber.
#[derive(Drop)]
pub enum Notice {
    /// A view was installed.
    Change(View),
    /// A change was lost, for this reason.
    Lag(Loss),
    /// No more changes come.
    End,
}

/// Whether anything more can come.
#[derive(Clone, Copy, PartialEq, Eq, Debug)]
pub enum State {
    /// Changes come.
    Open,
    /// A change was lost.
    Lagged,
    /// No more changes come.
    Closed,
}

/// The order of notices: successive views, and then at most one mark.
pub struct Successive;

impl Order<Notice> for Successive {
    ghost use Rattle.rapid_desk.specs.Notices.{MayFollow};

    ghost next = { MayFollow };
}
