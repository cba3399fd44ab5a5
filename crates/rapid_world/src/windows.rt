// The probe windows of a peer.

ghost use Rattle.std.specs.Prelude.{◌≡◌};
ghost use Rattle.rapid_world.specs.Windows.{entered, left};

use rapid_monitor::Monitors;

/// The probe windows of a peer. They are made when its first probe in a configuration comes.
#[derive(Drop)]
pub(crate) enum Windows {
    /// As they are when its node enters a configuration.
    Fresh,
    /// As they were when its node halted, a member or not.
    Left(bool),
    /// With the results of probes.
    Kept(Monitors),
}

impl Windows {
    /// Its node entered a configuration, if it did.
    pub(crate) fn enter(&mut self, has_entered: bool)
        ensures { self.new ≡ entered has_entered self.old }
    {
        if has_entered {
            *self = Windows::Fresh;
        }
    }

    /// Its node halts, which was a member or not.
    pub(crate) fn leave(&mut self, was_member: bool)
        ensures { self.new ≡ left was_member self.old }
    {
        if let Windows::Fresh = self {
            *self = Windows::Left(was_member);
        }
    }
}
