// Stamps, which stand for configurations.

ghost use Rattle.std.specs.Prelude.{◌≡◌};

use crate::ConfigId;
use std::marker::Model;

/// What stands for a configuration in a list of installed ones: its height, its identifier and its
/// number of members.
#[derive(Clone, Copy, Debug)]
pub struct Stamp {
    height: u64,
    id: ConfigId,
    members: usize,
}

impl Model for Stamp {
    ghost use Rattle.rapid_model.specs.Configuration.{Stamp as ModelStamp};

    ghost Value = { ModelStamp };

    ghost view = { λ s. record { height = s.height; id = s.id; members = s.members } };

    ghost inverse = { λ s. record { height = s.height; id = s.id; members = s.members } };
}

impl Stamp {
    /// The stamp of this height, identifier and number of members.
    pub fn new(height: u64, id: ConfigId, members: usize) -> Stamp
        ensures { result ≡ record { height = height; id = id; members = members } }
    {
        Stamp {
            height,
            id,
            members,
        }
    }

    /// The height of the configuration.
    pub fn height(&self) -> u64
        ensures { result ≡ self.now.height }
    {
        self.height
    }

    /// The identifier of the configuration.
    pub fn id(&self) -> ConfigId
        ensures { result ≡ self.now.id }
    {
        self.id
    }

    /// How many members the configuration has.
    pub fn members(&self) -> usize
        ensures { result ≡ self.now.members }
    {
        self.members
    }
}
