// Views.

ghost use Rattle.std.specs.Prelude.{◌≡◌, IfOk};
ghost use Rattle.rapid_model.specs.Configuration.{IsConfiguration, stamp};

use rapid_config::{Configuration, Stamp};
use std::alloc::{AllocError, Global};
use std::marker::Model;

/// A view: the configuration that a process has installed.
#[derive(Debug, Drop)]
pub struct View {
    configuration: Configuration,
}

impl Model for View {
    ghost use Rattle.rapid_model.specs.Configuration.{Configuration as ModelConfiguration};

    ghost Value = { ModelConfiguration };

    ghost view = { λ v. v.configuration };

    ghost inverse = { λ c. record { configuration = c } };
}

impl View {
    /// The view of this configuration.
    pub fn new(configuration: Configuration) -> View
        ensures { result ≡ configuration }
    {
        View { configuration }
    }

    /// The configuration.
    pub fn configuration(&self) -> &Configuration
        ensures { result.now ≡ self.now }
    {
        &self.configuration
    }

    /// The configuration, without the view.
    pub fn into_configuration(self) -> Configuration
        ensures { result ≡ self }
    {
        let View { configuration } = self;
        configuration
    }

    /// An equal view, which shares the list of members.
    pub fn try_copy(&self, alloc: Global) -> Result<View, AllocError>
        ensures { IfOk result (λ view. view ≡ self.now) }
    {
        Ok(View::new(self.configuration.try_copy(alloc)?))
    }

    /// What stands for the view in the published list: the stamp of its configuration.
    pub fn stamp(&self) -> Stamp
        ensures { result ≡ stamp self.now }
    {
        self.configuration.stamp()
    }

    /// The value is a configuration. It does nothing: what it ensures is for proofs.
    #[inline(always)]
    pub fn tell(&self)
        ensures { IsConfiguration self.now }
    {
        self.configuration.tell();
    }
}
