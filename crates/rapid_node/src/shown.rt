// The current configuration of a node.

ghost use Rattle.std.specs.Prelude.{◌≡◌, None, Some, IfOk};
ghost use Rattle.std.specs.Arc.{arc_value};
ghost use Rattle.std.specs.Option.{option_map};

use rapid_config::Configuration;
use std::alloc::{AllocError, Global};
use std::marker::Model;
use std::sync::Arc;

/// The current configuration of a node, if any. Copies share it.
#[derive(Debug, Drop)]
pub(crate) struct Shown {
    configuration: Option<Arc<Configuration, Global>>,
}

impl Model for Shown {
    ghost use Rattle.std.specs.Prelude.{Option};
    ghost use Rattle.std.specs.Arc.{arc_value};
    ghost use Rattle.std.specs.Coded.{coded_option};
    ghost use Rattle.std.specs.Option.{option_map};
    ghost use Rattle.rapid_model.specs.Configuration.{Configuration as ModelConfiguration};
    ghost use Rattle.rapid_join.specs.Hosts.{configuration_code};

    ghost Value = { Option ModelConfiguration };

    ghost coded = { coded_option configuration_code };

    ghost view = { λ s. option_map (λ c. arc_value c) s.configuration };
}

impl Shown {
    /// Nothing is shown.
    pub(crate) fn nothing() -> Shown
        ensures { result ≡ None }
    {
        Shown {
            configuration: None,
        }
    }

    /// This configuration is shown, and shared.
    pub(crate) fn share_of(configuration: &Arc<Configuration, Global>) -> Result<Shown, AllocError>
        ensures { IfOk result (λ shown. shown ≡ Some (arc_value configuration.now)) }
    {
        let configuration = Some(Arc::try_clone(configuration)?);
        Ok(Shown { configuration })
    }

    /// The configuration.
    pub(crate) fn get(&self) -> Option<&Configuration>
        ensures { option_map (λ c. c.now) result ≡ self.now }
    {
        match &self.configuration {
            Some(configuration) => Some(&**configuration),
            None => None,
        }
    }

    /// The configuration, shared.
    pub(crate) fn share(&self) -> Result<Option<Arc<Configuration, Global>>, AllocError>
        ensures { IfOk result (λ shared. option_map (λ c. arc_value c) shared ≡ self.now) }
    {
        match &self.configuration {
            Some(configuration) => Ok(Some(Arc::try_clone(configuration)?)),
            None => Ok(None),
        }
    }

    /// Another owner of the same configuration, which is shared.
    pub(crate) fn try_copy(&self) -> Result<Shown, AllocError>
        ensures { IfOk result (λ shown. shown ≡ self.now) }
    {
        let configuration = self.share()?;
        Ok(Shown { configuration })
    }
}
