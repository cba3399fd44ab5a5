//! Parameters, cuts and configurations.
#![tactic(auto)]

mod config_id;
mod configuration;
mod cut;
mod endpoint_key;
mod endpoints;
mod error;
mod joining;
mod members;
mod params;
mod reading;
mod references;
mod seen;
mod spelling;
mod stamp;
mod told;

pub use config_id::ConfigId;
pub use configuration::Configuration;
pub use cut::Cut;
pub use endpoint_key::EndpointKey;
pub use error::ConfigError;
pub use params::Params;
pub use stamp::Stamp;
