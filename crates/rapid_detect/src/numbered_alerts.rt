// Alerts whose processes are named by their numbers.

ghost use Rattle.std.specs.Prelude.{◌≡◌, map, replicate};
ghost use Rattle.rapid_detect.specs.Numbers.{alert_in};

use rapid_alerts::{AlertRef, Kind};
use rapid_config::ConfigId;
use rapid_cut::{InTurn, Turn};
use rapid_text::numbered_ref;

/// An alert in the configuration of a table of edges. Its processes are named by their numbers.
#[derive(Clone, Copy, Debug)]
pub struct NumberedAlert {
    pub kind: Kind,
    pub ring: u8,
    pub observer: u16,
    pub subject: u16,
}

/// Such alerts, and the identifier of their configuration, which they share.
#[derive(Debug, Drop)]
pub struct NumberedAlerts<'a> {
    alerts: &'a [NumberedAlert],
    config: ConfigId,
}

impl<'a> NumberedAlerts<'a> {
    /// These alerts.
    pub fn new(alerts: &'a [NumberedAlert]) -> NumberedAlerts<'a>
        ensures alerts { result.alerts.now ≡ alerts.now }
        ensures config { result.config ≡ replicate 32 0 }
    {
        NumberedAlerts {
            alerts,
            config: ConfigId::zero(),
        }
    }
}

impl InTurn for NumberedAlerts<'_> {
    ghost alerts = { λ each. map (alert_in each.config) each.alerts.now };

    fn count(&self) -> usize {
        self.alerts.len()
    }

    fn at(&self, place: usize) -> Turn<'_> {
        let alert = &self.alerts[place];
        Turn {
            alert: AlertRef {
                observer: numbered_ref(alert.observer),
                subject: numbered_ref(alert.subject),
                ring: alert.ring,
                kind: alert.kind,
                config: &self.config,
            },
            kept: None,
        }
    }
}
