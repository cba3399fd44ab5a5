// Alerts that are taken one after another, however they are kept.

ghost use Rattle.std.specs.Prelude.{◌≡◌, ◌<◌, List, Some, length, map, slice_get, IfSome};
ghost use Rattle.rapid_model.specs.Alert.{Alert as ModelAlert};
ghost use Rattle.rapid_alerts.specs.Alerts.{alert_of, alert_of_ref, alerts_in};

use rapid_alerts::{Alert, AlertList, AlertRef};
use rapid_endpoint::KeptProcess;

/// One of some alerts, and its subject if that is kept already.
#[derive(Debug, Drop)]
pub struct Turn<'a> {
    /// The alert.
    pub alert: AlertRef<'a>,
    /// Its subject, which a detector then shares in place of keeping a copy.
    pub kept: Option<&'a KeptProcess>,
}

/// Alerts in order, however they are kept. A detector takes them by
/// [`Detector::batch_in_turn`](crate::Detector::batch_in_turn).
pub trait InTurn {
    /// The alerts, however they are kept.
    ghost alerts: { Self → List ModelAlert };

    /// How many there are.
    fn count(&self) -> usize
        ensures { result ≡ length (alerts self.now) };

    /// An alert, by its place from 0.
    fn at(&self, place: usize) -> Turn<'_>
        requires { place < length (alerts self.now) }
        ensures alert { slice_get (alerts self.now) place ≡ Some (alert_of_ref result.alert) }
        ensures kept { IfSome result.kept (λ kept. kept.now ≡ result.alert.subject) };
}

/// Alerts of any observers and configurations, one by one.
#[derive(Clone, Copy)]
pub struct EachAlert<'a> {
    pub alerts: &'a [Alert],
}

impl InTurn for EachAlert<'_> {
    ghost alerts = { λ each. map alert_of each.alerts.now };

    fn count(&self) -> usize {
        self.alerts.len()
    }

    fn at(&self, place: usize) -> Turn<'_> {
        let alert = &self.alerts[place];
        Turn {
            alert: AlertRef {
                observer: alert.observer.as_ref(),
                subject: alert.subject.as_ref(),
                ring: alert.ring,
                kind: alert.kind,
                config: &alert.config,
            },
            kept: None,
        }
    }
}

impl InTurn for AlertList {
    ghost alerts = { alerts_in };

    fn count(&self) -> usize {
        self.len()
    }

    #[inline(always)]
    fn at(&self, place: usize) -> Turn<'_> {
        Turn {
            alert: self.alert_ref(place),
            kept: Some(self.subject(place)),
        }
    }
}
