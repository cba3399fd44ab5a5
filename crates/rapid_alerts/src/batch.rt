// Batches: the alerts that go out together.

ghost use Rattle.std.specs.Prelude.{◌≡◌, ◌≤◌, ◌++◌, None, All, length, map, IfOk, IfErr, OnOk};
ghost use Rattle.std.specs.List.{list_all};
ghost use Rattle.rapid_model.specs.Batch.{batch_fault, is_alike};
ghost use Rattle.rapid_model.specs.Limits.{most_alerts};
ghost use Rattle.rapid_alerts.specs.Alerts.{alert_of, alerts_in};
ghost use Rattle.rapid_alerts.specs.Refusals.{Reports, ReportsIfAny};

use crate::{Alert, AlertList, BatchError};
use rapid_config::ConfigId;
use rapid_endpoint::{Process, SharedProcess};
use std::alloc::{AllocError, Global};
use std::marker::Model;
use std::sync::Arc;

/// A batch: 1 to 2,048 alerts of one observer and one configuration. Copies share one list.
#[derive(Debug, Drop)]
pub struct Batch {
    alerts: Arc<AlertList>,
}

impl Model for Batch {
    ghost use Rattle.std.specs.Prelude.{◌≡◌, None};
    ghost use Rattle.std.specs.Arc.{arc_value};
    ghost use Rattle.rapid_model.specs.Batch.{Batch as ModelBatch, batch_fault};
    ghost use Rattle.rapid_alerts.specs.Alerts.{alerts_in};

    ghost Value = { ModelBatch };

    ghost view = { λ b. alerts_in (arc_value b.alerts) };

    ghost invariant = { λ b. batch_fault (alerts_in (arc_value b.alerts)) ≡ None };
}

/// Whether two alerts are of one observer and one configuration.
fn are_alike(first: &Alert, other: &Alert) -> bool
    ensures { result ≡ is_alike (alert_of first.now) (alert_of other.now) }
{
    other.observer == first.observer && other.config == first.config
}

/// Whether these alerts are of the first one's observer and configuration.
fn all_alike(first: &Alert, others: &[Alert]) -> bool
    ensures { result ≡ list_all (λ other. is_alike (alert_of first.now) (alert_of other)) others.now }
{
    others.iter().all(|other| are_alike(first, other))
}

/// Why these alerts are no batch.
fn fault(alerts: &[Alert]) -> Option<BatchError>
    ensures { ReportsIfAny (batch_fault (map alert_of alerts.now)) result }
{
    let Some((first, others)) = alerts.split_first() else {
        return Some(BatchError::EmptyBatch);
    };
    if alerts.len() > Batch::MOST {
        Some(BatchError::TooManyAlerts)
    } else if all_alike(first, others) {
        None
    } else {
        Some(BatchError::MixedAlerts)
    }
}

/// Why the alerts of a list are no batch.
#[tactic(auto, using(crate::proofs::Batches::listed_fits))]
fn list_fault(alerts: &AlertList) -> Option<BatchError>
    ensures { ReportsIfAny (batch_fault (alerts_in alerts.now)) result }
{
    let count = alerts.len();
    if count == 0 {
        Some(BatchError::EmptyBatch)
    } else if Batch::MOST < count {
        Some(BatchError::TooManyAlerts)
    } else {
        None
    }
}

/// Adds alerts of a list's observer and configuration to it.
fn push_all(list: &mut AlertList, alerts: &[Alert]) -> Result<(), AllocError>
    requires { All (λ a. (a.observer ≡ list.old.observer) × (a.config ≡ list.old.config)) alerts.now }
    ensures { OnOk result (alerts_in list.new ≡ alerts_in list.old ++ map alert_of alerts.now) }
{
    for alert in alerts {
        list.push(&alert.subject, alert.ring, alert.kind)?;
    }
    Ok(())
}

/// A list of alerts that are a batch.
fn listed(alloc: Global, alerts: &[Alert]) -> Result<AlertList, AllocError>
    requires { batch_fault (map alert_of alerts.now) ≡ None }
    ensures { IfOk result (λ list. alerts_in list ≡ map alert_of alerts.now) }
{
    let first = &alerts[0];
    let observer = SharedProcess::new(alloc, &first.observer)?;
    let mut list = AlertList::new(alloc, observer, first.config);
    push_all(&mut list, alerts)?;
    Ok(list)
}

impl Batch {
    /// The most alerts of a batch.
    pub const MOST: usize = 2048;

    /// The batch of these alerts. The first of these that holds is the error. `EmptyBatch` if there
    /// is none, `TooManyAlerts` if there are more than 2,048. `MixedAlerts` if two are of different
    /// observers or of different configurations. `OutOfMemory` comes only if none of them holds.
    pub fn new(alloc: Global, alerts: &[Alert]) -> Result<Batch, BatchError>
        ensures value { IfOk result (λ batch. batch ≡ map alert_of alerts.now) }
        ensures allowed { OnOk result (batch_fault (map alert_of alerts.now) ≡ None) }
        ensures refused { IfErr result (Reports (batch_fault (map alert_of alerts.now))) }
    {
        match fault(alerts) {
            Some(error) => Err(error),
            None => Ok(Batch::of(alloc, listed(alloc, alerts)?)?),
        }
    }

    /// The batch of the alerts of a list. The error is `EmptyBatch` if there is none and
    /// `TooManyAlerts` if there are more than 2,048. `OutOfMemory` comes only if neither holds.
    pub fn of_list(alloc: Global, alerts: AlertList) -> Result<Batch, BatchError>
        ensures value { IfOk result (λ batch. batch ≡ alerts_in alerts) }
        ensures allowed { OnOk result (batch_fault (alerts_in alerts) ≡ None) }
        ensures refused { IfErr result (Reports (batch_fault (alerts_in alerts))) }
    {
        match list_fault(&alerts) {
            Some(error) => Err(error),
            None => Ok(Batch::of(alloc, alerts)?),
        }
    }

    /// The batch of alerts that are one.
    pub(crate) fn of(alloc: Global, alerts: AlertList) -> Result<Batch, AllocError>
        requires { batch_fault (alerts_in alerts) ≡ None }
        ensures { IfOk result (λ batch. batch ≡ alerts_in alerts) }
    {
        let alerts = Arc::new(alloc, alerts)?;
        Ok(Batch { alerts })
    }

    /// The alerts, 1 to 2,048 of them.
    pub fn alerts(&self) -> &AlertList
        ensures value { alerts_in result.now ≡ self.now }
        ensures valid { batch_fault self.now ≡ None }
        ensures some { 1 ≤ length (alerts_in result.now) }
        ensures few { length (alerts_in result.now) ≤ most_alerts }
    {
        &self.alerts
    }

    /// The observer of all alerts.
    pub fn observer(&self) -> &Process
        ensures { All (λ a. a.observer ≡ result.now) self.now }
    {
        self.alerts().observer()
    }

    /// The identifier of the configuration of all alerts.
    pub fn config(&self) -> ConfigId
        ensures { All (λ a. a.config ≡ result) self.now }
    {
        self.alerts().config()
    }

    /// An equal batch, which shares the list of alerts.
    pub fn try_copy(&self, _alloc: Global) -> Result<Batch, AllocError>
        ensures { IfOk result (λ batch. batch ≡ self.now) }
    {
        let alerts = self.alerts.clone()?;
        Ok(Batch { alerts })
    }
}
