// Views that the nodes of one process share.

ghost use Rattle.std.specs.Prelude.{◌≡◌, ◌<◌, ◌-◌, ◌^◌, [], true, length, slice_get, IfOk, IfSome};
ghost use Rattle.std.specs.Option.{option_map};
ghost use Rattle.std.specs.Arc.{arc_value};
ghost use Rattle.rapid_model.specs.Apply.{apply};
ghost use Rattle.rapid_node.specs.Views.{LeadsTo};

use rapid_config::{ConfigError, ConfigId, Configuration, Cut, Params};
use rapid_endpoint::Process;
use rapid_join::HostTables;
use rapid_member::MemberState;
use std::alloc::{AllocError, Global};
use std::marker::Model;
use std::sync::Arc;

/// Whether two identifiers are the same.
fn is_same_id(a: ConfigId, b: ConfigId) -> bool
    ensures { result ≡ true → a ≡ b }
{
    a == b
}

/// Whether two lists have the same processes in the same order.
fn are_same(a: &[Process], b: &[Process]) -> bool
    ensures { result ≡ true → a.now ≡ b.now }
{
    a == b
}

/// Whether two cuts are the same.
fn is_same_cut(a: &Cut, b: &Cut) -> bool
    ensures { result ≡ true → a.now ≡ b.now }
{
    a == b
}

/// Whether two parameters are the same.
#[tactic(auto, using(crate::proofs::Viewing::same_params))]
fn are_same_params(a: Params, b: Params) -> bool
    ensures { result ≡ true → a ≡ b }
{
    a.k() == b.k() && a.h() == b.h() && a.l() == b.l()
}

/// Whether two configurations are the same. If the identifiers differ, they are not.
#[tactic(auto, using(crate::proofs::Viewing::same_configuration))]
fn is_same(a: &Configuration, b: &Configuration) -> bool
    ensures { result ≡ true → a.now ≡ b.now }
{
    if !is_same_id(a.id(), b.id()) {
        return false;
    }
    if !are_same_params(a.params(), b.params()) || a.height() != b.height() {
        return false;
    }
    is_same_id(a.previous(), b.previous()) && are_same(a.members(), b.members())
}

/// The configuration that a cut makes.
fn apply_cut(
    alloc: Global,
    configuration: &Configuration,
    cut: &Cut,
) -> Result<Configuration, AllocError>
    requires { configuration.now.height < 2 ^ 64 - 1 }
    ensures { IfOk result (λ next. next ≡ apply configuration.now cut.now) }
{
    match configuration.apply(alloc, cut) {
        Ok(next) => Ok(next),
        Err(ConfigError::OutOfMemory) => Err(AllocError),
        Err(_) => unreachable!(),
    }
}

/// A configuration with what is looked up in it, both shared.
#[derive(Debug, Drop)]
pub(crate) struct ViewWithTables {
    configuration: Arc<Configuration, Global>,
    tables: HostTables,
}

impl Model for ViewWithTables {
    ghost use Rattle.std.specs.Prelude.{◌≡◌};
    ghost use Rattle.std.specs.Arc.{arc_value};
    ghost use Rattle.rapid_model.specs.Configuration.{Configuration as ModelConfiguration};

    ghost Value = { ModelConfiguration };

    ghost view = { λ v. arc_value v.configuration };

    ghost invariant = { λ v. v.tables ≡ arc_value v.configuration };
}

impl ViewWithTables {
    /// The view of a configuration, whose tables are computed.
    fn of(alloc: Global, configuration: &Configuration) -> Result<ViewWithTables, AllocError>
        ensures { IfOk result (λ view. view ≡ configuration.now) }
    {
        let tables = HostTables::new(alloc, configuration)?;
        let configuration = Arc::new(alloc, configuration.try_copy(alloc)?)?;
        Ok(ViewWithTables {
            configuration,
            tables,
        })
    }

    /// The view after a member's by a cut: keys of rings are computed of newcomers only.
    fn after(alloc: Global, before: &MemberState, cut: &Cut) -> Result<ViewWithTables, AllocError>
        requires { before.now.config.height < 2 ^ 64 - 1 }
        ensures { IfOk result (λ view. view ≡ apply before.now.config cut.now) }
    {
        let next = apply_cut(alloc, before.configuration(), cut)?;
        let tables = HostTables::after(alloc, before.rings(), &next)?;
        let configuration = Arc::new(alloc, next)?;
        Ok(ViewWithTables {
            configuration,
            tables,
        })
    }

    /// The configuration.
    pub(crate) fn configuration(&self) -> &Arc<Configuration, Global>
        ensures { arc_value result.now ≡ self.now }
    {
        &self.configuration
    }

    /// What is looked up in the configuration.
    pub(crate) fn tables(&self) -> &HostTables
        ensures { result.now ≡ self.now }
    {
        &self.tables
    }

    /// The same view, shared.
    fn share(&self) -> Result<ViewWithTables, AllocError>
        ensures { IfOk result (λ view. view ≡ self.now) }
    {
        let configuration = Arc::try_clone(&self.configuration)?;
        let tables = self.tables.try_copy()?;
        Ok(ViewWithTables {
            configuration,
            tables,
        })
    }
}

/// A view, and the configuration and the cut that led to it, if any did.
#[derive(Debug, Drop)]
struct KeptView {
    before: Option<(Configuration, Cut)>,
    view: ViewWithTables,
}

impl Model for KeptView {
    ghost use Rattle.rapid_model.specs.Configuration.{Configuration as ModelConfiguration};
    ghost use Rattle.rapid_node.specs.Views.{LeadsTo};

    ghost Value = { ModelConfiguration };

    ghost view = { λ k. k.view };

    ghost invariant = { λ k. LeadsTo k.before k.view };
}

impl KeptView {
    /// Whether it is the view after this configuration by this cut.
    fn is_after(&self, before: &Configuration, cut: &Cut) -> bool
        ensures { result ≡ true → self.now ≡ apply before.now cut.now }
    {
        match &self.before {
            Some((from, by)) => { is_same_cut(by, cut) && is_same(from, before) }
            None => false,
        }
    }

    /// Whether it is the view of this configuration.
    fn is_of(&self, configuration: &Configuration) -> bool
        ensures { result ≡ true → self.now ≡ configuration.now }
    {
        is_same(&**self.view.configuration(), configuration)
    }

    /// The configuration of the view.
    fn configuration(&self) -> &Configuration
        ensures { result.now ≡ self.now }
    {
        self.view.configuration()
    }

    /// The view, shared.
    fn share(&self) -> Result<ViewWithTables, AllocError>
        ensures { IfOk result (λ view. view ≡ self.now) }
    {
        self.view.share()
    }
}

/// The views that the nodes of one process entered last. A view is looked up by its configuration,
/// or by the configuration before it and the cut, all compared as values. The first node that
/// enters a view computes it, and the others share it. What it holds is never wrong and changes no
/// step: a store that is empty, full or another node's costs time alone.
#[derive(Debug, Drop)]
pub struct Views {
    // the newest last
    kept: Vec<KeptView>,
    most: usize,
    alloc: Global,
}

impl Model for Views {
    ghost use Rattle.std.specs.Prelude.{List};
    ghost use Rattle.rapid_model.specs.Configuration.{Configuration as ModelConfiguration};

    ghost Value = { List ModelConfiguration };

    ghost view = { λ v. v.kept.items };
}

impl Views {
    /// No view. At most `most` are kept at a time; the oldest is forgotten for a new one.
    pub fn new(alloc: Global, most: usize) -> Views
        ensures { result ≡ [] }
    {
        Views {
            kept: Vec::new(alloc),
            most,
            alloc,
        }
    }

    /// The configuration of the view that was entered last; none if no view is kept.
    pub fn newest(&self) -> Option<&Configuration>
        ensures { option_map (λ c. c.now) result ≡ slice_get self.now (length self.now - 1) }
    {
        match self.kept.last() {
            Some(kept) => Some(kept.configuration()),
            None => None,
        }
    }

    /// The view of a configuration.
    pub(crate) fn of(&mut self, configuration: &Configuration) -> Result<ViewWithTables, AllocError>
        ensures { IfOk result (λ view. view ≡ configuration.now) }
    {
        if let Some(view) = found(self.kept.as_slice(), configuration)? {
            return Ok(view);
        }
        let view = ViewWithTables::of(self.alloc, configuration)?;
        self.keep(None, &view)?;
        Ok(view)
    }

    /// The view after a member's by a cut.
    pub(crate) fn after(
        &mut self,
        before: &MemberState,
        cut: &Cut,
    ) -> Result<ViewWithTables, AllocError>
        requires { before.now.config.height < 2 ^ 64 - 1 }
        ensures { IfOk result (λ view. view ≡ apply before.now.config cut.now) }
    {
        if let Some(view) = found_after(self.kept.as_slice(), before.configuration(), cut)? {
            return Ok(view);
        }
        let view = ViewWithTables::after(self.alloc, before, cut)?;
        let configuration = before.configuration().try_copy(self.alloc)?;
        let cut = cut.try_copy(self.alloc)?;
        self.keep(Some((configuration, cut)), &view)?;
        Ok(view)
    }

    /// Keeps a view, with what led to it, if any are kept.
    fn keep(
        &mut self,
        before: Option<(Configuration, Cut)>,
        view: &ViewWithTables,
    ) -> Result<(), AllocError>
        requires { LeadsTo before view.now }
    {
        if self.most == 0 {
            return Ok(());
        }
        if self.kept.len() >= self.most {
            let _ = self.kept.remove(0);
        }
        let view = view.share()?;
        self.kept.push(KeptView { before, view })?;
        Ok(())
    }
}

/// The view of a configuration among these.
fn found(
    kept: &[KeptView],
    configuration: &Configuration,
) -> Result<Option<ViewWithTables>, AllocError>
    ensures { IfOk result (λ found. IfSome found (λ view. view ≡ configuration.now)) }
{
    for entry in kept {
        if entry.is_of(configuration) {
            return Ok(Some(entry.share()?));
        }
    }
    Ok(None)
}

/// The view after a configuration by a cut among these.
fn found_after(
    kept: &[KeptView],
    before: &Configuration,
    cut: &Cut,
) -> Result<Option<ViewWithTables>, AllocError>
    ensures { IfOk result (λ found. IfSome found (λ view. view ≡ apply before.now cut.now)) }
{
    for entry in kept {
        if entry.is_after(before, cut) {
            return Ok(Some(entry.share()?));
        }
    }
    Ok(None)
}
