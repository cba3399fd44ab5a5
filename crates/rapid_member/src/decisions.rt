// The decisions of configurations that were left.

ghost use Rattle.std.specs.Prelude.{◌≡◌, ◌≤◌, ◌++◌, ◌∷◌, [], Some, length, IfOk, OnOk, OnErr};
ghost use Rattle.std.specs.Option.{option_copied};
ghost use Rattle.rapid_model.specs.Bytes.{ConfigurationId};
ghost use Rattle.rapid_model.specs.Cut.{Cut as ModelCut};
ghost use Rattle.rapid_model.specs.Limits.{kept_decisions};
ghost use Rattle.rapid_model.specs.NodeStep.{last_64};
ghost use Rattle.rapid_model.specs.Node.{outputs};
ghost use Rattle.rapid_model.specs.Receive as receive;

use crate::sending::answer;
use rapid_config::{ConfigId, Cut};
use rapid_endpoint::{Process, SharedProcess};
use rapid_message::{Body, Output};
use std::alloc::{AllocError, Global};
use std::marker::Model;
use std::sync::ArcSlice;

/// How many decisions are kept.
const KEPT_DECISIONS: usize = 64;

/// The last 64 configurations that were left, each with the cut decided there. Copies share one
/// list.
#[derive(Debug, Drop)]
pub struct Decisions {
    decided: ArcSlice<(ConfigId, Cut)>,
}

impl Model for Decisions {
    ghost use Rattle.std.specs.Prelude.{◌≤◌, length};
    ghost use Rattle.std.specs.Arc.{arc_slice_items};
    ghost use Rattle.rapid_model.specs.Node.{Decisions as ModelDecisions};
    ghost use Rattle.rapid_model.specs.Limits.{kept_decisions};

    ghost Value = { ModelDecisions };

    ghost view = { λ d. arc_slice_items d.decided };

    ghost invariant = { λ d. length (arc_slice_items d.decided) ≤ kept_decisions };
}

/// Equal decisions, with room for one more.
fn copy_all(
    alloc: Global,
    decisions: &[(ConfigId, Cut)],
) -> Result<Vec<(ConfigId, Cut)>, AllocError>
    ensures { IfOk result (λ copy. copy.items ≡ decisions.now) }
{
    let mut copy = Vec::new(alloc);
    for (id, cut) in decisions {
        copy.push((*id, cut.try_copy(alloc)?))?;
    }
    Ok(copy)
}

/// The decisions that stay if one more is kept: all but the first if there is no room for it.
fn staying(decisions: &[(ConfigId, Cut)]) -> &[(ConfigId, Cut)]
    requires { length decisions.now ≤ kept_decisions }
    ensures { (more : ConfigurationId × ModelCut) → result.now ++ more ∷ [] ≡ last_64 (decisions.now ++ more ∷ []) }
{
    if decisions.len() == KEPT_DECISIONS {
        &decisions[1..]
    } else {
        decisions
    }
}

impl Decisions {
    /// No decision.
    pub fn new(alloc: Global) -> Result<Decisions, AllocError>
        ensures { IfOk result (λ d. d ≡ []) }
    {
        let decided = ArcSlice::from_vec(Vec::new(alloc))?;
        Ok(Decisions { decided })
    }

    /// The decisions with one more, of which the last 64 are kept.
    pub fn with(&self, alloc: Global, id: ConfigId, cut: Cut) -> Result<Decisions, AllocError>
        ensures { IfOk result (λ d. d ≡ last_64 (self.now ++ (id, cut) ∷ [])) }
    {
        let mut kept = copy_all(alloc, staying(self.decided.as_slice()))?;
        kept.push((id, cut))?;
        let decided = ArcSlice::from_vec(kept)?;
        Ok(Decisions { decided })
    }

    /// The cut decided in a configuration that was left, as far as it is kept.
    fn decided_in(&self, id: ConfigId) -> Option<&Cut>
        ensures { option_copied result ≡ receive.decided_in self.now id }
    {
        let found = self
            .decided
            .as_slice()
            .iter()
            .find(|decision| id == decision.0)?;
        Some(&found.1)
    }

    /// Answers a message about a configuration that was left. If out of memory it sends nothing.
    pub fn catch_up(
        &self,
        alloc: Global,
        out: &mut Vec<Output>,
        me: &SharedProcess,
        from: &Process,
        id: ConfigId,
    ) -> Result<(), AllocError>
        ensures said { OnOk result (out.new.items ≡ out.old.items ++ outputs me.now (receive.catch_up self.now from.now (Some id))) }
        ensures unchanged { OnErr result (out.new.items ≡ out.old.items) }
    {
        match self.decided_in(id) {
            Some(cut) => answer(out, me, from, Body::Decision(id, cut.try_copy(alloc)?)),
            None => Ok(()),
        }
    }

    /// Equal decisions, which share the list.
    pub fn try_copy(&self) -> Result<Decisions, AllocError>
        ensures { IfOk result (λ d. d ≡ self.now) }
    {
        let decided = self.decided.clone()?;
        Ok(Decisions { decided })
    }
}
