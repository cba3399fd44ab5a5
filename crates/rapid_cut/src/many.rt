// Masks of many processes.

ghost use Rattle.std.specs.Prelude.{◌≡◌, ◌++◌, ◌∷◌, [], true, false, None, is_some, position, IfOk, OnOk, OnErr};
ghost use Rattle.std.specs.Arc.{arc_value};
ghost use Rattle.rapid_model.specs.Process.{Process as Bytes, is_in, same_bytes};
ghost use Rattle.rapid_roster.specs.Once.{StandOnce};
ghost use Rattle.rapid_cut.specs.Growing.{TakesOut};
ghost use Rattle.rapid_cut.specs.Known.{known_in};
ghost use Rattle.rapid_cut.specs.Listed.{masks_at, PutsMasks};

use crate::bare::{Bare, kept};
use crate::few::share_all;
use crate::mask::Masks;
use rapid_endpoint::{KeptProcess, ProcessRef};
use rapid_roster::Roster;
use std::alloc::{AllocError, Global};
use std::marker::Model;
use std::sync::Arc;

/// The masks of processes that are too many for a list that is searched from its front. They are
/// seldom needed, so what is done with them stands apart. Copies share the processes, until there is
/// one more in one of them.
#[derive(Debug, Drop)]
pub struct Many {
    subjects: Arc<Roster, Global>,
    /// by the subject's place
    masks: Vec<Masks>,
}

impl Model for Many {
    ghost use Rattle.std.specs.Prelude.{◌≡◌, List, length, zip};
    ghost use Rattle.std.specs.Arc.{arc_value};
    ghost use Rattle.rapid_model.specs.Process.{Process as ModelProcess};
    ghost use Rattle.rapid_cut.specs.declared.mask.Masks.{Masks};

    ghost Value = { List (ModelProcess × Masks) };

    ghost view = { λ m. zip (arc_value m.subjects) m.masks.items };

    ghost invariant = { λ m. length m.masks.items ≡ length (arc_value m.subjects) };
}

/// The place of a process, if it is there. No process stands there twice.
#[inline(always)]
fn find_in(roster: &Arc<Roster, Global>, process: &ProcessRef<'_>) -> Option<usize>
    ensures found { result ≡ position (same_bytes process.now) (arc_value roster.now) }
    ensures once { StandOnce (arc_value roster.now) }
{
    roster.tell();
    roster.find(process)
}

/// Adds a process that is not there. If the roster is shared, a copy of it has the process.
fn push_shared(roster: &mut Arc<Roster, Global>, process: KeptProcess) -> Result<(), AllocError>
    requires { is_in (arc_value roster.old) process ≡ false }
    ensures pushed { OnOk result (arc_value roster.new ≡ arc_value roster.old ++ process ∷ []) }
    ensures unchanged { OnErr result (arc_value roster.new ≡ arc_value roster.old) }
{
    Arc::make_mut(roster)?.push(process)
}

impl Many {
    /// The masks that these lists have, one behind the other.
    #[inline(never)]
    pub fn new(
        alloc: Global,
        bare: &[(Bare, Masks)],
        few: &[(KeptProcess, Masks)],
    ) -> Result<Many, AllocError>
        ensures { IfOk result (λ many. (q : Bytes) → masks_at many q ≡ masks_at (bare.now ++ few.now) q) }
    {
        let mut all = kept(alloc, bare)?;
        share_all(&mut all, few)?;
        Many::of(alloc, all.as_slice())
    }

    /// Nobody has masks.
    fn none(alloc: Global) -> Result<Many, AllocError>
        ensures { IfOk result (λ many. many ≡ []) }
    {
        Ok(Many {
            subjects: Arc::new(alloc, Roster::new(alloc))?,
            masks: Vec::new(alloc),
        })
    }

    /// The masks that the list has.
    fn of(alloc: Global, entries: &[(KeptProcess, Masks)]) -> Result<Many, AllocError>
        ensures { IfOk result (λ many. (q : Bytes) → masks_at many q ≡ masks_at entries.now q) }
    {
        let mut many = Many::none(alloc)?;
        for (subject, masks) in entries {
            many.put_first(subject, *masks)?;
        }
        Ok(many)
    }

    /// The masks of the process, if it has some.
    #[inline(never)]
    pub fn masks_of(&self, subject: &ProcessRef<'_>) -> Option<Masks>
        ensures { result ≡ masks_at self.now subject.now }
    {
        match find_in(&self.subjects, subject) {
            Some(place) => Some(self.masks[place]),
            None => None,
        }
    }

    /// Adds the masks of a process that has none.
    fn push(&mut self, subject: KeptProcess, masks: Masks) -> Result<(), AllocError>
        requires { masks_at self.old subject ≡ None }
        ensures pushed { OnOk result (self.new ≡ self.old ++ (subject, masks) ∷ []) }
        ensures unchanged { OnErr result (self.new ≡ self.old) }
    {
        self.masks.reserve(1)?;
        push_shared(&mut self.subjects, subject)?;
        self.masks.push_reserved(masks);
        Ok(())
    }

    /// Adds the masks of a process, unless it has some.
    fn put_first(&mut self, subject: &KeptProcess, masks: Masks) -> Result<(), AllocError>
        ensures there { OnOk result (is_some (masks_at self.old subject.now) ≡ true → self.new ≡ self.old) }
        ensures added { OnOk result (is_some (masks_at self.old subject.now) ≡ false → PutsMasks subject.now masks self.old self.new) }
    {
        match self.masks_of(&subject.as_ref()) {
            Some(_) => Ok(()),
            None => {
                self.push(subject.try_copy()?, masks)?;
                Ok(())
            }
        }
    }

    /// Puts these masks of the process in the place of those that it has. If it is kept with tags, it
    /// is shared.
    #[inline(never)]
    pub fn put(&mut self, subject: &KeptProcess, masks: Masks) -> Result<(), AllocError>
        ensures put { OnOk result (PutsMasks subject.now masks self.old self.new) }
        ensures unchanged { OnErr result (self.new ≡ self.old) }
    {
        match find_in(&self.subjects, &subject.as_ref()) {
            Some(place) => {
                self.masks[place] = masks;
                Ok(())
            }
            None => {
                self.push(subject.try_copy()?, masks)?;
                Ok(())
            }
        }
    }

    /// Takes these rings out of the masks of the process. That needs no memory.
    #[inline(never)]
    pub fn take_out(&mut self, subject: &ProcessRef<'_>, rings: Masks)
        ensures direct { TakesOut subject.now rings.direct (known_in self.old).direct (known_in self.new).direct }
        ensures all { TakesOut subject.now rings.all (known_in self.old).all (known_in self.new).all }
    {
        match find_in(&self.subjects, subject) {
            Some(place) => self.masks[place] = self.masks[place].without(rings),
            None => {}
        }
    }

    /// The same masks.
    #[inline(never)]
    pub fn try_copy(&self, alloc: Global) -> Result<Box<Many>, AllocError>
        ensures { IfOk result (λ copy. copy.value ≡ self.now) }
    {
        let copy = Many {
            subjects: Arc::try_clone(&self.subjects)?,
            masks: self.masks.clone()?,
        };
        Ok(Box::new(alloc, copy)?)
    }
}
