// What is asked of rings and tables alike.

ghost use Rattle.std.specs.Prelude.{◌≡◌, false};
ghost use Rattle.rapid_model.specs.Ring.{Observers, AreObservers, observes};
ghost use Rattle.rapid_rings.specs.Observing.{ObservesNobody, NoneObservesItself};

use rapid_config::{ConfigId, Params};
use rapid_endpoint::{Process, ProcessRef};

/// Who observes whom in one configuration.
pub trait ObserverTable {
    ghost observers: { Self → Observers };

    /// The number of rings and the two marks. A caller learns here that the rules of observers
    /// hold. The parameters are in order, there is no observer beyond the rings, and at most 1,024
    /// members have one.
    fn params(&self) -> Params
        ensures value { result ≡ (observers self.now).params }
        ensures rules { AreObservers (observers self.now) };

    /// The identifier of the configuration.
    fn id(&self) -> ConfigId
        ensures { result ≡ (observers self.now).id };

    /// Whether the process is a member.
    fn is_member(&self, process: &Process) -> bool
        ensures { result ≡ (observers self.now).is_member process.now };

    /// The member that observes the subject, a member or a joiner, on a ring from 0. None at a ring
    /// not below K.
    fn observer(&self, ring: u8, subject: &Process) -> Option<Process>
        ensures { result ≡ (observers self.now).observer ring subject.now };

    /// Whether the subject is a member, and who observes it on a ring: what `is_member` and
    /// `observer` answer. It costs one search if the table has a cheaper way than to make both.
    fn member_and_observer(&self, ring: u8, subject: &Process) -> (bool, Option<Process>)
        ensures member { result.0 ≡ (observers self.now).is_member subject.now }
        ensures observer { result.1 ≡ (observers self.now).observer ring subject.now }
    {
        (self.is_member(subject), self.observer(ring, subject))
    }

    /// What `member_and_observer` answers, whatever `place` holds. A table may look for the subject
    /// at that place first, and note there where it found it. So who asks for one subject on several
    /// rings, one after the other, has it searched once.
    fn member_and_observer_near(
        &self,
        ring: u8,
        subject: &Process,
        place: &mut usize,
    ) -> (bool, Option<Process>)
        ensures member { result.0 ≡ (observers self.now).is_member subject.now }
        ensures observer { result.1 ≡ (observers self.now).observer ring subject.now }
    {
        let _ = place;
        self.member_and_observer(ring, subject)
    }

    /// Whether the subject is a member, and whether this process observes it on a ring. `place` is
    /// as for `member_and_observer_near`. It costs no copy of the observer if the table has a way
    /// without one.
    fn member_and_observes_near(
        &self,
        observer: &ProcessRef<'_>,
        ring: u8,
        subject: &ProcessRef<'_>,
        place: &mut usize,
    ) -> (bool, bool)
        ensures member { result.0 ≡ (observers self.now).is_member subject.now }
        ensures observes { result.1 ≡ observes (observers self.now) observer.now ring subject.now }
    {
        let (member, found) = self.member_and_observer_near(ring, &subject.to_process(), place);
        (member, found == Some(observer.to_process()))
    }

    /// Whether the process may observe someone. False says that nobody has it as an observer, on
    /// any ring. True says nothing, and is never wrong.
    fn may_observe(&self, process: &Process) -> bool
        ensures { result ≡ false → ObservesNobody (observers self.now) process.now }
    {
        let _ = process;
        true
    }

    /// Whether a process may be its own observer. False says that none is, on any ring. True says
    /// nothing, and is never wrong.
    fn may_any_observe_itself(&self) -> bool
        ensures { result ≡ false → NoneObservesItself (observers self.now) }
    {
        true
    }
}
