// What is acted on: it takes actions by their fencing numbers.

ghost use Rattle.std.specs.Prelude.{◌≡◌, None, Some};
ghost use Rattle.leader_by_height.specs.Fencing.{may_follow, answer_to, last_after, OneLeaderActs};

use rapid_endpoint::Endpoint;

/// An action of a leader. The height of the view in which it leads is its fencing number.
#[derive(Clone, Copy, Debug, PartialEq, Eq)]
pub(crate) struct Action {
    pub height: u64,
    pub leader: Endpoint,
}

/// Whether an action is taken.
#[derive(Clone, Copy, Debug, PartialEq, Eq)]
pub(crate) enum Answer {
    Taken,
    Refused,
}

impl Action {
    /// The action that a line spells; none if it spells none.
    pub(crate) fn read(line: &str) -> Option<Action> {
        let mut words = line.split_whitespace();
        if words.next()? != "act" {
            return None;
        }
        let height = words.next()?.parse::<u64>().ok()?;
        let leader = Endpoint::parse(words.next()?).ok()?;
        Some(Action { height, leader })
    }
}

/// Whether an action may follow the last that was taken: its height is above, or it is of the same
/// leader at the same height.
fn may_follow(last: &Option<Action>, action: &Action) -> bool
    ensures { result ≡ may_follow last.now action.now }
{
    match last {
        None => true,
        Some(last) => {
            last.height < action.height
                || (last.height == action.height && last.leader == action.leader)
        }
    }
}

/// What takes actions: it keeps the last that it took.
#[derive(Debug, Drop)]
pub(crate) struct Fence {
    last: Option<Action>,
}

impl Fence {
    /// It took no action.
    pub(crate) fn new() -> Fence
        ensures { result.last ≡ None }
    {
        Fence { last: None }
    }

    /// Takes an action of a later height than the last, or of the same leader at the same height. It
    /// refuses another, and changes nothing then.
    pub(crate) fn take(&mut self, action: Action) -> Answer
        ensures answer { result ≡ answer_to self.old.last action }
        ensures last { self.new.last ≡ last_after self.old.last action }
    {
        if !may_follow(&self.last, &action) {
            return Answer::Refused;
        }
        self.last = Some(action);
        Answer::Taken
    }
}

/// Whatever actions come, and in whatever order: of those that a fence takes, two of one height are
/// of one leader. It does nothing: what it ensures is for proofs.
pub(crate) fn one_leader_acts()
    ensures { OneLeaderActs }
{}
