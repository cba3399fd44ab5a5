// Room for the report of a step.

ghost use Rattle.std.specs.Prelude.{◌≡◌, ◌<◌, OnOk};
ghost use Rattle.std.specs.Option.{option_to_list};

use crate::mail::push_within;
use crate::report::Report;
use std::alloc::{AllocError, Global};
use std::marker::Model;
use std::mem;

/// Room for the report of a step, made before the step. A step that reports nothing leaves it for
/// the next one, so most steps take no memory for it. Its value is for how many reports it is.
#[derive(Drop)]
pub(crate) struct ReportRoom {
    // none at all
    reports: Vec<Report>,
    alloc: Global,
}

impl Model for ReportRoom {
    ghost use Rattle.std.specs.Prelude.{◌≡◌, [], ℕ, vec_capacity};

    ghost Value = { ℕ };

    ghost view = { λ r. vec_capacity r.reports };

    ghost invariant = { λ r. r.reports.items ≡ [] };
}

impl ReportRoom {
    /// No room.
    pub(crate) fn new(alloc: Global) -> ReportRoom {
        ReportRoom {
            reports: Vec::new(alloc),
            alloc,
        }
    }

    /// Makes room for a report, if there is none.
    pub(crate) fn reserve(&mut self) -> Result<(), AllocError>
        ensures { OnOk result (0 < self.new) }
    {
        self.reports.reserve(1)
    }

    /// What a step reports, for which there is room: this, if it is anything.
    pub(crate) fn take(&mut self, report: Option<Report>) -> Vec<Report>
        requires { 0 < self.old }
        ensures { result.items ≡ option_to_list report }
    {
        let Some(report) = report else {
            return Vec::new(self.alloc);
        };
        let mut reports = mem::replace(&mut self.reports, Vec::new(self.alloc));
        push_within(&mut reports, report);
        reports
    }
}
