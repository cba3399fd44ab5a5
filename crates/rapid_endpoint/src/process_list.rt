// Lists of processes, as their bytes.

ghost use Rattle.std.specs.Prelude.{◌≡◌, ◌≤◌, ◌++◌, ◌==◌, All, length, drop, IfOk, OnOk, OnErr};
ghost use Rattle.std.specs.List.{concat};
ghost use Rattle.std.specs.Cmp.{partial_equiv_from_equiv};
ghost use Rattle.std.specs.Cmp.Lexicographic.{slice_cmp, lists_total};
ghost use Rattle.std.proofs.lemmas.Cmp.{nat_list_cmp_total, eq_by_cmp_equiv};
ghost use Rattle.rapid_model.specs.Process.{IsProcess, process_cmp};
ghost use Rattle.rapid_model.specs.Cut.{is_ascending};
ghost use Rattle.rapid_model.specs.Reading.{processes_at, read_in};
ghost use Rattle.rapid_endpoint.specs.Ends.{EndsAt, AreAll};
ghost use Rattle.rapid_endpoint.specs.ProcessesIn.{same_processes};
ghost use Rattle.rapid_endpoint.specs.ProcessesLeft.{processes_left};

use crate::process_walk::{ascend_in, end_in, spelled};
use crate::{Process, ReadError, bytes};
use std::alloc::{AllocError, Global};
use std::cmp::Ordering;
use std::marker::Model;
use std::sync::ArcSlice;

/// Processes, one after another, in the room that their bytes take. Copies share it.
#[derive(Debug, Drop)]
pub struct ProcessList {
    count: usize,
    /// just this many processes
    bytes: ArcSlice<u8>,
}

impl Model for ProcessList {
    ghost use Rattle.std.specs.Prelude.{List};
    ghost use Rattle.std.specs.Arc.{arc_slice_items};
    ghost use Rattle.rapid_model.specs.Process.{Process as ModelProcess};
    ghost use Rattle.rapid_model.specs.Reading.{processes_at, read_in};
    ghost use Rattle.rapid_endpoint.specs.Ends.{AreAll};

    ghost Value = { List ModelProcess };

    ghost view = { λ l. read_in (processes_at l.count (arc_slice_items l.bytes)) };

    ghost invariant = { λ l. AreAll (processes_at l.count (arc_slice_items l.bytes)) };
}

impl ProcessList {
    /// The list of these processes.
    pub fn from_slice(alloc: Global, processes: &[Process]) -> Result<ProcessList, AllocError>
        ensures { IfOk result (λ list. list ≡ processes.now) }
    {
        let spelled = spelled(alloc, processes)?;
        let bytes = ArcSlice::from_vec(spelled)?;
        Ok(ProcessList {
            count: processes.len(),
            bytes,
        })
    }

    /// The place behind so many processes in front of the bytes. The error is the first that is met
    /// from the left: `Truncated` if the bytes end before the processes do, `BadTags` if one has
    /// wrong tags.
    pub fn end_in(count: usize, bytes: &[u8]) -> Result<usize, ReadError>
        ensures { EndsAt bytes.now result (processes_at count bytes.now) }
    {
        end_in(count, bytes)
    }

    /// The list of so many processes, of which these are the bytes.
    pub fn of_bytes(alloc: Global, count: usize, bytes: &[u8]) -> Result<ProcessList, AllocError>
        requires { AreAll (processes_at count bytes.now) }
        ensures { IfOk result (λ list. list ≡ read_in (processes_at count bytes.now)) }
    {
        let bytes = ArcSlice::from_slice(alloc, bytes)?;
        Ok(ProcessList { count, bytes })
    }

    /// How many processes there are.
    pub fn len(&self) -> usize
        ensures { result ≡ length self.now }
    {
        self.count
    }

    /// Whether there are none.
    pub fn is_empty(&self) -> bool
        ensures { result ≡ (length self.now == 0) }
    {
        self.len() == 0
    }

    /// How many bytes all have together.
    pub fn bytes_len(&self) -> usize
        ensures { result ≡ length (concat self.now) }
    {
        self.bytes.len()
    }

    /// Appends the bytes of each process to these. If out of memory nothing is appended.
    pub fn append_to(&self, out: &mut Vec<u8>) -> Result<(), AllocError>
        ensures value { OnOk result (out.new.items ≡ out.old.items ++ concat self.now) }
        ensures kept { OnErr result (out.new.items ≡ out.old.items) }
    {
        out.extend_from_slice(self.bytes.as_slice())?;
        Ok(())
    }

    /// The processes, in order.
    pub fn iter(&self) -> Processes<'_>
        ensures { processes_left result ≡ self.now }
    {
        Processes {
            left: self.count,
            bytes: self.bytes.as_slice(),
        }
    }

    /// The same list, with a value for each process.
    pub fn to_vec(&self, alloc: Global) -> Result<Vec<Process>, AllocError>
        ensures { IfOk result (λ processes. processes.items ≡ self.now) }
    {
        let mut processes = Vec::with_capacity(alloc, self.len())?;
        for process in self.iter() {
            processes.push(process)?;
        }
        Ok(processes)
    }

    /// Whether each process is below all that follow it.
    pub fn ascends(&self) -> bool
        ensures { result ≡ is_ascending self.now }
    {
        self.tell();
        ascend_in(self.count, self.bytes.as_slice())
    }

    /// How lists of one length compare: as the first processes that differ do.
    pub fn compare(&self, other: &ProcessList) -> Ordering
        requires { length self.now ≡ length other.now }
        ensures { result ≡ slice_cmp process_cmp self.now other.now }
    {
        self.tell();
        other.tell();
        self.bytes.as_slice().cmp(other.bytes.as_slice())
    }

    /// An equal list, which shares the bytes.
    pub fn try_copy(&self) -> Result<ProcessList, AllocError>
        ensures { IfOk result (λ list. list ≡ self.now) }
    {
        let bytes = self.bytes.clone()?;
        Ok(ProcessList {
            count: self.count,
            bytes,
        })
    }

    /// Each is a process. It does nothing: what it ensures is for proofs.
    #[inline(always)]
    pub fn tell(&self)
        ensures { All IsProcess self.now }
    {
        bytes::tell(self.bytes.as_slice());
    }
}

/// The processes of a list that are left, in order.
#[derive(Clone, Copy, Debug)]
pub struct Processes<'a> {
    left: usize,
    bytes: &'a [u8],
}

impl<'a> Iterator for Processes<'a> {
    ghost use Rattle.std.specs.Iterator.{YieldsFirst, item_count};
    ghost use Rattle.rapid_endpoint.specs.ProcessesLeft.{processes_left};

    type Item = Process;

    ghost next_gives = { YieldsFirst processes_left };

    ghost remaining = { item_count processes_left };

    fn next(&mut self) -> Option<Process> {
        if self.left == 0 {
            return None;
        }
        let Ok((process, length)) = Process::read(self.bytes) else {
            return None;
        };
        self.left -= 1;
        self.bytes = &self.bytes[length..];
        Some(process)
    }

    fn size_hint(&self) -> (usize, Option<usize>) {
        (0, Some(self.left))
    }
}

impl PartialEq for ProcessList {
    ghost eq = { same_processes };

    ghost laws = { partial_equiv_from_equiv (eq_by_cmp_equiv (lists_total nat_list_cmp_total)) };

    fn eq(&self, other: &ProcessList) -> bool {
        self.len() == other.len() && self.bytes.as_slice() == other.bytes.as_slice()
    }
}

impl Eq for ProcessList {
    ghost laws = { eq_by_cmp_equiv (lists_total nat_list_cmp_total) };
}
