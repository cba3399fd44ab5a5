// Those who read, each in a thread of its own.
use anyhow::Result;
use rapid_config::Stamp;
use rapid_view::{View, ViewSeat};
use std::alloc::Global;
use std::hint::black_box;
use std::sync::{Mutex, Wait};

/// One who reads.
pub trait Reader {
    /// Reads so often.
    fn read<R: Wait>(&mut self, rt: &R, times: u32) -> Result<()>;
}

/// Whether these are the same stamp.
fn is_same(one: &Stamp, other: &Stamp) -> bool {
    one.height() == other.height() && one.members() == other.members() && one.id() == other.id()
}

/// Reads the published stamp, and compares it with that of the time before.
#[derive(Drop)]
pub struct StampSeat {
    pub seat: ViewSeat,
    /// How often it was the same.
    pub same: u32,
}

impl Reader for StampSeat {
    fn read<R: Wait>(&mut self, _rt: &R, times: u32) -> Result<()> {
        let mut last = self.seat.stamp();
        let mut same: u32 = 0;
        for _ in 0..times {
            let stamp = self.seat.stamp();
            same = same.saturating_add(u32::from(is_same(&stamp, &last)));
            last = stamp;
        }
        self.same = same;
        Ok(())
    }
}

/// Reads the published view.
#[derive(Drop)]
pub struct MemberSeat {
    pub seat: ViewSeat,
}

impl Reader for MemberSeat {
    fn read<R: Wait>(&mut self, rt: &R, times: u32) -> Result<()> {
        for _ in 0..times {
            let _ = black_box(self.seat.members(rt)?);
        }
        Ok(())
    }
}

/// Reads the published view where its seat keeps it.
#[derive(Drop)]
pub struct KeptSeat {
    pub seat: ViewSeat,
}

impl Reader for KeptSeat {
    fn read<R: Wait>(&mut self, rt: &R, times: u32) -> Result<()> {
        for _ in 0..times {
            self.seat.refresh(rt)?;
            let _ = black_box(self.seat.view());
        }
        Ok(())
    }
}

/// Reads a stamp under a lock, and compares it with that of the time before.
#[derive(Drop)]
pub struct LockedStamp<'a> {
    pub stamp: &'a Mutex<Stamp>,
    /// How often it was the same.
    pub same: u32,
}

impl Reader for LockedStamp<'_> {
    fn read<R: Wait>(&mut self, rt: &R, times: u32) -> Result<()> {
        let mut last = *self.stamp.lock(rt);
        let mut same: u32 = 0;
        for _ in 0..times {
            let stamp = *self.stamp.lock(rt);
            same = same.saturating_add(u32::from(is_same(&stamp, &last)));
            last = stamp;
        }
        self.same = same;
        Ok(())
    }
}

/// Reads a view under a lock.
#[derive(Drop)]
pub struct LockedView<'a> {
    pub alloc: Global,
    pub view: &'a Mutex<View>,
}

impl Reader for LockedView<'_> {
    fn read<R: Wait>(&mut self, rt: &R, times: u32) -> Result<()> {
        for _ in 0..times {
            let view = self.view.lock(rt).try_copy(self.alloc)?;
            let _ = black_box(view);
        }
        Ok(())
    }
}
