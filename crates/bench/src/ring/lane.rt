//! A queue as one thread sees it.
use crate::ring_lane::RingLane;
use anyhow::Result;
use crossbeam_queue::ArrayQueue;
use std::sync::Wait;

/// What a thread pushes numbers to and pops them from.
pub trait Lane: Sized {
    /// Whether the value went in: not if the queue is full.
    fn offer<R: Wait>(&mut self, rt: &R, value: u64) -> bool;

    /// None if the queue is empty.
    fn take<R: Wait>(&mut self, rt: &R) -> Option<u64>;

    /// A lane for one more thread.
    fn another(&mut self) -> Result<Self>;
}

impl<'a> Lane for RingLane<'a> {
    #[inline(always)]
    fn offer<R: Wait>(&mut self, rt: &R, value: u64) -> bool {
        self.push(rt, value)
    }

    #[inline(always)]
    fn take<R: Wait>(&mut self, rt: &R) -> Option<u64> {
        self.pop(rt)
    }

    fn another(&mut self) -> Result<RingLane<'a>> {
        self.split()
    }
}

#[derive(Drop)]
pub struct QueueLane<'a> {
    queue: &'a ArrayQueue<u64>,
}

impl<'a> QueueLane<'a> {
    pub fn new(queue: &'a ArrayQueue<u64>) -> QueueLane<'a> {
        QueueLane { queue }
    }
}

impl<'a> Lane for QueueLane<'a> {
    #[inline(always)]
    fn offer<R: Wait>(&mut self, rt: &R, value: u64) -> bool {
        self.queue.push(rt, value).is_ok()
    }

    #[inline(always)]
    fn take<R: Wait>(&mut self, rt: &R) -> Option<u64> {
        self.queue.pop(rt)
    }

    fn another(&mut self) -> Result<QueueLane<'a>> {
        Ok(QueueLane::new(self.queue))
    }
}
