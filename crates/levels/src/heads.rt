//! The heads of levels: all of a price level but its parts.
use allocation::Wheel;

mod queues;

/// The head of a queue: how many parts the queue has, and its wheel.
#[derive(Clone, Copy)]
pub struct QueueHead {
    pub count: usize,
    pub wheel: Wheel,
}

/// The head of a level: its price, and the heads of its displayed and its hidden queue.
#[derive(Clone, Copy)]
pub struct LevelHead {
    pub price: u32,
    pub shown: QueueHead,
    pub hidden: QueueHead,
}
