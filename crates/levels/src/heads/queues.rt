//! The queue of a step in a level head.
ghost use Rattle.std.specs.Prelude.{◌≡◌, List, nat_lt};
ghost use Rattle.rules.specs.Books.{nothing_at};
ghost use Rattle.rules.specs.declared.orders.Part.{Part as RulePart};
ghost use Rattle.levels.specs.Heads.{size, level_of};
ghost use Rattle.levels.specs.Queues.{head_of, with_head, ahead};

use super::{LevelHead, QueueHead};
use allocation::Wheel;
use rules::Step;

impl LevelHead {
    /// The head of a level without parts.
    pub fn new(price: u32) -> LevelHead
        ensures none { size result ≡ 0 }
        ensures level { (ps : List RulePart) → level_of result ps ≡ nothing_at price }
    {
        let wheel = Wheel::new();
        let queue = QueueHead { count: 0, wheel };
        LevelHead {
            price,
            shown: queue,
            hidden: queue,
        }
    }

    /// Whether the level has a part.
    pub fn holds(&self) -> bool
        ensures { result ≡ nat_lt 0 (size self.now) }
    {
        self.shown.count > 0 || self.hidden.count > 0
    }

    /// The head of the queue of a step.
    pub fn queue(&self, step: Step) -> &QueueHead
        ensures { result.now ≡ head_of step self.now }
    {
        match step {
            Step::Setter | Step::Displayed => &self.shown,
            Step::Hidden => &self.hidden,
        }
    }

    /// How many parts of the level come before the queue of a step.
    pub fn ahead(&self, step: Step) -> usize
        ensures { result ≡ ahead step self.now }
    {
        match step {
            Step::Setter | Step::Displayed => 0,
            Step::Hidden => self.shown.count,
        }
    }

    /// Another head for the queue of a step.
    pub fn set_queue(&mut self, step: Step, queue: QueueHead)
        ensures { self.new ≡ with_head step queue self.old }
    {
        match step {
            Step::Setter | Step::Displayed => self.shown = queue,
            Step::Hidden => self.hidden = queue,
        }
    }
}
