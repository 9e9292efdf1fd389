//! The steps of trading at a price.
ghost use Rattle.std.specs.Prelude.{◌≡◌, ◌+◌, ◌-◌, ◌<◌, ◌≤◌, length, slice_set};
ghost use Rattle.allocation.specs.Dealings.{Seated, interest, sum};
ghost use Rattle.allocation.specs.Memory.{wheel_of};
ghost use Rattle.rules.specs.Quantities.{claims};
ghost use Rattle.rules.specs.Trading.{queue_of, step_shares};
ghost use Rattle.levels.specs.Limits.{Dealable};
ghost use Rattle.levels.specs.Sides.{levels_of};
ghost use Rattle.trading.specs.Steps.{step_rest, step_rows, opens, part_shares, open_shares, open_rest, open_rows, at_place};
ghost use Rattle.trading.specs.Written.{written};
ghost use Rattle.rules.specs.Invariants.{SoundLevel};

use crate::reports::write_rows;
use crate::states::{Progress, Terms};
use allocation::{Dealing, Wheel};
use amounts::{come_to, left_of, to_marked};
use levels::{Levels, deal_parts, settle_wheel};
use rules::{Part, Row, Step};

/// Whether a step has something to deal to: the setter step if the displayed parts come to the round lot,
/// the others if there are parts.
fn has_claims(lot: u32, step: Step, parts: &[Part]) -> bool
    ensures { result ≡ opens lot step parts.now }
{
    // Steps are data, so that the laws speak of every good table.
    match step {
        Step::Setter => come_to(lot, parts),
        Step::Displayed | Step::Hidden => !parts.is_empty(),
    }
}

impl<D: Dealing> Terms<'_, D> {
    /// The shares of a step: the marked part takes what it can, and seats can be lost;
    /// or the dealing deals, and turns the wheel.
    fn share_out(
        &self,
        quantity: u32,
        step: Step,
        wheel: &mut Wheel,
        parts: &[Part],
        shares: &mut [u32],
    )
        requires dealable { Dealable parts.now }
        requires one_each { length shares.old ≡ length parts.now }
        requires seated { Seated self.now.lot (wheel_of wheel.old) (λ p. interest p (claims parts.now)) }
        ensures shares { shares.new ≡ (part_shares D.meaning self.now.lot quantity step (wheel_of wheel.old) parts.now).shares }
        ensures wheel { wheel_of wheel.new ≡ (part_shares D.meaning self.now.lot quantity step (wheel_of wheel.old) parts.now).wheel }
    {
        // Steps are data, as above.
        match step {
            Step::Setter => {
                to_marked(quantity, parts, shares);
                settle_wheel(wheel, parts, shares);
            }
            Step::Displayed | Step::Hidden => {
                deal_parts(self.dealing, quantity, wheel, self.lot, parts, shares);
            }
        }
    }

    /// A step that has something to deal to: its parts trade, and its rows are written.
    fn deal_step(
        &self,
        levels: &mut Levels,
        i: usize,
        step: Step,
        so_far: Progress,
        report: &mut [Row],
        shares: &mut [u32],
    ) -> Progress
        requires place { i < length (levels_of levels.old) }
        requires seated { Seated self.now.lot (queue_of step (at_place (levels_of levels.old) i)).wheel (λ p. interest p (claims (queue_of step (at_place (levels_of levels.old) i)).parts)) }
        requires each { length shares.old ≡ length (queue_of step (at_place (levels_of levels.old) i)).parts }
        requires room { so_far.rows + length (open_rows D.meaning self.now.lot self.now.arriving so_far.left step (at_place (levels_of levels.old) i)) ≤ length report.old }
        ensures level { levels_of levels.new ≡ slice_set (levels_of levels.old) i (open_rest D.meaning self.now.lot so_far.left step (at_place (levels_of levels.old) i)) }
        ensures left { result.left ≡ so_far.left - sum (open_shares D.meaning self.now.lot so_far.left step (at_place (levels_of levels.old) i)).shares }
        ensures rows { report.new ≡ written report.old so_far.rows (open_rows D.meaning self.now.lot self.now.arriving so_far.left step (at_place (levels_of levels.old) i)) }
        ensures count { result.rows ≡ so_far.rows + length (open_rows D.meaning self.now.lot self.now.arriving so_far.left step (at_place (levels_of levels.old) i)) }
    {
        let mut wheel = *levels.wheel(i, step);
        let parts = levels.parts(i, step);
        self.share_out(so_far.left, step, &mut wheel, parts, shares);
        let price = levels.price(i);
        let rows = write_rows(
            report,
            so_far.rows,
            step,
            self.arriving,
            price,
            parts,
            shares,
        );
        levels.trade(i, step, shares, wheel);
        let left = left_of(so_far.left, shares);
        Progress { left, rows }
    }

    // Report, room and how far it has come are the caller's: a struct of these loans would be made anew at each call, which is no plainer;
    // and an array for a slice with room for 384 shares would be asking more.
    /// One step at the level at `i`. `room` is for the shares.
    pub(crate) fn trade_step(
        &self,
        levels: &mut Levels,
        i: usize,
        step: Step,
        so_far: Progress,
        report: &mut [Row],
        room: &mut [u32],
    ) -> Progress
        requires place { i < length (levels_of levels.old) }
        requires ready { SoundLevel self.now.lot (at_place (levels_of levels.old) i) }
        requires rows { so_far.rows + length (step_rows D.meaning self.now.lot self.now.arriving so_far.left step (at_place (levels_of levels.old) i)) ≤ length report.old }
        requires room { 384 ≤ length room.old }
        ensures level { levels_of levels.new ≡ slice_set (levels_of levels.old) i (step_rest D.meaning self.now.lot so_far.left step (at_place (levels_of levels.old) i)) }
        ensures left { result.left ≡ so_far.left - sum (step_shares D.meaning self.now.lot so_far.left step (at_place (levels_of levels.old) i)).shares }
        ensures rows { report.new ≡ written report.old so_far.rows (step_rows D.meaning self.now.lot self.now.arriving so_far.left step (at_place (levels_of levels.old) i)) }
        ensures count { result.rows ≡ so_far.rows + length (step_rows D.meaning self.now.lot self.now.arriving so_far.left step (at_place (levels_of levels.old) i)) }
    {
        if so_far.left == 0 {
            return so_far;
        }
        let parts = levels.parts(i, step);
        let n = parts.len();
        if !has_claims(self.lot, step, parts) {
            return so_far;
        }
        self.deal_step(levels, i, step, so_far, report, &mut room[0..n])
    }
}
