//! Seats lost: one filter for every loss.
ghost use Rattle.std.specs.Prelude.{◌≡◌, ℕ, ◌^◌, ◌<◌, Bool, ltb, map, if◌then◌else◌};
ghost use Rattle.std.specs.List.{AllByRecursion};
ghost use Rattle.allocation.specs.Dealings.{total, interest, claims_left};
ghost use Rattle.allocation.specs.Wheels.{retain, first_stays, lose_seat};
ghost use Rattle.allocation.specs.Memory.{wheel_of, AnswersBy};

use super::Wheel;
use crate::claims::Claimed;
use crate::turns::interests_left;

impl Wheel {
    /// What the first seat will have used, once those who do not stay are gone.
    fn used_after<F: Fn(u8) -> bool>(&self, keeps: &F) -> u32
        requires { F.IsAlwaysCallable keeps.now }
        ensures { (p : ℕ → Bool) → AnswersBy (F.post keeps.now) p → result ≡ (if first_stays p (wheel_of self.now).seats then self.now.used else 0) }
    {
        let stays = self.seats().first().is_some_and(|&seat| keeps(seat));
        if stays { self.used } else { 0 }
    }

    /// Every seat is lost but those that are kept. If the first is lost, the next has used nothing.
    fn retain<F: Fn(u8) -> bool>(&mut self, keeps: F)
        requires callable { F.IsAlwaysCallable keeps }
        requires tests { (p : ℕ → Bool) × AnswersBy (F.post keeps) p }
        ensures { (p : ℕ → Bool) → AnswersBy (F.post keeps) p → wheel_of self.new ≡ retain p (wheel_of self.old) }
    {
        self.used = self.used_after(&keeps);
        self.seats.retain(|&seat| keeps(seat));
    }

    /// Every participant without interest left loses its seat, once the claims have had their shares.
    /// A claim past the last share has all of its size left.
    pub fn lose_seats_without_interest<C: Claimed>(&mut self, claims: &[C], shares: &[u32])
        requires known { AllByRecursion (λ c. (C.claim c).participant < 25) claims.now }
        requires fits { total (map C.claim claims.now) < 2 ^ 32 }
        ensures { wheel_of self.new ≡ retain (λ p. ltb 0 (interest p (claims_left (map C.claim claims.now) shares.now))) (wheel_of self.old) }
    {
        let left = interests_left(claims, shares);
        self.retain(|seat| left.get(seat as usize).is_some_and(|&n| n > 0));
    }

    /// `participant` loses its seat, if it has one.
    pub fn lose_seat(&mut self, participant: u8)
        ensures { wheel_of self.new ≡ lose_seat (wheel_of self.old) participant }
    {
        self.retain(|seat| seat != participant);
    }
}
