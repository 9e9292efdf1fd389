//! Dealings: how a quantity is dealt to claims.
ghost use Rattle.std.specs.Prelude.{◌≡◌, ◌^◌, ◌<◌, map, length};
ghost use Rattle.std.specs.List.{AllByRecursion};
ghost use Rattle.allocation.specs.Dealings.{Deal, Lawful, Seated, total, interest, time, parity};
ghost use Rattle.allocation.specs.Memory.{wheel_of};
ghost use Rattle.allocation.specs.Shares.{time_lawful};
ghost use Rattle.allocation.specs.Turning.{parity_lawful};

use super::{Claimed, Wheel, in_order};
use crate::claims::by_time;
use crate::turns::{interests_left, take_turns};

/// How a quantity is dealt to claims, on a wheel that seats exactly the claimants.
pub trait Dealing {
    /// The shares and the wheel afterwards, as a function of quantity, wheel, round lot and claims.
    ghost meaning: { Deal };

    // Claims and shares are slices that the caller lends; a type that ties them, or that holds `known` and `fits`, would ask more of it.
    /// Writes a share for each claim, and turns the wheel.
    fn deal<C: Claimed>(
        &self,
        quantity: u32,
        wheel: &mut Wheel,
        lot: u32,
        claims: &[C],
        shares: &mut [u32],
    )
        requires one_each { length shares.old ≡ length claims.now }
        requires known { AllByRecursion (λ c. (C.claim c).participant < 25) claims.now }
        requires fits { total (map C.claim claims.now) < 2 ^ 32 }
        requires seated { Seated lot (wheel_of wheel.old) (λ p. interest p (map C.claim claims.now)) }
        ensures shares { shares.new ≡ (meaning quantity (wheel_of wheel.old) lot (map C.claim claims.now)).shares }
        ensures wheel { wheel_of wheel.new ≡ (meaning quantity (wheel_of wheel.old) lot (map C.claim claims.now)).wheel };

    /// No share above its claim; the shares sum to the lesser of quantity and claims;
    /// the wheel goes back seating exactly those with a claim left.
    ghost lawful: { Lawful meaning };
}

/// By time: each claim in order takes what it can, and the wheel only loses seats.
#[derive(Clone, Copy, Default)]
pub struct Time;

impl Dealing for Time {
    ghost meaning = { time };

    ghost lawful = { time_lawful };

    fn deal<C: Claimed>(
        &self,
        quantity: u32,
        wheel: &mut Wheel,
        lot: u32,
        claims: &[C],
        shares: &mut [u32],
    ) {
        in_order(quantity, claims, shares);
        wheel.lose_seats_without_interest(claims, shares);
    }
}

/// By parity: turn by turn; what a participant takes goes to its claims by time.
#[derive(Clone, Copy, Default)]
pub struct Parity;

impl Dealing for Parity {
    ghost meaning = { parity };

    ghost lawful = { parity_lawful };

    fn deal<C: Claimed>(
        &self,
        quantity: u32,
        wheel: &mut Wheel,
        lot: u32,
        claims: &[C],
        shares: &mut [u32],
    ) {
        let interests = interests_left(claims, &[]);
        let mut taken = take_turns(wheel, lot, &interests, quantity);
        by_time(
            claims,
            &mut taken,
            shares,
            |claim| claim.participant as usize,
        );
    }
}
