//! What participants have left, and turns of the wheel until all is dealt.
ghost use Rattle.std.specs.Prelude.{◌≡◌, ℕ, ◌+◌, ◌-◌, ◌*◌, ◌^◌, ◌<◌, ◌≤◌, false, map, length, slice_set};
ghost use Rattle.std.specs.List.{AllByRecursion};
ghost use Rattle.allocation.specs.Dealings.{Seated, total, interest, claims_left};
ghost use Rattle.allocation.specs.Turns.{turn, turns, over};
ghost use Rattle.allocation.specs.Wheels.{seats_of};
ghost use Rattle.allocation.specs.Amounts.{amounts};
ghost use Rattle.allocation.specs.Memory.{wheel_of, stage_of};

use super::{Claimed, Wheel};
use crate::claims::draw;
use crate::wheels::SEATS;

/// Participants are numbered from 1 to 24, so that a table by participant has 25 places.
pub(crate) const PLACES: usize = SEATS + 1;

// Two tables and no pairs: each is lent alone.
/// What participants have left of their claims, and what they have taken: what one table loses the other has.
#[derive(Drop)]
struct Tables {
    interests: [u32; PLACES],
    taken: [u32; PLACES],
    ghost sized: { (length interests ≡ 25) × (length taken ≡ 25) },
    ghost room: { (p : ℕ) → amounts taken p + amounts interests p < 2 ^ 32 },
}

impl Tables {
    /// `p` takes `n` shares, or what it has left.
    fn take(&mut self, p: usize, n: u32)
        requires { p < 25 }
        ensures less { self.new.interests ≡ slice_set self.old.interests p (amounts self.old.interests p - n) }
        ensures same { (k : ℕ) → amounts self.new.taken k + amounts self.new.interests k ≡ amounts self.old.taken k + amounts self.old.interests k }
    {
        let x = draw(&mut self.interests, p, n);
        add(&mut self.taken, p, x);
    }
}

/// Adds `n` to the place `k`.
fn add(table: &mut [u32; PLACES], k: usize, n: u32)
    requires place { k < 25 }
    requires fits { amounts table.old k + n < 2 ^ 32 }
    ensures { table.new ≡ slice_set table.old k (amounts table.old k + n) }
{
    table[k] += n;
}

/// What each participant has left of its claims after their shares. A claim past the last share has all of its size left.
pub(crate) fn interests_left<C: Claimed>(claims: &[C], shares: &[u32]) -> [u32; PLACES]
    requires known { AllByRecursion (λ c. (C.claim c).participant < 25) claims.now }
    requires fits { total (map C.claim claims.now) < 2 ^ 32 }
    ensures { (p : ℕ) → amounts result p ≡ interest p (claims_left (map C.claim claims.now) shares.now) }
{
    let mut table = [0; PLACES];
    // By index, since there may be fewer shares than claims.
    for (i, item) in claims.iter().enumerate() {
        let claim = item.claim();
        let share = shares.get(i).copied().unwrap_or(0);
        let size = claim.size.saturating_sub(share);
        add(&mut table, claim.participant as usize, size);
    }
    table
}

// The wheel is the caller's: a struct that owns it beside the tables would have to be written back at each way out, which is no plainer.
/// The first seat's turn: what is left to deal.
fn one_turn(wheel: &mut Wheel, lot: u32, tables: &mut Tables, left: u32) -> u32
    requires seated { Seated lot (wheel_of wheel.old) (amounts tables.old.interests) }
    requires going { over (stage_of wheel.old tables.old.interests left) ≡ false }
    ensures next { stage_of wheel.new tables.new.interests result ≡ turn lot (stage_of wheel.old tables.old.interests left) }
    ensures same { (p : ℕ) → amounts tables.new.taken p + amounts tables.new.interests p ≡ amounts tables.old.taken p + amounts tables.old.interests p }
{
    let p = wheel.first_seat() as usize;
    let (x, rest) = wheel.turn(lot, tables.interests[p], left);
    tables.take(p, x);
    rest
}

/// The least interest of those seated.
fn least_interest(seats: &[u8], interests: &[u32; PLACES]) -> u32
    requires { (k : ℕ) → 0 < seats_of k seats.now → (0 < k) × (k < 25) }
    ensures { (k : ℕ) → 0 < seats_of k seats.now → result ≤ amounts interests.now k }
{
    let mut least = u32::MAX;
    for &seat in seats {
        least = least.min(interests[seat as usize]);
    }
    least
}

/// Each of the seats takes `n` shares, or what it has left.
fn give_each(seats: &[u8], tables: &mut Tables, n: u32)
    requires { (k : ℕ) → 0 < seats_of k seats.now → (0 < k) × (k < 25) }
    ensures less { (p : ℕ) → amounts tables.new.interests p ≡ amounts tables.old.interests p - n * seats_of p seats.now }
    ensures same { (p : ℕ) → amounts tables.new.taken p + amounts tables.new.interests p ≡ amounts tables.old.taken p + amounts tables.old.interests p }
{
    for &seat in seats {
        tables.take(seat as usize, n);
    }
}

/// Whole laps at once, a lot for every seat: as many as leave every seat some interest and the quantity allows.
/// The wheel stays as it is. What is left to deal.
fn whole_laps(wheel: &Wheel, lot: u32, tables: &mut Tables, left: u32) -> u32
    requires seated { Seated lot (wheel_of wheel.now) (amounts tables.old.interests) }
    requires going { over (stage_of wheel.now tables.old.interests left) ≡ false }
    ensures on { (n : ℕ) × (stage_of wheel.now tables.new.interests result ≡ turns lot n (stage_of wheel.now tables.old.interests left)) }
    ensures same { (p : ℕ) → amounts tables.new.taken p + amounts tables.new.interests p ≡ amounts tables.old.taken p + amounts tables.old.interests p }
    ensures most { result ≤ left }
{
    let seats = wheel.seats();
    let n = seats.len() as u32;
    let most = left / lot / n;
    if wheel.used() > 0 || most == 0 {
        return left;
    }
    let least = least_interest(seats, &tables.interests);
    let each = most.min(least.saturating_sub(1) / lot) * lot;
    give_each(seats, tables, each);
    left - each * n
}

/// On with a dealing: one turn, or whole laps once `wait` turns have been taken.
/// What is left to deal, and how many turns to take before whole laps are tried again.
fn deal_on(wheel: &mut Wheel, lot: u32, tables: &mut Tables, left: u32, wait: usize) -> (u32, usize)
    requires seated { Seated lot (wheel_of wheel.old) (amounts tables.old.interests) }
    requires going { over (stage_of wheel.old tables.old.interests left) ≡ false }
    ensures on { (n : ℕ) × (stage_of wheel.new tables.new.interests result.0 ≡ turns lot n (stage_of wheel.old tables.old.interests left)) }
    ensures same { (p : ℕ) → amounts tables.new.taken p + amounts tables.new.interests p ≡ amounts tables.old.taken p + amounts tables.old.interests p }
    ensures falls { 2 * result.0 + (1 - result.1) < 2 * left + (1 - wait) }
{
    if wait == 0 {
        let rest = whole_laps(wheel, lot, tables, left);
        return (rest, wheel.seats().len());
    }
    (one_turn(wheel, lot, tables, left), wait - 1)
}

/// Turn by turn until nothing is left to deal or no seat is left: what each has taken.
/// Once no whole lap can be dealt at once, a lap of turns takes a seat away or ends the dealing,
/// so that the work grows with the seats and not with the quantity. A turn carried over costs one lap more.
pub(crate) fn take_turns(
    wheel: &mut Wheel,
    lot: u32,
    interests: &[u32; PLACES],
    quantity: u32,
) -> [u32; PLACES]
    requires { Seated lot (wheel_of wheel.old) (amounts interests.now) }
    ensures wheel { wheel_of wheel.new ≡ (turns lot quantity (stage_of wheel.old interests.now quantity)).wheel }
    ensures each { (p : ℕ) → amounts result p ≡ amounts interests.now p - (turns lot quantity (stage_of wheel.old interests.now quantity)).interests p }
{
    let mut tables = Tables {
        interests: *interests,
        taken: [0; PLACES],
    };
    let mut left = quantity;
    let mut wait = 0;
    while left > 0 && !wheel.is_empty() {
        (left, wait) = deal_on(wheel, lot, &mut tables, left, wait);
    }
    tables.taken
}
