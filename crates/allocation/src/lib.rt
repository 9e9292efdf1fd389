//! How shares are allocated: ranking of prices, the parity wheel, claims, and the dealings by time and by parity.
#![tactic(auto)]

mod claims;
mod dealings;
mod laws;
mod prices;
mod turns;
mod wheels;

pub use claims::{Claim, Claimed, in_order};
pub use dealings::{Dealing, Parity, Time};
pub use laws::{allocation_laws, worked_cases};
pub use prices::{Buyers, Ranking, Sellers, letters};
pub use wheels::Wheel;
