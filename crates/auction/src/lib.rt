// The two programmes of an auction and what their points are: the acceptance programme of a closed market, whose points
// are the clearings that keep the rules on orders, and the price programme of a closed market and a held clearing, whose
// points are the price lists that keep the price rules.
#![tactic(auto)]

mod acceptance;
mod bounds;
mod orders;
mod pricing;
mod rows;
mod sales;
mod theorems;

pub use acceptance::AcceptanceProgramme;
pub use bounds::{saving_bound, welfare_bound};
pub use pricing::PriceProgramme;
pub use theorems::{
    costs_stay_above, points_are_clearings, points_are_price_lists, welfare_stays_below,
    worked_bounds,
};
