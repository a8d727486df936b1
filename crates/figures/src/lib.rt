// A small market worked through: the verdicts on five clearing files, and what three files of weights prove.
#![tactic(auto)]

mod stand;

pub use stand::figures_stand;
