// What is tried, each by a file made for it.
ghost use Rattle.std.specs.Prelude.{Some};
ghost use Rattle.hostile.specs.Trials.{trial_text};

use super::wide::LIMIT;
use super::writing::{comb, full, leaf, zeros};
use std::alloc::{AllocError, Global};
use std::fmt;

#[derive(Clone, Copy, Debug, PartialEq, Eq)]
pub enum Trial {
    DeepestPath,
    TooDeepPath,
    FullTree,
    GreatestWeight,
    WeightPastLimit,
    SumAtLimit,
    ProductPastLimit,
    RestPastLimit,
    LongestFile,
    TooLongFile,
}

pub const TRIALS: [Trial; 10] = [
    Trial::DeepestPath,
    Trial::TooDeepPath,
    Trial::FullTree,
    Trial::GreatestWeight,
    Trial::WeightPastLimit,
    Trial::SumAtLimit,
    Trial::ProductPastLimit,
    Trial::RestPastLimit,
    Trial::LongestFile,
    Trial::TooLongFile,
];

impl Trial {
    pub fn file(self, heap: Global) -> Result<Vec<u8>, AllocError> {
        match self {
            Trial::DeepestPath => comb(heap, 64),
            Trial::TooDeepPath => comb(heap, 65),
            Trial::FullTree => full(heap),
            Trial::GreatestWeight => leaf(heap, &[(0, LIMIT)]),
            Trial::WeightPastLimit => leaf(heap, &[(0, LIMIT + 1)]),
            Trial::SumAtLimit => leaf(heap, &[(2, 1)]),
            Trial::ProductPastLimit => leaf(heap, &[(2, 2)]),
            Trial::RestPastLimit => leaf(heap, &[(1, 1), (2, 1)]),
            Trial::LongestFile => zeros(heap, 65535),
            Trial::TooLongFile => zeros(heap, 65536),
        }
    }
}

// What a trial is called.
impl fmt::Display for Trial {
    ghost output = { λ t. Some (trial_text t) };

    fn fmt<W: fmt::Write>(&self, f: &mut fmt::Formatter<W>) -> fmt::Result {
        f.write_str(match self {
            Trial::DeepestPath => "64 splits on a path",
            Trial::TooDeepPath => "65 splits on a path",
            Trial::FullTree => "4,096 leaves",
            Trial::GreatestWeight => "a weight of 10^18, 3 times",
            Trial::WeightPastLimit => "a weight past 10^18",
            Trial::SumAtLimit => "a sum of -10^18",
            Trial::ProductPastLimit => "a product of -2 x 10^18",
            Trial::RestPastLimit => "a rest past 10^18 that would come back",
            Trial::LongestFile => "65,535 zeros",
            Trial::TooLongFile => "65,536 zeros",
        })
    }
}
