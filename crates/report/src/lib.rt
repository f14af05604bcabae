#![tactic(auto)]

mod left;
mod line;
mod verdict;

pub use left::Lines;
pub use line::{lines, split_line};
pub use verdict::Verdict;
