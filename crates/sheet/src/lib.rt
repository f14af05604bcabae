#![tactic(auto)]

mod entries;
mod examination;
mod names;
mod opened;
mod parts;
mod reader;
mod search;
mod survey;

pub use examination::examine;
pub use opened::Sheet;
