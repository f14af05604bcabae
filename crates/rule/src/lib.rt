#![tactic(auto)]

mod asked;
mod binding;
mod draft;
mod kept;
mod next;
mod opening;
mod parser;
mod part;
mod reading;
mod store;

pub use kept::Rule;
pub use part::Part;
pub use reading::read;
