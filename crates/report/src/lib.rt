// The sheet of a traffic list: the list is read, drains by the machine's own moves, and what each
// packet took is written as text.
#![tactic(auto)]

mod drains;
mod reports;
mod sheets;
mod texts;
mod turns;

pub use reports::mesh_report;
