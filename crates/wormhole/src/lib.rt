// The wormhole machine: packets of flits on a mesh of one-flit channels, over memory that the caller
// lends.
//
// `mesh_reset` empties the memory, `mesh_offer` puts a packet at its source, `mesh_move` moves one
// flit by one channel. The latter two look at all of the memory first and refuse what is out of
// range; then a move is served by the step rules, on any memory, whoever left it so.
#![tactic(auto)]

mod eats;
mod feeds;
mod follows;
mod leads;
mod moves;
mod offers;
mod packets;
mod ranges;
mod records;
mod releases;
mod resets;
mod sizes;
mod steps;
mod words;

pub use moves::mesh_move;
pub use offers::{Offered, mesh_offer};
pub use packets::Packet;
pub use ranges::{MOST_FLITS, flits_served};
pub use records::{Record, fresh};
pub use resets::mesh_reset;
pub use sizes::{Judged, served, sized, words_needed};
pub use steps::{Step, may_move};
pub use words::Words;
