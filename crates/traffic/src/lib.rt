// The traffic list: packets for a mesh in at most 194 bytes, read into the wormhole machine's memory
// and written from it.
//
// `mesh_read` judges a whole list before it touches memory; then the mesh is empty but for the list's
// packets, each at its source. `mesh_write` writes the list of the packets that are live.
#![tactic(auto)]

mod headers;
mod lists;
mod pages;
mod reads;
mod writes;

pub use headers::{Header, header_of, packet_at};
pub use lists::{Lead, lead_of, packets_of, readable};
pub use pages::{Page, Written};
pub use reads::{Contents, ListRead, mesh_read};
pub use writes::mesh_write;
