// Turn rules, the routing answer and the numbering of channels in a two-dimensional mesh.
//
// At a node, for a packet that arrived travelling one way and goes to a destination, `mesh_route`
// gives the first hops of the shortest paths that the published turn rule allows, and no others.
// It searches nothing: whatever the mesh, an answer is a handful of turns looked up in a table.
//
// `mesh_number` numbers the channels so that numbers rise along everything that a rule allows;
// `mesh_check` looks whether somebody else's numbers rise, and where they first do not.
#![tactic(auto)]

mod answers;
mod channels;
mod checks;
mod directions;
mod formulas;
mod frames;
mod meshes;
mod numberings;
mod places;
mod plans;
mod refusals;
mod routes;
mod rules;

pub use answers::outputs_at;
pub use channels::{Channel, channel_of, is_channel};
pub use checks::{Checked, Fall, mesh_check};
pub use directions::{Arrival, Direction};
pub use meshes::{Mesh, mesh_of};
pub use numberings::mesh_number;
pub use places::{Column, Place, Row, node_of, place_of};
pub use plans::Plan;
pub use refusals::{Refusal, code_of};
pub use routes::{Routed, mesh_route};
pub use rules::Rule;
