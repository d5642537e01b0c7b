// A packet that the steps can serve.
ghost use Rattle.wormhole.specs.Coded.{Served};

use crate::records::Record;
use route::Mesh;

/// A packet on its mesh: the mesh is roomy, and the record fits it and is live.
#[derive(Clone, Copy)]
pub struct Packet {
    pub mesh: Mesh,
    pub state: Record,
    pub ghost served: { Served mesh state },
}
