// The routing call: refusals in their order, then the outputs.
ghost use Rattle.std.specs.Prelude.{◌≡◌};
ghost use Rattle.route.specs.Route.{routed, routed_of};

use crate::answers::outputs_at;
use crate::places::place_of;
use crate::plans::Plan;
use crate::refusals::Refusal;

/// The answer of `mesh_route` as C has it: the refusal, and the set of outputs, empty with a refusal.
#[repr(C)]
#[derive(Clone, Copy, Debug, PartialEq, Eq)]
pub struct Routed {
    pub refusal: u8,
    pub outputs: u8,
}

impl From<Result<u8, Refusal>> for Routed {
    ghost from_gives = { λ answer r. r ≡ routed_of answer };

    fn from(answer: Result<u8, Refusal>) -> Routed {
        match answer {
            Ok(outputs) => Routed {
                refusal: 0,
                outputs,
            },
            Err(refusal) => Routed {
                refusal: u8::from(refusal),
                outputs: 0,
            },
        }
    }
}

/// The outputs at a node for a packet that arrived travelling `arrival`, or starts there, and goes
/// to another node: exactly the first hops of the shortest paths that the rule allows. `arrival` is a
/// number, as C gives it: the call takes any.
pub fn mesh_route(plan: Plan, node: u16, arrival: u8, destination: u16) -> Result<u8, Refusal>
    ensures { routed_of result ≡ routed plan.columns plan.rows plan.rule node arrival destination }
{
    let m = plan.mesh()?;
    let nodes = m.nodes();
    if (nodes <= node) | (nodes <= destination) {
        return Err(Refusal::BadNode);
    }
    let here = place_of(m.columns, node);
    let Some(arrival) = m.arrives(here, arrival) else {
        return Err(Refusal::BadArrival);
    };
    let outputs = outputs_at(m, here, arrival, place_of(m.columns, destination));
    if outputs == 0 {
        return Err(Refusal::NoPath);
    }
    Ok(outputs)
}
