// The calls of `route`, for C: each is the library's own, with its promise. A plan comes as its three
// numbers, and the answer goes in C's form. `include/mesh.h` declares them.
#![tactic(auto)]

ghost use Rattle.std.specs.Prelude.{◌≡◌};
ghost use Rattle.route.specs.Route.{routed};
ghost use Rattle.route.specs.House.{numbered};
ghost use Rattle.route.specs.Check.{checked};

use route::{Checked, Plan, Routed, code_of};

// `route::mesh_route`.
#[unsafe(no_mangle)]
pub extern "C" fn mesh_route(
    columns: u8,
    rows: u8,
    rule: u8,
    node: u16,
    arrival: u8,
    destination: u16,
) -> Routed
    ensures { result ≡ routed columns rows rule node arrival destination }
{
    let plan = Plan {
        columns,
        rows,
        rule,
    };
    Routed::from(route::mesh_route(plan, node, arrival, destination))
}

// `route::mesh_number`.
#[unsafe(no_mangle)]
pub extern "C" fn mesh_number(columns: u8, rows: u8, rule: u8, list: &mut [u16]) -> u8
    ensures { record { refusal = result; list = list.new } ≡ numbered columns rows rule list.old }
{
    let plan = Plan {
        columns,
        rows,
        rule,
    };
    code_of(route::mesh_number(plan, list))
}

// `route::mesh_check`.
#[unsafe(no_mangle)]
pub extern "C" fn mesh_check(columns: u8, rows: u8, rule: u8, list: &[u16]) -> Checked
    ensures { result ≡ checked columns rows rule list.now }
{
    let plan = Plan {
        columns,
        rows,
        rule,
    };
    Checked::from(route::mesh_check(plan, list))
}
