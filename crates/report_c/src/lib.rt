// The call of `report`, for C: it is the library's own, with its promise, and its answer in C's form.
// `include/mesh.h` declares it.
#![tactic(auto)]

ghost use Rattle.std.specs.Prelude.{◌≡◌};
ghost use Rattle.report.specs.Calls.{report};

use traffic::Written;

// `report::mesh_report`.
#[unsafe(no_mangle)]
pub extern "C" fn mesh_report(list: &[u8], words: &mut [u16], out: &mut [u8]) -> Written
    ensures { record { answer = result; words = words.new; bytes = out.new }
        ≡ report list.now words.old out.old }
{
    Written::from(report::mesh_report(list, words, out))
}
