// The calls of the crate `hisowake` as C has them: what libhisowake.a exports. A slice is a pointer and a length.
#![tactic(auto)]

ghost use Rattle.std.specs.Prelude.{◌≡◌};
ghost use Rattle.hisowake.specs.Calls.{point_code, point_bytes, count_code, count_bytes};

// Writes the point of any index to the front of `out`: 8 bytes an axis, most significant first. Answers 0 or the refusal's number, as C has it.
#[unsafe(no_mangle)]
pub extern "C" fn hisowake_point(plan: &[u8], index: u64, out: &mut [u8]) -> u64
    ensures { (result ≡ point_code plan.now index out.old) × (out.new ≡ point_bytes plan.now index out.old) }
{
    hisowake::hisowake_point(plan, index, out)
}

// Writes S, how many points of the run are inside the window, and the bound of demand 3 to the front of `out`: 8 bytes each, most significant first.
// The window has u and then q for each axis, 4 bytes each, likewise. Answers 0 or the refusal's number, as C has it.
#[unsafe(no_mangle)]
pub extern "C" fn hisowake_window_count(
    plan: &[u8],
    start: u64,
    count: u64,
    window: &[u8],
    out: &mut [u8],
) -> u64
    ensures { (result ≡ count_code plan.now start count window.now out.old) × (out.new ≡ count_bytes plan.now start count window.now out.old) }
{
    hisowake::hisowake_window_count(plan, start, count, window, out)
}
