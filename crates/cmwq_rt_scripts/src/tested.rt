//! Whether calls may be scripts.
ghost use Rattle.std.specs.Prelude.{◌≡◌, ◌<◌, ◌≤◌, ◌^◌, length, All, IsTrue, ◌&&◌};
ghost use Rattle.std.specs.List.{list_all};
ghost use Rattle.cmwq_model.specs.Prelude.{IsScripted, most_callers};
ghost use Rattle.cmwq_rt_scripts.specs.Tested.{is_scripted, is_script, are_scripts};

use cmwq_model::{Call, MOST_CALLERS, Shape};

fn is_scripted(shape: &Shape, call: Call) -> bool
    ensures { result ≡ is_scripted shape.now call }
{
    call.is_whole() && shape.has_numbers(call)
}

fn are_scripted(shape: &Shape, calls: &[Call]) -> bool
    ensures { result ≡ list_all (is_scripted shape.now) calls.now }
{
    calls.iter().all(|call| is_scripted(shape, *call))
}

fn is_script(shape: &Shape, calls: &Vec<Call>) -> bool
    ensures { result ≡ is_script shape.now calls.now.items }
{
    calls.len() < 4_294_967_296 && are_scripted(shape, calls)
}

fn are_all_scripts(shape: &Shape, scripts: &[Vec<Call>]) -> bool
    ensures { result ≡ list_all (λ s. is_script shape.now s.items) scripts.now }
{
    scripts.iter().all(|script| is_script(shape, script))
}

/// Whether these may be the scripts of a hub with this shape, as `run_scripts` wants them: there are at most
/// `MOST_CALLERS`, each of fewer than 4,294,967,296 calls, and each call is one that a script may hold, with numbers
/// inside the shape.
pub fn are_scripts(shape: &Shape, scripts: &[Vec<Call>]) -> bool
    ensures exact { result ≡ are_scripts shape.now scripts.now }
    ensures few { IsTrue result → length scripts.now ≤ most_callers }
    ensures calls { IsTrue result
        → All (λ s. All (IsScripted shape.now) s.items × (length s.items < 2 ^ 32)) scripts.now }
{
    scripts.len() <= usize::from(MOST_CALLERS) && are_all_scripts(shape, scripts)
}
