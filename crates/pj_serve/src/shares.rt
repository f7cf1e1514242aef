//! How sessions are shared out among workers.
ghost use Rattle.std.specs.Prelude.{◌≡◌, ◌≤◌, ◌<◌, IfSome};
ghost use Rattle.pj_serve.specs.Shares.{shares as its_shares};

use std::alloc::Global;

/// The share of each worker: the sessions divided by the workers, and one more for each of the first of what remains. `None` where
/// memory was wanted.
pub(crate) fn shares(alloc: Global, sessions: u32, workers: u32) -> Option<Vec<u32>>
    requires some { 0 < workers }
    requires few { workers ≤ 64 }
    requires sessions { sessions ≤ 65536 }
    ensures { IfSome result (λ shares. shares.items ≡ its_shares sessions workers) }
{
    let least = sessions / workers;
    let more = sessions % workers;
    let mut shares = Vec::with_capacity(alloc, workers as usize).ok()?;
    for worker in 0..workers {
        shares.push_reserved(if worker < more { least + 1 } else { least });
    }
    Some(shares)
}
