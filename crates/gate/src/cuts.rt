//! What is swept together.

use terms::{Causes, Reach, ScopeNumber};

/// An enum and no closure: of a closure that is handed the gate at each login a contract could only say what its `post` says. A kill sweeps its scope within its own reach; a trip of a login, and of its firm, sweeps each login within that login's reach.
#[derive(Clone, Copy)]
pub(crate) enum Cut {
    Kill { scope: ScopeNumber, reach: Reach },
    Trip { login: u64, causes: Causes },
}
