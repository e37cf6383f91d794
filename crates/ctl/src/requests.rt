//! Which requests have to wait.
ghost use Rattle.std.specs.Prelude.{◌≡◌};
ghost use Rattle.ctl.specs.Answers as spec;

use script::Request;

/// Whether the answer to a request may have to wait until the nodes have decided, or those of the next epoch lead, however
/// long that takes.
pub fn awaits_nodes(request: &Request) -> bool
    ensures { result ≡ spec.awaits_nodes request.now }
{
    match request {
        Request::Deliver { .. } | Request::Put { .. } | Request::Break { .. } | Request::Roll =>
            true,
        Request::Kick { .. }
        | Request::Crash { .. }
        | Request::Status
        | Request::Sessions
        | Request::Stats
        | Request::Locks
        | Request::Users
        | Request::Reopen
        | Request::Stop { .. } => false,
    }
}
