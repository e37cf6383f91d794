//! Holds a session up after a login that was refused.

use crate::state::ServiceState;
use ballot::NodeId;
use session::Gate;
use session_log::{REFUSED_LOGIN_SECONDS, SessionFacts};
use std::net::SocketAddr;
use std::sync::{Mutex, Wait};
use std::thread;
use std::time::{Clock, Duration};

/// Passed around each line of a session: after a login that was refused it is left only some seconds later, so that nobody
/// tries many secrets over one connection. The refusal has gone out by then.
#[derive(Drop)]
pub(crate) struct LoginGate<'a, R> {
    /// The system: waits, and the clock.
    pub rt: R,
    /// What all threads of the epoch see.
    pub state: &'a ServiceState,
    /// What is known of the session.
    pub facts: &'a Mutex<SessionFacts>,
    /// The node that it asks.
    pub node: NodeId,
    /// The address of its client.
    pub peer: SocketAddr,
}

impl<R: Wait + Clock> Gate for LoginGate<'_, R> {
    ghost enters = { λ _ _. Unit {0} };

    ghost leaves = { λ _ _. Unit {0} };

    fn enter(&mut self) {
        self.facts.lock(&self.rt).hear();
    }

    fn leave(&mut self) {
        let owes_pause = self.facts.lock(&self.rt).take_pause();
        if owes_pause {
            self.state
                .life()
                .log()
                .login_refused(&self.rt, self.node, self.peer);
            thread::sleep(&self.rt, Duration::from_secs(REFUSED_LOGIN_SECONDS));
        }
    }
}
