//! When the connections of a service's ports are taken.

use std::sync::Wait;

/// A service, as its ports see it: they take no connection before it begins.
pub trait Opening {
    /// Waits until all threads have been started, or the service stops.
    fn wait_for_begin<R: Wait>(&self, rt: &R);
}
