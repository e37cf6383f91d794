//! Where envelopes that come in are put.

/// An inbox of envelopes, as a node has one.
pub trait Inbox<E> {
    /// The inbox before an envelope arrives, the envelope, and the inbox afterwards.
    ghost hears: { Self → E → Self → Type 0 };

    /// Takes an envelope. Returns false if it is lost.
    fn arrive(&mut self, envelope: E) -> bool
        ensures { hears self.old envelope self.new };
}
