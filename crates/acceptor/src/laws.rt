//! Laws of what an acceptor keeps. Each is a function that does nothing: its contract is the law.
ghost use Rattle.std.specs.Prelude.{◌≡◌, ◌⊎◌, ℕ, List, true};
ghost use Rattle.ballot.specs.Ballots.{BallotNumber};
ghost use Rattle.ballot.specs.Lists.{IsIn};
ghost use Rattle.ballot.specs.declared.pvalue.PValue.{PValue};
ghost use Rattle.acceptor.specs.Acceptors.{AcceptorState, Holds, HasReached, RiseBySlot, accepts, new_acceptor, after_p1a, after_p2a};
ghost use Rattle.acceptor.specs.Calls.{Call, all_called, WasAccepted};

/// An acceptor's ballot is at least that of each pvalue that it keeps.
pub fn acceptors_reach_what_they_keep<C>()
    ensures at_first { HasReached {C = C} new_acceptor }
    ensures after_p1a { (a : AcceptorState C) (b : BallotNumber) → HasReached a → HasReached (after_p1a a b) }
    ensures after_p2a { (a : AcceptorState C) (p : PValue C) → HasReached a → HasReached (after_p2a a p) }
{}

/// What is kept after a pvalue is an old one, or the new one if it isn't below the acceptor's
/// ballot. Such a one leaves something at least as high in its slot, and each slot for which
/// something was kept has something at least as high.
pub fn what_is_kept_stays_or_is_topped<C>()
    ensures old_or_new { (a : AcceptorState C) (p kept : PValue C) → IsIn kept (after_p2a a p).accepted → IsIn kept a.accepted ⊎ ((p ≡ kept) × (accepts a.ballot p.ballot ≡ true)) }
    ensures new { (a : AcceptorState C) (p : PValue C) → accepts a.ballot p.ballot ≡ true → Holds (after_p2a a p).accepted p.slot p.ballot }
    ensures old { (a : AcceptorState C) (p : PValue C) → HasReached a → (slot : ℕ) (b : BallotNumber) → Holds a.accepted slot b → Holds (after_p2a a p).accepted slot b }
{}

/// Whatever was called: each pvalue that an acceptor keeps is one that it has accepted, for each that
/// it has accepted it keeps one of that slot of at least that ballot, and it keeps one for a slot.
pub fn acceptors_keep_the_highest<C>()
    ensures was_accepted { (calls : List (Call C)) (kept : PValue C) → IsIn kept (all_called new_acceptor calls).accepted → WasAccepted new_acceptor calls kept }
    ensures at_least_as_high { (calls : List (Call C)) (p : PValue C) → WasAccepted new_acceptor calls p → Holds (all_called new_acceptor calls).accepted p.slot p.ballot }
    ensures one_for_a_slot { (calls : List (Call C)) → RiseBySlot (all_called {C = C} new_acceptor calls).accepted }
{}
