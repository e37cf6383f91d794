//! Laws of every run of a whole service. Each is a function that does nothing: its contract is the law.
//!
//! A run is any list of happenings: events, and sessions that are lost out of memory. One that can't happen changes
//! nothing, so a law of all lists is one of those too in which each event can happen. Where a node finds no memory its
//! run has a crash.
ghost use Rattle.std.specs.Prelude.{◌≡◌, ℕ, List, [], ◌∷◌, ◌++◌, map, Some, is_some, true, false};
ghost use Rattle.std.specs.List.{concat};
ghost use Rattle.maildrop.specs.CommandId.{CommandId};
ghost use Rattle.maildrop.specs.Kept.{kept_for};
ghost use Rattle.maildrop.specs.Maildrop.{Maildrop, closed};
ghost use Rattle.maildrop.specs.Reopening.{Performs, Reopens, after_steps};
ghost use Rattle.maildrop.specs.declared.outcome.Outcome.{Outcome};
ghost use Rattle.apop.specs.Login.{account_named};
ghost use Rattle.session.specs.Alone.{replies_alone};
ghost use Rattle.session.specs.Prefix.{IsPrefix};
ghost use Rattle.session.specs.Session.{by_answer};
ghost use Rattle.session.specs.declared.state.State.{State};
ghost use Rattle.node.specs.Nodes.{answered};
ghost use Rattle.node.specs.Outcomes.{first_maildrop};
ghost use Rattle.node.specs.declared.log.NodeLog.{NodeLog};
ghost use Rattle.runs.specs.Clients.{Client, IsLater, Waits, client_of};
ghost use Rattle.runs.specs.Lives.{Epoch, IsLife, IsNext, first_of, lived, own_performed, steps_of};
ghost use Rattle.runs.specs.Messages.{NodeEvent, log_of, network_of};
ghost use Rattle.runs.specs.Projection.{Agree, AreComparable, HasOneUser, HasTickets, IsProjected, IsUserOf, own_commands};
ghost use Rattle.runs.specs.Refusals.{refusal_of};
ghost use Rattle.runs.specs.Services.{Service, Happening, opening_of, run_of, occurs};
ghost use Rattle.runs.specs.declared.config.Config.{Config};
ghost use Rattle.runs.specs.declared.event.Event.{Event};
ghost use Rattle.runs.specs.declared.refused.Refused.{Refused};

use std::alloc::Allocator;

/// What each session is told is a prefix of what a POP3 server says that has its user's maildrop alone: to the session's
/// greeting and lines, taking the user's decided commands in order, each once. The maildrop begins as the service opened it.
pub fn projection<A: Allocator>()
    ensures { (config : Config A) (happenings : List (Happening A)) (session : ℕ) (c : Client A) →
        client_of session (run_of config happenings).clients ≡ Some c
        → IsProjected config (run_of config happenings) c }
{}

/// Of two sessions that agree on greeting, lines, tickets and their user's decided commands, the replies that both have
/// got are equal: one is a prefix of the other. The two runs may differ in all else, other users, nodes and window
/// included; accounts are the same, and so is the maildrop with which the user began, limits included.
pub fn two_runs<A: Allocator>()
    ensures { (config config2 : Config A) (happenings happenings2 : List (Happening A)) (session session2 : ℕ) (c c2 : Client A) (user : List ℕ) →
        client_of session (run_of config happenings).clients ≡ Some c
        → client_of session2 (run_of config2 happenings2).clients ≡ Some c2
        → Agree config config2 (run_of config happenings) (run_of config2 happenings2) c c2 user
        → AreComparable c.replies c2.replies }
{}

/// All that a session asks for is for one user, who has an account, whatever is answered.
pub fn one_user<A: Allocator>()
    ensures { (config : Config A) (c : Client A) → HasOneUser config c }
{}

/// A session's tickets are those that its node gave to what its lines asked for, one for one and in order.
pub fn tickets_of_sessions<A: Allocator>()
    ensures { (config : Config A) (happenings : List (Happening A)) (session : ℕ) (c : Client A) →
        client_of session (run_of config happenings).clients ≡ Some c
        → HasTickets config (run_of config happenings) c }
{}

/// An answer that a session awaits fits what it asked for: once its node has got it, the session can take it and go on.
pub fn answers_fit<A: Allocator>()
    ensures { (config : Config A) (happenings : List (Happening A)) (session : ℕ) (c : Client A) (log : NodeLog A) (state : State A) (id : CommandId) (answer : Outcome A) →
        client_of session (run_of config happenings).clients ≡ Some c
        → c.standing ≡ Waits state id
        → log_of c.node (run_of config happenings).network.logs ≡ Some log
        → answered log id ≡ Some answer
        → is_some (by_answer state id.ticket answer) ≡ true }
{}

/// A client stays, with its node and its greeting. What it sent and was told stays, and more comes after.
pub fn what_was_told_stays<A: Allocator>()
    ensures { (config : Config A) (early late : List (Happening A)) (session : ℕ) (c : Client A) →
        client_of session (run_of config early).clients ≡ Some c
        → (later : Client A) × (client_of session (run_of config (early ++ late)).clients ≡ Some later) × IsLater c later }
{}

/// An event that is refused changes nothing.
pub fn refused_changes_nothing<A: Allocator>()
    ensures { (config : Config A) (service : Service A) (event : Event A) (reason : Refused) →
        refusal_of service event ≡ Some reason → occurs config service event ≡ service }
{}

/// The nodes of a service take part in a run of nodes. So what holds of all runs of nodes, as that they agree and learn,
/// holds of each run of a service.
pub fn services_run_on_nodes<A: Allocator>()
    ensures { (config : Config A) (happenings : List (Happening A)) →
        (events : List (NodeEvent A)) × ((run_of config happenings).network ≡ network_of (opening_of config) events) }
{}

/// A service that opens with what a node of an ended one left goes on where that node was. The user's maildrop opens as it
/// opened before, after the user's own commands that the node had performed, with its lock open and the new limits. These
/// commands are the first of the user's decided ones. Of a user who had no account there, all stays that was kept.
pub fn services_go_on<A: Allocator>()
    ensures opens { (epoch : Epoch A) (next : Config A) (user : List ℕ) (maildrop : Maildrop A) →
        IsNext epoch next → first_maildrop (opening_of epoch.config) user ≡ Some maildrop → is_some (account_named next.accounts user) ≡ true
        → first_maildrop (opening_of next) user
        ≡ Some (after_steps maildrop (map (λ c. Performs c) (own_performed epoch.log user) ++ Reopens next.limits next.keys ∷ [])) }
    ensures front { (epoch : Epoch A) (next : Config A) (user : List ℕ) →
        IsNext epoch next → IsPrefix (own_performed epoch.log user) (own_commands epoch.config (run_of epoch.config epoch.happenings) user) }
    ensures others { (epoch : Epoch A) (next : Config A) (user : List ℕ) →
        IsNext epoch next → is_some (account_named epoch.config.accounts user) ≡ false
        → kept_for user next.kept ≡ kept_for user epoch.config.kept }
{}

/// Services one after another are one life: at its end a user's maildrop is what a server alone with it has, after the
/// user's commands of all epochs. The last service opens with it, and tells each of its sessions a prefix of what that
/// server says. `maildrop` is the one with which the life began, open or not: only what is kept of it counts.
pub fn lives_go_on<A: Allocator>()
    ensures kept { (epochs : List (Epoch A)) (last : Config A) (user : List ℕ) (maildrop : Maildrop A) →
        IsLife epochs last → closed maildrop ≡ kept_for user (first_of epochs last).kept
        → kept_for user last.kept ≡ closed (after_steps maildrop (steps_of epochs user)) }
    ensures opens { (epochs : List (Epoch A)) (last : Config A) (user : List ℕ) (maildrop : Maildrop A) →
        IsLife epochs last → closed maildrop ≡ kept_for user (first_of epochs last).kept → is_some (account_named last.accounts user) ≡ true
        → first_maildrop (opening_of last) user ≡ Some (lived maildrop epochs user last) }
    ensures told { (epochs : List (Epoch A)) (last : Config A) (user : List ℕ) (maildrop : Maildrop A) →
        IsLife epochs last → closed maildrop ≡ kept_for user (first_of epochs last).kept → is_some (account_named last.accounts user) ≡ true
        → (happenings : List (Happening A)) (session : ℕ) (c : Client A) →
        client_of session (run_of last happenings).clients ≡ Some c → IsUserOf last c user
        → IsPrefix c.replies (concat (replies_alone last.accounts c.stamp (Some (lived maildrop epochs user last)) c.lines c.tickets (own_commands last (run_of last happenings) user))) }
{}
