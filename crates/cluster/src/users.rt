//! What an office shows of its users.
ghost use Rattle.std.specs.Prelude.{◌≡◌, ◌++◌, ◌∷◌, [], IfOk, OnOk};
ghost use Rattle.std.specs.List.{filter_map};
ghost use Rattle.cluster.specs.Users as spec;

use ballot::Memory;
use maildrop::{Name, Office, Ticket, Usage};
use std::alloc::Global;

/// The users whose maildrop is locked, each with the ticket of the Take that holds the lock, in the order of the office.
pub(crate) fn locks_in(alloc: Global, office: &Office) -> Result<Vec<(Name, Ticket)>, Memory>
    ensures { IfOk result (λ locks. locks.items ≡ spec.locks_in office.now) }
{
    let mut locks = Vec::new(alloc);
    for place in 0..office.users() {
        let Some(name) = office.name_at(place) else {
            unreachable!()
        };
        add_lock(office, name, &mut locks)?;
    }
    Ok(locks)
}

fn add_lock(office: &Office, name: Name, locks: &mut Vec<(Name, Ticket)>) -> Result<(), Memory>
    ensures { OnOk result (locks.new.items ≡ locks.old.items ++ filter_map (spec.lock_for office.now) (name ∷ [])) }
{
    if let Some(ticket) = office.holder(&name) {
        locks.push((name, ticket))?;
    }
    Ok(())
}

/// All users, each with what the maildrop has, in the order of the office.
pub(crate) fn usages_in(alloc: Global, office: &Office) -> Result<Vec<(Name, Usage)>, Memory>
    ensures { IfOk result (λ usages. usages.items ≡ spec.usages_in office.now) }
{
    let mut usages = Vec::new(alloc);
    for place in 0..office.users() {
        let Some(name) = office.name_at(place) else {
            unreachable!()
        };
        add_usage(office, name, &mut usages)?;
    }
    Ok(usages)
}

fn add_usage(office: &Office, name: Name, usages: &mut Vec<(Name, Usage)>) -> Result<(), Memory>
    ensures { OnOk result (usages.new.items ≡ usages.old.items ++ filter_map (spec.usage_for office.now) (name ∷ [])) }
{
    if let Some(usage) = office.usage(&name) {
        usages.push((name, usage))?;
    }
    Ok(())
}
