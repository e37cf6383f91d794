//! A service as a type.

use cluster::Deployment;
use std::marker::Brand;
use std::sync::ledger::Ledger;

/// One service, by what its cluster began with, and by its accounts. It has no values: types that lie under a lock name it,
/// so that whoever gets the lock knows the service. A ledger has one book, so a service has one too.
pub(crate) trait Service: Deployment + Ledger {
    ghost use Rattle.std.specs.Prelude.{List};
    ghost use Rattle.apop.specs.Accounts.{Account};

    ghost accounts: { List Account };
}

impl Service for Brand {
    ghost use Rattle.std.specs.Prelude.{[]};

    ghost accounts = { [] };
}
