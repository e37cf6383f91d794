//! The settings of a script.
ghost use Rattle.std.specs.Prelude.{◌≡◌, ◌⊎◌, Ok, Err, OnOk, OnErr, IfErr};
ghost use Rattle.apop.specs.Accounts.{accounts_of};
ghost use Rattle.script.specs.Scripts.{default_settings, with_setting};

use crate::account_rows::add_account;
use crate::fault::ScriptFault;
use crate::host::Host;
use crate::setting::Setting;
use crate::window::Window;
use ballot::Cluster;
use maildrop::{Limits, Name};
use std::alloc::{Allocator, Global};
use std::collections::BTreeSet;
use std::marker::Model;

/// The limits of each maildrop, if a script sets none.
const MESSAGES: u64 = 1_000;

const OCTETS: u64 = 1_000_000;

const IDS: u64 = 1_000_000;

/// The window, if a script sets none.
const WINDOW: u64 = 10;

/// The host, if a script sets none.
const HOST: &[u8] = b"localhost";

/// What a script sets: one node, maildrops of 1,000 messages, 1,000,000 octets and unique ids up to 1,000,000, a window
/// of 10 slots, the host `localhost` and no accounts, if it sets nothing else.
#[derive(Drop)]
pub struct Settings<A: Allocator = Global> {
    cluster: Cluster,
    limits: Limits,
    window: Window,
    host: Host,
    rows: Vec<u8, A>,
    names: BTreeSet<Name, A>,
}

impl<A: Allocator> Model for Settings<A> {
    ghost use Rattle.script.specs.Seen.{AreNamesOf};
    ghost use Rattle.script.specs.Rows.{AreRows, accounts_written};
    ghost use Rattle.script.specs.Scripts.{Settings};

    ghost Value = { Settings };

    ghost view = { λ s. record {
      cluster = s.cluster;
      limits = s.limits;
      window = s.window;
      host = s.host;
      accounts = accounts_written s.rows.items;
    } };

    ghost invariant = { λ s. AreRows s.rows.items × AreNamesOf s.names (accounts_written s.rows.items) };
}

impl<A: Allocator + Copy> Settings<A> {
    /// What a script has that sets nothing. Takes no memory.
    pub(crate) fn new(alloc: A) -> Self
        ensures { result ≡ default_settings }
    {
        Settings {
            cluster: Cluster::new(1).unwrap(),
            limits: Limits::new(MESSAGES, OCTETS, IDS).unwrap(),
            window: Window::new(WINDOW).unwrap(),
            host: Host::new(HOST).unwrap(),
            rows: Vec::new(alloc),
            names: BTreeSet::new(alloc),
        }
    }

    /// Does a setting. After an error nothing is changed.
    pub(crate) fn set(&mut self, setting: Setting<'_>) -> Result<(), ScriptFault>
        ensures ok { OnOk result (with_setting self.old setting.entry ≡ Ok self.new) }
        ensures refused { IfErr result
            (λ error. (error ≡ ScriptFault.Memory) ⊎ (with_setting self.old setting.entry ≡ Err error)) }
        ensures err { OnErr result (self.new ≡ self.old) }
    {
        match setting {
            Setting::Nodes(cluster) => self.cluster = cluster,
            Setting::Limits(limits) => self.limits = limits,
            Setting::Window(window) => self.window = window,
            Setting::Host(host) => self.host = host,
            Setting::Account(row) => add_account(&mut self.rows, &mut self.names, &row)?,
        }
        Ok(())
    }

    /// The nodes.
    pub fn cluster(&self) -> Cluster
        ensures { result ≡ self.now.cluster }
    {
        self.cluster
    }

    /// The limits of each maildrop.
    pub fn limits(&self) -> Limits
        ensures { result ≡ self.now.limits }
    {
        self.limits
    }

    /// How far replicas may run ahead.
    pub fn window(&self) -> Window
        ensures { result ≡ self.now.window }
    {
        self.window
    }

    /// The host of all greetings.
    pub fn host(&self) -> &Host
        ensures { result.now ≡ self.now.host }
    {
        &self.host
    }

    /// The accounts, as the bytes of an accounts file.
    pub fn account_rows(&self) -> &[u8]
        ensures { accounts_of result.now ≡ Ok self.now.accounts }
    {
        &self.rows
    }
}
