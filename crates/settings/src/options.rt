//! What a service is started with.
ghost use Rattle.std.specs.Prelude.{◌≡◌, ◌≤◌, ◌↔◌, None, Some, IfOk, IfSome, IsErrOf, IsTrue};
ghost use Rattle.ports.specs.Ranges as ranges;
ghost use Rattle.settings.specs.Options as spec;

use apop::stamp;
use ballot::{Cluster, Items, LAST_NODE, NodeId};
use maildrop::Limits;
use node::WIDEST_WINDOW;
use ports::Fault;
use rolls::RollLimits;
use std::alloc::Global;
use std::net::IpAddr;
use store::SyncMode;

/// The highest number of milliseconds that may be asked for between two ticks.
const LONGEST_TICK_MS: u64 = 1_000_000;

/// The most seconds that a session may be silent, or a service be without a majority.
const LONGEST_PAUSE: u64 = 1_000_000;

/// The most bytes that files may have together that are delivered at a time.
const MOST_DELIVERY_BYTES: u64 = 1 << 40;

/// The most sessions and bytes after which an epoch may end, and the most keys that a maildrop may keep.
const MOST_IN_EPOCH: u64 = 1 << 40;

/// The most segments of a data folder that stay.
const MOST_SEGMENTS: u64 = 1_000_000;

/// The highest port.
const LAST_PORT: u64 = 65_535;

/// A nonce that can stand before every host.
const ANY_NONCE: &[u8] = b"1";

/// What becomes of a service if an audit finds an epoch that was not in order.
#[derive(Clone, Copy, Debug, PartialEq, Eq)]
pub enum OnFault {
    /// It ends, with the status 1.
    Stop,
    /// It goes on, and ends with the status 1.
    GoOn,
}

/// The options of a service, as they came: any numbers, any bytes.
#[derive(Clone, Copy)]
pub struct ServeOptions<'a> {
    /// The path of the accounts file.
    pub accounts: &'a str,
    /// The port at which POP3 clients are served at whichever node leads, if there is one: 1 to 65535.
    pub port: Option<u64>,
    /// Node n takes POP3 connections at this port and n more, if the nodes have ports: each 1 to 65535. One of `port` and
    /// this is given, or both.
    pub pop_port: Option<u64>,
    /// The address at which POP3 connections are taken.
    pub listen: IpAddr,
    /// The port of this machine that takes the operator's requests: 1 to 65535. Either this or `ctl_socket` is given.
    pub ctl_port: Option<u64>,
    /// The path of the Unix socket that takes the operator's requests.
    pub ctl_socket: Option<&'a str>,
    /// Node n takes what other nodes send at the port of this machine that is n above this one: each 1 to 65535. Without it
    /// all nodes are in this process, and have no ports.
    pub peer_port: Option<u64>,
    /// How many nodes there are: 1 to 9.
    pub nodes: u64,
    /// For how many slots a node proposes at a time: 1 to 1,000.
    pub window: u64,
    /// How many messages a maildrop may hold: at most 999,999,999.
    pub messages: u64,
    /// How many octets the messages of a maildrop may have together: at most 2^40.
    pub octets: u64,
    /// The highest unique id that a maildrop may give: at most 2^63.
    pub ids: u64,
    /// What stands after the `@` of the greetings' timestamps.
    pub host: &'a [u8],
    /// How many milliseconds lie between two ticks of a node at least: 1 to 1,000,000.
    pub tick_ms: u64,
    /// After how many seconds without a whole line a session ends: at most 1,000,000, and 0 for never.
    pub idle_seconds: u64,
    /// After how many seconds without a majority of the nodes the service ends: at most 1,000,000, and 0 for never.
    pub no_majority_seconds: u64,
    /// How many bytes the files have together that are delivered at a time: 1 to 2^40. One that is larger is alone.
    pub delivery_bytes: u64,
    /// After how many sessions an epoch ends: at most 2^40, and 0 for any number.
    pub epoch_sessions: u64,
    /// After how many bytes that are kept for its audit an epoch ends: at most 2^40, and 0 for any number. A start goes on in a
    /// segment only if no more were added to it.
    pub epoch_bytes: u64,
    /// How many keys of deliveries a maildrop has at most when an epoch begins, the last ones: at most 2^40.
    pub keys: u64,
    /// What becomes of the service if an epoch was not in order.
    pub on_fault: OnFault,
    /// The path of the file that gets a line for each event, or `-` for standard error, if there is one.
    pub log: Option<&'a str>,
    /// The path of the folder that keeps mail beyond the process, if it is kept.
    pub data: Option<&'a str>,
    /// What a change that is kept there waits for before it is answered.
    pub sync: SyncMode,
    /// How many segments of the folder stay, the last ones: 1 to 1,000,000.
    pub keep: u64,
}

/// The options of a process that runs one node of a service.
#[derive(Clone, Copy)]
pub struct NodeOptions<'a> {
    /// The options of the service, which has ports for its nodes.
    pub service: ServeOptions<'a>,
    /// The node's number: 1 to the number of nodes.
    pub node: u64,
    /// The path of a folder that gets a mark of the node, if there is one. A node that has a mark there doesn't start.
    pub mark: Option<&'a str>,
}

/// What the options of a service say, once each is in its range.
#[derive(Drop)]
pub struct Settings {
    /// The nodes.
    pub cluster: Cluster,
    /// For how many slots a node proposes at a time: 1 to 1,000.
    pub window: u64,
    /// The limits of each maildrop.
    pub limits: Limits,
    /// What stands after the `@` of the greetings' timestamps.
    pub host: Items<u8>,
    /// The port at which clients are served at whichever node leads.
    pub port: Option<u16>,
    /// The ports of the nodes lie above this one: port `pop_port` + n is node n's.
    pub pop_port: Option<u16>,
    /// The address of these ports.
    pub listen: IpAddr,
    /// Nodes send to one another at the ports above this one of this machine: port `peer_port` + n is node n's.
    pub peer_port: Option<u16>,
    /// The node that runs here, if not all do.
    pub node: Option<NodeId>,
    /// The port that takes the operator's requests. If there is none, a Unix socket takes them.
    pub ctl_port: Option<u16>,
    /// How many milliseconds lie between two ticks of a node at least: 1 to 1,000,000.
    pub tick_ms: u64,
    /// After how many seconds without a whole line a session ends: 0 for never.
    pub idle_seconds: u64,
    /// After how many seconds without a majority of the nodes the service ends: 0 for never.
    pub no_majority_seconds: u64,
    /// How many bytes the files have together that are delivered at a time.
    pub delivery_bytes: u64,
    /// After how much an epoch ends.
    pub roll_limits: RollLimits,
    /// How many keys of deliveries a maildrop has at most when an epoch begins.
    pub keys: usize,
    /// What becomes of the service if an epoch was not in order.
    pub on_fault: OnFault,
}

impl Settings {
    /// Whether a node runs in this process.
    pub fn runs(&self, node: NodeId) -> bool
        ensures { result ≡ spec.runs node self.now.node }
    {
        match self.node {
            None => true,
            Some(only) => only == node,
        }
    }
}

fn is_between(low: u64, high: u64, number: u64) -> bool
    ensures { result ≡ ranges.is_between low high number }
{
    low <= number && number <= high
}

/// Whether a number that may be left out is in its range.
fn may_be_between(low: u64, high: u64, number: Option<u64>) -> bool
    ensures { result ≡ ranges.may_be_between low high number }
{
    match number {
        None => true,
        Some(number) => is_between(low, high, number),
    }
}

/// Whether clients and the operator have a way in each: clients one or two, the operator one of two.
fn have_ways_in(options: &ServeOptions<'_>) -> bool
    ensures { result ≡ spec.have_ways_in options.now }
{
    (options.port.is_some() || options.pop_port.is_some())
        && ((options.ctl_port.is_some() && options.ctl_socket.is_none())
            || (options.ctl_port.is_none() && options.ctl_socket.is_some()))
}

/// Whether the ports are in their ranges.
fn are_ports(options: &ServeOptions<'_>) -> bool
    requires { options.now.nodes ≤ 9 }
    ensures { result ≡ spec.are_ports options.now }
{
    may_be_between(1, LAST_PORT, options.port)
        && may_be_between(0, LAST_PORT - options.nodes, options.pop_port)
        && may_be_between(0, LAST_PORT - options.nodes, options.peer_port)
        && may_be_between(1, LAST_PORT, options.ctl_port)
}

/// Whether the bounds of epochs are in their ranges.
fn are_of_epochs(options: &ServeOptions<'_>) -> bool
    ensures { result ≡ spec.are_of_epochs options.now }
{
    options.epoch_sessions <= MOST_IN_EPOCH
        && options.epoch_bytes <= MOST_IN_EPOCH
        && options.keys <= MOST_IN_EPOCH
}

/// Whether the numbers that are no limits of a maildrop are in their ranges.
fn are_in_range(options: &ServeOptions<'_>) -> bool
    ensures { result ≡ spec.are_in_range options.now }
{
    is_between(1, LAST_NODE as u64, options.nodes)
        && is_between(1, WIDEST_WINDOW, options.window)
        && is_between(1, LONGEST_TICK_MS, options.tick_ms)
        && options.idle_seconds <= LONGEST_PAUSE
        && options.no_majority_seconds <= LONGEST_PAUSE
        && is_between(1, MOST_DELIVERY_BYTES, options.delivery_bytes)
        && are_of_epochs(options)
        && is_between(1, MOST_SEGMENTS, options.keep)
        && are_ports(options)
        && have_ways_in(options)
}

/// A port that is in its range, if it is given.
fn port_of(number: Option<u64>) -> Option<u16>
    requires { IfSome number (λ port. port ≤ 65535) }
    ensures { result ≡ number }
{
    match number {
        None => None,
        Some(number) => Some(number as u16),
    }
}

/// Returns what the options say: `Value` if one is out of its range, or `Memory`.
pub fn settings_of(alloc: Global, options: &ServeOptions<'_>) -> Result<Settings, Fault>
    ensures value { IsErrOf result Fault.Value ↔ ¬ spec.AreGood options.now }
    ensures cluster { IfOk result (λ settings. settings.cluster ≡ options.now.nodes) }
    ensures window { IfOk result (λ settings. settings.window ≡ options.now.window) }
    ensures limits { IfOk result (λ settings. settings.limits ≡ spec.limits_of options.now) }
    ensures host { IfOk result (λ settings. settings.host ≡ options.now.host.now) }
    ensures port { IfOk result (λ settings. settings.port ≡ options.now.port) }
    ensures pop_port { IfOk result (λ settings. settings.pop_port ≡ options.now.pop_port) }
    ensures peer_port { IfOk result (λ settings. settings.peer_port ≡ options.now.peer_port) }
    ensures node { IfOk result (λ settings. settings.node ≡ None) }
    ensures ctl_port { IfOk result (λ settings. settings.ctl_port ≡ options.now.ctl_port) }
    ensures tick { IfOk result (λ settings. settings.tick_ms ≡ options.now.tick_ms) }
    ensures idle { IfOk result (λ settings. settings.idle_seconds ≡ options.now.idle_seconds) }
    ensures no_majority { IfOk result (λ settings. settings.no_majority_seconds ≡ options.now.no_majority_seconds) }
    ensures delivery { IfOk result (λ settings. settings.delivery_bytes ≡ options.now.delivery_bytes) }
    ensures epochs { IfOk result (λ settings. settings.roll_limits ≡ spec.roll_limits_of options.now) }
    ensures keys { IfOk result (λ settings. settings.keys ≡ options.now.keys) }
    ensures on_fault { IfOk result (λ settings. settings.on_fault ≡ options.now.on_fault) }
{
    if !are_in_range(options) || stamp(ANY_NONCE, options.host).is_none() {
        return Err(Fault::Value);
    }
    let Some(cluster) = Cluster::new(options.nodes as u8) else {
        return Err(Fault::Value);
    };
    let Some(limits) = Limits::new(options.messages, options.octets, options.ids) else {
        return Err(Fault::Value);
    };
    let Ok(host) = Items::from_bytes(alloc, options.host) else {
        return Err(Fault::Memory);
    };
    Ok(Settings {
        cluster,
        window: options.window,
        limits,
        host,
        port: port_of(options.port),
        pop_port: port_of(options.pop_port),
        listen: options.listen,
        peer_port: port_of(options.peer_port),
        node: None,
        ctl_port: port_of(options.ctl_port),
        tick_ms: options.tick_ms,
        idle_seconds: options.idle_seconds,
        no_majority_seconds: options.no_majority_seconds,
        delivery_bytes: options.delivery_bytes,
        roll_limits: RollLimits {
            sessions: options.epoch_sessions,
            bytes: options.epoch_bytes,
        },
        keys: options.keys as usize,
        on_fault: options.on_fault,
    })
}

/// Whether a node can run in a process of its own: it is in the cluster, the nodes have ports, and no mail is kept beyond the
/// process.
fn may_be_alone(options: &NodeOptions<'_>) -> bool
    ensures { result ≡ spec.may_be_alone options.now }
{
    options.service.peer_port.is_some()
        && is_between(1, options.service.nodes, options.node)
        && options.service.data.is_none()
}

/// Returns the settings of a process with one node: `Value` if an option is out of its range or the node can't be alone, or `Memory`.
pub fn node_settings_of(alloc: Global, options: &NodeOptions<'_>) -> Result<Settings, Fault>
    ensures value { IsErrOf result Fault.Value ↔ ¬ spec.AreNodeGood options.now }
    ensures cluster { IfOk result (λ settings. settings.cluster ≡ options.now.service.nodes) }
    ensures window { IfOk result (λ settings. settings.window ≡ options.now.service.window) }
    ensures limits { IfOk result (λ settings. settings.limits ≡ spec.limits_of options.now.service) }
    ensures host { IfOk result (λ settings. settings.host ≡ options.now.service.host.now) }
    ensures port { IfOk result (λ settings. settings.port ≡ options.now.service.port) }
    ensures pop_port { IfOk result (λ settings. settings.pop_port ≡ options.now.service.pop_port) }
    ensures peer_port { IfOk result (λ settings. settings.peer_port ≡ options.now.service.peer_port) }
    ensures node { IfOk result (λ settings. settings.node ≡ Some options.now.node) }
    ensures ctl_port { IfOk result (λ settings. settings.ctl_port ≡ options.now.service.ctl_port) }
    ensures tick { IfOk result (λ settings. settings.tick_ms ≡ options.now.service.tick_ms) }
    ensures idle { IfOk result (λ settings. settings.idle_seconds ≡ options.now.service.idle_seconds) }
    ensures no_majority { IfOk result (λ settings. settings.no_majority_seconds ≡ options.now.service.no_majority_seconds) }
    ensures delivery { IfOk result (λ settings. settings.delivery_bytes ≡ options.now.service.delivery_bytes) }
{
    if !may_be_alone(options) {
        return Err(Fault::Value);
    }
    match settings_of(alloc, &options.service) {
        Ok(mut settings) => {
            settings.node = NodeId::new(options.node as u8);
            Ok(settings)
        }
        Err(fault) => Err(fault),
    }
}
