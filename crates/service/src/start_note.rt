//! How a service was started, for the line of the log about that.

use crate::furthest::furthest_up;
use crate::served_node::ServedNode;
use ballot::Memory;
use rolls::millis_since;
use session_log::{EventLog, StartLoad};
use settings::{ServeOptions, Settings};
use std::alloc::Global;
use std::sync::Wait;
use std::time::{Clock, Instant};

/// The version of the program.
pub const VERSION: &str = "0.2.0";

/// How a service was started, and when.
#[derive(Drop)]
pub(crate) struct StartNote {
    text: String,
    began: Option<Instant>,
}

/// Adds a port, if there is one.
fn put_port(alloc: Global, text: &mut String, name: &str, port: Option<u16>) -> Result<(), Memory> {
    if let Some(port) = port {
        let part = format!(in alloc; " {name}={port}")?;
        text.push_str(part.as_str())?;
    }
    Ok(())
}

/// Adds a path, if there is one.
fn put_path(
    alloc: Global,
    text: &mut String,
    name: &str,
    path: Option<&str>,
) -> Result<(), Memory> {
    if let Some(path) = path {
        let part = format!(in alloc; " {name}={path}")?;
        text.push_str(part.as_str())?;
    }
    Ok(())
}

/// How a service with these options was started: `version=0.2.0 nodes=3 port=11000 ctl=11999 data=/var/mail`.
fn text_of(
    alloc: Global,
    options: &ServeOptions<'_>,
    settings: &Settings,
) -> Result<String, Memory> {
    let nodes = settings.cluster.get();
    let mut text = format!(in alloc; "version={VERSION} nodes={nodes}")?;
    put_port(alloc, &mut text, "port", settings.port)?;
    put_port(alloc, &mut text, "pop_port", settings.pop_port)?;
    put_port(alloc, &mut text, "peer_port", settings.peer_port)?;
    put_port(alloc, &mut text, "ctl", settings.ctl_port)?;
    put_path(alloc, &mut text, "ctl", options.ctl_socket)?;
    put_path(alloc, &mut text, "data", options.data)?;
    Ok(text)
}

impl StartNote {
    /// Of a service that is started now.
    pub(crate) fn new<R: Clock>(
        rt: &R,
        alloc: Global,
        options: &ServeOptions<'_>,
        settings: &Settings,
    ) -> Result<Self, Memory> {
        Ok(StartNote {
            text: text_of(alloc, options, settings)?,
            began: Instant::now(rt).ok(),
        })
    }

    /// Notes in the log that the service takes clients from now on, beginning with this epoch, and what its nodes have. Without
    /// memory to look at that nothing is noted.
    pub(crate) fn note<R: Wait + Clock, N: ServedNode>(
        &self,
        rt: &R,
        log: &EventLog,
        epoch: u64,
        nodes: &[N],
    ) {
        let Ok((messages, octets)) = load_of(nodes) else {
            return;
        };
        let load = StartLoad {
            messages,
            octets,
            millis: millis_since(rt, &self.began),
        };
        log.start(rt, epoch, load, self.text.as_str());
    }
}

/// How many messages the node has that is furthest, and how many octets these have.
fn load_of<N: ServedNode>(nodes: &[N]) -> Result<(u64, u64), Memory> {
    let (mut messages, mut octets): (u64, u64) = (0, 0);
    if let Some(node) = furthest_up(nodes) {
        for (_, usage) in &node.usage()? {
            messages = messages.saturating_add(usage.messages);
            octets = octets.saturating_add(usage.octets);
        }
    }
    Ok((messages, octets))
}
