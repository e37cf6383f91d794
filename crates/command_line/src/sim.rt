//! `maildropd sim`.

use crate::kept_reader::KeptReader;
use crate::mistake::hint;
use crate::script_lines::mistake_in_line;
use clap::{Command, Error};
use simulator::sim_run;
use std::alloc::Global;
use std::io;

/// What `--help` shows below the options.
const LANGUAGE: &str =
    "A line is one command, with one space between two words. Settings come first:
  nodes COUNT                    How many nodes there are, 1 to 9 (1)
  limits MESSAGES OCTETS IDS     What each maildrop holds, and its highest unique id (1000 1000000 1000000)
  window COUNT                   How many operations a node proposes at a time, 1 to 1000 (10)
  host NAME                      What the greetings' timestamps have behind their @ (localhost)
  account NAME METHOD SECRET     A user, with the method pass or apop
Commands:
  mail NODE USER TEXT            Delivers mail; a | stands between two lines
  keyed NODE USER KEY TEXT       Delivers mail under a key: it is stored once, however often it comes
  break NODE USER                Takes the user's lock from the session that has it
  connect S NODE NONCE           A client connects; S is an s and a number
  line S TEXT                    It sends a line
  hangup S                       It is gone, without QUIT
  tick NODE                      Time passes at a node, which asks again for what is missing
  campaign NODE                  A node tries to become the leader
  crash NODE                     A node stops, for good
  settle LIMIT                   The oldest messages arrive, and answers are taken, at most LIMIT of them
  storm COPIES LIMIT             The newest messages arrive first, each up to COPIES times
  deliver FROM TO KIND           One message arrives: propose, p1a, p1b, p2a, p2b, decision or ask
  lose                           Messages sent so far are lost to settle and storm
  order NODE                     Tells what a node has performed
Example:
  printf 'account alice pass s\\ncampaign 1\\nmail 1 alice Subject: x||hi\\nsettle 100\\norder 1\\n' | maildropd sim
prints
  op alice 1/1 stored 1
  node 1 performed 1
  slot 1 alice 1/1 mail";

/// The command `sim` of the command line.
pub fn sim_command<'a>(alloc: Global) -> Result<Command<'a>, Error> {
    let sim = Command::new(alloc, "sim")
        .about(
            "Plays a script of messages, crashes and mail clients against a service, from standard input",
        )
        .after_help(LANGUAGE);
    Ok(sim)
}

/// Runs `sim`. Returns the exit status.
pub fn run_sim<R: AllocGlobal + Input + Print + Eprint>(rt: &R) -> u8 {
    let mut reader = KeptReader::new(rt.alloc(), rt.reader());
    let end = sim_run(rt, &mut reader, &mut io::writer(rt));
    if let Some(number) = end.line {
        hint(rt, reader.line(number).map(mistake_in_line));
    }
    end.status
}
