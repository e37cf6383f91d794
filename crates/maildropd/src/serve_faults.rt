//! Which mistake led to a fault of `serve`.

use crate::serve_mistakes::mistake_in_options;
use clap::ArgMatches;
use command_line::{Mistake, mistake_in_accounts, mistake_in_folder, optional_text_of, text_of};
use ports::Fault;
use std::rt::Files;

/// Which mistake led to this fault of a service with these options, if that is known.
pub(crate) fn mistake_behind<'a, R: AllocGlobal + Files + Copy>(
    rt: &R,
    matches: &ArgMatches<'a>,
    fault: Fault,
) -> Option<Mistake<'a>> {
    match fault {
        Fault::Value | Fault::Account(_) => match mistake_in_options(matches) {
            None => mistake_in_accounts(rt, text_of(matches, "accounts")),
            mistake => mistake,
        },
        Fault::Listen(_, _) => Some(Mistake::PortTaken),
        Fault::ListenSocket => Some(Mistake::SocketNotMade(optional_text_of(
            matches,
            "ctl-socket",
        )?)),
        Fault::Log => Some(Mistake::LogNotOpened(optional_text_of(matches, "log")?)),
        Fault::Mark => Some(Mistake::MarkNotMade(optional_text_of(matches, "mark")?)),
        Fault::NotBegun => mistake_in_folder(rt, optional_text_of(matches, "data")?),
        _ => None,
    }
}
