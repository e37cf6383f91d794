//! How far the messages of a service have arrived.
ghost use Rattle.std.specs.Prelude.{◌≡◌, ◌<◌, List, length, position, IfSome};
ghost use Rattle.std.specs.declared.alloc.Global.{Global};
ghost use Rattle.simulator.specs.Undelivered.{AreMarks, HaveArrived, is_of};
ghost use Rattle.runs.specs.declared.sent.Sent.{Sent};

use crate::undelivered::Route;

/// A place before which all messages of a route have arrived.
#[derive(Clone, Copy)]
pub(crate) struct Mark {
    /// The route.
    pub route: Route,
    /// The place, of those at which messages were sent, or the one after them.
    pub place: usize,
}

/// Which of the marks is the route's, if one is.
fn find(marks: &[Mark], route: &Route) -> Option<usize>
    ensures value { result ≡ position (is_of route.now) marks.now }
    ensures within { IfSome result (λ at. at < length marks.now) }
{
    marks.iter().position(|mark| mark.route.is_same(route))
}

/// A place before which all messages of a route have arrived, as far as the marks show.
pub(crate) fn place_of(marks: &[Mark], route: &Route) -> usize
    ensures { (sent : List (Sent Global)) → AreMarks sent marks.now → HaveArrived route.now result sent }
{
    match find(marks, route) {
        Some(at) => marks[at].place,
        None => 0,
    }
}

/// All messages of the route before this place have arrived. If there is no memory for its mark, this is forgotten.
pub(crate) fn keep(marks: &mut Vec<Mark>, route: Route, place: usize)
    ensures { (sent : List (Sent Global)) → AreMarks sent marks.old.items → HaveArrived route place sent → AreMarks sent marks.new.items }
{
    let at = find(marks, &route);
    let mark = Mark { route, place };
    match at {
        Some(at) => marks[at] = mark,
        None => {
            let _forgotten = marks.push(mark);
        }
    }
}
