// Pick: the front entry, if it is Blocked, is promoted, whatever the counters say.
ghost use Rattle.rules.specs.Calls.{pick_of};
ghost use Rattle.manager.specs.State.{view, Sound, Did};

use crate::{Said, State};
use rules::{Answer, Mode};

pub fn pick(s: State) -> State
    requires { Sound s }
    ensures { Did result (pick_of (view s)) }
{
    let mut n = s;
    let mut answer = Answer::Nothing;
    if 0 < n.count && n.entries[0].mode == Mode::Blocked {
        let p = n.entries[0].promoted();
        n.entries[0] = p;
        answer = p.named();
    }
    n.said = Said { answer, burnt: 0 };
    n
}
