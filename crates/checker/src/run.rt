// A whole text, line by line.
ghost use Rattle.std.specs.Prelude.{◌≡◌, ◌≤◌, length};
ghost use Rattle.limits.specs.Limits.{text_bytes};
ghost use Rattle.paper.specs.Rules.{start};
ghost use Rattle.paper.specs.Answer as paper;
ghost use Rattle.paper.specs.Answer.{items};
ghost use Rattle.checker.specs.Checked.{answer_of, Rooms};

use super::answer::{Answer, ending, report};
use lines::index::refused_index;
use lines::read::read_line;
use reader::find::line_end;
use steps::state::State;
use table::stored::Stored;

// Judges the lines of a text one by one, up to the first that is refused.
pub(crate) fn run(text: &[u8], pool: &mut [u64], scratch: &mut [u64], capacity: usize) -> Answer
    requires { (length text.now ≤ text_bytes) × Rooms capacity pool.old scratch.old }
    ensures { answer_of result ≡ paper.run capacity start 0 (items text.now) }
{
    let mut state = State::new();
    let mut at = 0;
    while at < text.len() {
        let e = line_end(text, at);
        let line = &text[at..e];
        let ended = e < text.len();
        let stored = Stored {
            indices: &state.table.indices,
            starts: &state.table.starts,
            counts: &state.table.counts,
            polynomials: state.table.stored,
            pool,
            ring: state.ring,
        };
        let said = read_line(&stored, line, ended, scratch);
        if let Err(why) = state.judge(said, pool, scratch, capacity) {
            let v = why.number();
            let i = refused_index(line, ended, v);
            return report(&state, v, state.lines + 1, i);
        }
        at = e + 1;
    }
    ending(&state)
}
