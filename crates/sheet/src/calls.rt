// The line calls: a schedule line in, its sheet line out at the front of lent room. A line is passed without its newline.
ghost use Rattle.std.specs.Prelude.{◌≡◌, ◌≤◌, length};
ghost use Rattle.rules.specs.Step.{begin_in, run_in};
ghost use Rattle.rules.specs.List.{key_list_of};
ghost use Rattle.forms.specs.Form.{line_form};
ghost use Rattle.sheet.specs.Sheet.{refused_of, begin_line, run_line, play_in, end_form, first_of, line_in, line_of, end_of};
ghost use Rattle.sheet.specs.Shown.{plays};
ghost use Rattle.sheet.specs.Called.{Called};

use crate::shown;
use crate::shown::SheetLine;
use forms::Line;
use rules::answer::{Refusal, RunReply};
use rules::state::State;

// The least room that is written to.
pub const LEAST_ROOM: usize = 256;

// What a line call answers: the refusal, if it is one, and how many bytes it wrote.
#[derive(Clone, Copy, PartialEq, Eq, Debug)]
pub struct Answer {
    pub refused: Option<Refusal>,
    pub length: usize,
}

// A refusal that writes nothing.
fn silent(refusal: Refusal) -> Answer
    ensures { result ≡ Rattle.sheet.specs.Called.silently refusal }
{
    Answer {
        refused: Some(refusal),
        length: 0,
    }
}

// A reply and its line. 256 bytes are asked of the room here and in `put`: a type for such a room would be made anew from what is left of it.
fn reply_with(reply: Result<SheetLine, Refusal>, room: &mut [u8]) -> Answer
    requires { 256 ≤ length room.old }
    ensures { (s : State) → Called (plays reply s) room.old result s room.new }
{
    match reply {
        Ok(line) => Answer {
            refused: None,
            length: shown::put(line, room),
        },
        Err(refusal) => Answer {
            refused: Some(refusal),
            length: writing::put_line(room, b'X', &[shown::number(refusal)]),
        },
    }
}

// A refusal's line alone.
pub fn refusal_line(refusal: Refusal, room: &mut [u8]) -> Answer
    ensures { (s : State) → Called (refused_of (length room.old) s refusal) room.old result s room.new }
{
    if room.len() < LEAST_ROOM {
        return silent(Refusal::LittleRoom);
    }
    reply_with(Err(refusal), room)
}

// A begin, and `B thread`.
fn begin_reply(s: &mut State, t: u32, o: u32, k: u32) -> Result<SheetLine, Refusal>
    ensures { plays result s.new ≡ begin_line t (begin_in s.old t o k).state (begin_in s.old t o k).reply }
{
    beginning::begin_in(s, t, o, k)?;
    Ok(SheetLine::Begun { thread: t })
}

// Counted steps, and `S thread taken phase` or, on ending, `D thread taken answer commit`. A line that holds the reply as it is would be no plainer:
// `put` would need a function more, to take it apart.
fn steps_reply(s: &mut State, t: u32, n: u32) -> Result<SheetLine, Refusal>
    ensures { plays result s.new ≡ run_line t (run_in s.old t n).state (run_in s.old t n).reply }
{
    match machine::run::run_in(s, t, n)? {
        RunReply::Stops { taken, phase } => Ok(SheetLine::Stops {
            thread: t,
            taken,
            phase,
        }),
        RunReply::Ends {
            taken,
            answer,
            commit,
        } => Ok(SheetLine::Ends {
            thread: t,
            taken,
            answer,
            commit,
        }),
    }
}

// What a line other than the first comes to.
#[tactic(auto, unfolding(crate::specs::Sheet::play_in))]
fn line_reply(s: &mut State, line: &[u8]) -> Result<SheetLine, Refusal>
    ensures { plays result s.new ≡ play_in s.old (line_form line.now) }
{
    match forms::line_form(line) {
        Some(
            Line::Begin {
                thread,
                operation,
                key,
            },
        ) => begin_reply(s, thread, operation, key),
        Some(Line::Steps { thread, count }) => steps_reply(s, thread, count),
        None => Err(Refusal::NotOfTheForms),
    }
}

// The key list, and `E committed made keys`.
fn end_reply(s: &State) -> Result<SheetLine, Refusal>
    ensures { plays result s.now ≡ end_form s.now (key_list_of s.now) }
{
    let keys = listing::key_list(s)?;
    Ok(SheetLine::Keys {
        committed: s.committed,
        made: s.made,
        keys,
    })
}

// The first line: a fresh state, and `R`. A refused one has the zero state.
pub fn settings_line(line: &[u8], room: &mut [u8]) -> (State, Answer)
    ensures { Called (first_of (length room.old) line.now) room.old result.1 result.0 room.new }
{
    if room.len() < LEAST_ROOM {
        return (beginning::zero_state(), silent(Refusal::LittleRoom));
    }
    match forms::first_form(line) {
        // A form's settings are in range, so `fresh` refuses none.
        Some(settings) => (
            beginning::fresh(settings).0,
            reply_with(Ok(SheetLine::Settings), room),
        ),
        None => (
            beginning::zero_state(),
            reply_with(Err(Refusal::BadSettings), room),
        ),
    }
}

// Any other line, without the range test.
pub fn line_in(s: &mut State, line: &[u8], room: &mut [u8]) -> Answer
    ensures { Called (line_in (length room.old) s.old line.now) room.old result s.new room.new }
{
    if room.len() < LEAST_ROOM {
        return silent(Refusal::LittleRoom);
    }
    let reply = line_reply(s, line);
    reply_with(reply, room)
}

// Any other line.
pub fn line(s: &mut State, line: &[u8], room: &mut [u8]) -> Answer
    ensures { Called (line_of (length room.old) s.old line.now) room.old result s.new room.new }
{
    if room.len() < LEAST_ROOM {
        return silent(Refusal::LittleRoom);
    }
    if !range::in_range(s) {
        return silent(Refusal::OutOfRange);
    }
    line_in(s, line, room)
}

// The end of the sheet.
pub fn end_line(s: &State, room: &mut [u8]) -> Answer
    ensures { Called (end_of (length room.old) s.now) room.old result s.now room.new }
{
    if room.len() < LEAST_ROOM {
        return silent(Refusal::LittleRoom);
    }
    if !range::in_range(s) {
        return silent(Refusal::OutOfRange);
    }
    reply_with(end_reply(s), room)
}
