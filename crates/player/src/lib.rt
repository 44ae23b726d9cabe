// A whole schedule, played one sheet line a call, or several.
#![tactic(auto)]

ghost use Rattle.std.specs.Prelude.{List, ◌≡◌, ℕ, suc, ◌+◌, ◌^◌, ◌≤◌, ◌<◌, length, drop, Option};
ghost use Rattle.text.specs.Text.{newline, until};
ghost use Rattle.player.specs.Turns.{Out, front, opened, first_turn, line_turn, turn_of, Turned, turned_to};
ghost use Rattle.player.specs.Several.{last, turns_of, several_of};
ghost use Rattle.player.specs.Ahead.{Ahead, Among};

use rules::answer::Refusal;
use rules::state::{Settings, State};
use sheet::calls;
use sheet::calls::{Answer, LEAST_ROOM};

// Where a play stands: the first byte not yet played, the stage (0 before the first line, 1 among the lines, any other at the end) and the state.
// The stage is a number, as `next` and `several` answer for a play at any.
#[derive(Clone, Copy)]
pub struct Player {
    pub at: usize,
    pub stage: u8,
    pub state: State,
}

// A play that has not begun. Its state is that of a fresh call too, and no other has been made.
#[tactic(auto, unfolding(crate::specs::Turns::opened, rules::specs::Step::fresh_of, rules::specs::Step::zero_settings, rules::specs::Range::settings_in_range))]
pub fn open() -> Player
    ensures { result ≡ opened }
{
    Player {
        at: 0,
        stage: 0,
        state: beginning::fresh(Settings {
            succ: 0,
            fail: 0,
            low: 0,
            max: 0,
        })
        .0,
    }
}

// The line of the file that begins at a byte, without its newline.
fn line_at(file: &[u8], at: usize) -> &[u8]
    requires { at ≤ length file.now }
    ensures line { result.now ≡ front (drop at file.now) }
    ensures size { length result.now ≡ until newline (drop at file.now) }
    ensures within { at + length result.now ≤ length file.now }
{
    let rest = &file[at..];
    &rest[..reading::until(rest, b'\n')]
}

// The settings line, or the file's refusal.
fn first_turn(p: &mut Player, file: &[u8], room: &mut [u8]) -> Answer
    requires { 256 ≤ length room.old }
    ensures { Turned (first_turn (length room.old) file.now p.old) room.old (turned_to result p.new) room.new }
{
    if 60000 < file.len() {
        p.stage = 2;
        return calls::refusal_line(Refusal::TooLong, room);
    }
    let line = line_at(file, 0);
    let (state, answer) = calls::settings_line(line, room);
    p.state = state;
    if answer.refused.is_none() {
        p.at = line.len() + 1;
        p.stage = 1;
    } else {
        p.stage = 2;
    }
    answer
}

// The next line, or the end line.
fn line_turn(p: &mut Player, file: &[u8], room: &mut [u8]) -> Answer
    ensures { Turned (line_turn (length room.old) file.now p.old) room.old (turned_to result p.new) room.new }
{
    if file.len() <= p.at {
        p.stage = 2;
        return calls::end_line(&p.state, room);
    }
    let line = line_at(file, p.at);
    p.at = p.at + line.len() + 1;
    p.stage = 1;
    calls::line(&mut p.state, line, room)
}

// The next sheet line of the file's play, at the front of `room`. At the end nothing is written.
pub fn next(p: &mut Player, file: &[u8], room: &mut [u8]) -> Answer
    ensures { Turned (turn_of (length room.old) file.now p.old) room.old (turned_to result p.new) room.new }
{
    if room.len() < LEAST_ROOM {
        return Answer {
            refused: Some(Refusal::LittleRoom),
            length: 0,
        };
    }
    if p.stage == 0 {
        return first_turn(p, file, room);
    }
    if p.stage == 1 {
        return line_turn(p, file, room);
    }
    Answer {
        refused: None,
        length: 0,
    }
}

// The answer of a call behind others.
fn behind(before: Answer, next: Answer) -> Answer
    requires { before.length + next.length < 2 ^ 64 }
    ensures refused { result.refused ≡ last before.refused next.refused }
    ensures size { result.length ≡ before.length + next.length }
{
    Answer {
        refused: next.refused.or(before.refused),
        length: before.length + next.length,
    }
}

// Lines behind what the first turn wrote, while another surely fits. No `for` goes over them: where the room ends the play stops among them.
fn lines(p: &mut Player, first: Answer, file: &[u8], room: &mut [u8]) -> Answer
    requires { Among (turned_to first p.old) room.old }
    ensures going { (o : Out) (l : List ℕ) → Turned o l (turned_to first p.old) room.old → Ahead file.now o l (turned_to result p.new) room.new }
    ensures among { Among (turned_to result p.new) room.new }
    ensures done { result.length + 256 ≤ length room.new → length file.now ≤ p.new.at }
{
    let mut all = first;
    while p.at < file.len() && LEAST_ROOM <= room.len() - all.length {
        let line = line_at(file, p.at);
        let next = calls::line_in(&mut p.state, line, &mut room[all.length..]);
        all = behind(all, next);
        p.at = p.at + line.len() + 1;
    }
    all
}

// The end line behind what others wrote, where it surely fits.
fn ending(p: &mut Player, all: Answer, room: &mut [u8]) -> Answer
    requires { Among (turned_to all p.old) room.old }
    ensures { (file : List ℕ) (o : Out) (l : List ℕ) (n : ℕ) → (all.length + 256 ≤ length room.old → length file ≤ p.old.at) → Turned o l (turned_to all p.old) room.old → Turned (turns_of (suc n) (length l) file o) l (turned_to result p.new) room.new }
{
    if room.len() - all.length < LEAST_ROOM {
        return all;
    }
    p.stage = 2;
    let end = calls::end_line(&p.state, &mut room[all.length..]);
    behind(all, end)
}

// As many sheet lines as surely fit, one behind the other: the next, and others while 256 bytes of the room are left. The refusal is that of
// the last refused line, if there is one.
pub fn several(p: &mut Player, file: &[u8], room: &mut [u8]) -> Answer
    ensures { Turned (several_of (length room.old) file.now p.old) room.old (turned_to result p.new) room.new }
{
    let first = next(p, file, room);
    if p.stage != 1 {
        return first;
    }
    if !range::in_range(&p.state) {
        return first;
    }
    let all = lines(p, first, file, room);
    ending(p, all, room)
}
