// The sheet lines of accepted replies, and the number that a refused one has.
ghost use Rattle.std.specs.Prelude.{◌≡◌, ◌≤◌, length};
ghost use Rattle.rules.specs.Refusals.{number};
ghost use Rattle.text.specs.Text.{Wrote};
ghost use Rattle.sheet.specs.Shown.{text_of};

use rules::answer::Refusal;

// What the sheet has for an accepted line, and at its end.
#[derive(Clone, Copy)]
pub(crate) enum SheetLine {
    Settings,
    Begun {
        thread: u32,
    },
    Stops {
        thread: u32,
        taken: u32,
        phase: u8,
    },
    Ends {
        thread: u32,
        taken: u32,
        answer: u8,
        commit: u32,
    },
    Keys {
        committed: u32,
        made: u8,
        keys: u64,
    },
}

// An accepted line at the front of the room.
pub(crate) fn put(line: SheetLine, room: &mut [u8]) -> usize
    requires { 256 ≤ length room.old }
    ensures { Wrote room.old 0 (text_of line) result room.new }
{
    match line {
        SheetLine::Settings => writing::put_line(room, b'R', &[]),
        SheetLine::Begun { thread } => writing::put_line(room, b'B', &[thread]),
        SheetLine::Stops {
            thread,
            taken,
            phase,
        } => writing::put_line(room, b'S', &[thread, taken, phase as u32]),
        SheetLine::Ends {
            thread,
            taken,
            answer,
            commit,
        } => writing::put_line(room, b'D', &[thread, taken, answer as u32, commit]),
        SheetLine::Keys {
            committed,
            made,
            keys,
        } => writing::put_keys_line(room, b'E', committed, made as u32, keys),
    }
}

// The number of a refusal, as its line has it; no `From`, since rules, where it would stand, has no function.
pub(crate) fn number(refusal: Refusal) -> u32
    ensures { result ≡ number refusal }
{
    refusal as u32
}
