// Plays a schedule and writes its key sheet.
#![tactic(auto)]

ghost use Rattle.std.specs.Prelude.{ℕ, List, OnOk};
ghost use Rattle.std.specs.Io.{StartsWith};
ghost use Rattle.std.specs.Io.KnownBytes.{Appends};
ghost use Rattle.sheet.specs.Sheet.{sheet_of};

use std::io::{Result, Write};

// Writes all of these bytes.
fn put<W: Write>(to: &mut W, part: &[u8]) -> Result<()>
    ensures whole { OnOk result (Appends (W.contents to.old) (W.contents to.new) part.now) }
    ensures front { (bs : List ℕ) × StartsWith part.now bs × Appends (W.contents to.old) (W.contents to.new) bs }
{
    console::write_all(&mut *to, part)?;
    Ok(())
}

// The file is played in one room, as many lines a call as fit, and what each call leaves there is written. The answer is whether all was written,
// or why not; a write that fails is the last. The room is an array: fixed memory, whatever the file.
pub fn play<W: Write>(to: &mut W, file: &[u8]) -> Result<()>
    ensures whole { OnOk result (Appends (W.contents to.old) (W.contents to.new) (sheet_of file.now)) }
    ensures front { (bs : List ℕ) × StartsWith (sheet_of file.now) bs × Appends (W.contents to.old) (W.contents to.new) bs }
{
    let mut room = [0u8; 32768];
    let mut p = player::open();
    while p.stage != 2 {
        let answer = player::several(&mut p, file, &mut room);
        put(&mut *to, &room[..answer.length])?;
    }
    Ok(())
}
