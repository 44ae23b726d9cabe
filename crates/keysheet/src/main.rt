// Plays the schedule on standard input and writes its key sheet to standard output. What fails is said on standard error.
// The whole input is read before anything is written, but for what lies past the buffer: a schedule of more than
// 60,000 bytes is too long whatever follows, so the rest is left unread.
#![tactic(auto)]

use std::fs;
use std::fs::{Metadata, OpenFile, OpenOptions};
use std::io::{Error, ErrorKind, Result};
use std::os::unix::fs::MetadataExt;
use std::rt::{Env, Files};

// The program always ends with the status 0. One that is started with this argument says on descriptor 3 whether the
// whole sheet was written: `whole` or, where a write failed, `short`.
const ASKED: &[u8; 8] = b"--whole\0";

// Descriptors by the names that the system has for them, since std reaches only the first three, and closes none with an answer.
const OUTPUT: &str = "/proc/self/fd/1";

const WORD: &str = "/proc/self/fd/3";

// The digit of a mode that lets a file's owner write.
const OWNER_WRITES: u32 = 0o200;

// What the system answers to a call on a descriptor that is not open.
const EBADF: i32 = 9;

// Whether the first argument is `--whole`.
fn is_asked<R: Env>(rt: &R) -> bool {
    let mut word = [0u8; 8];
    let _ = rt.arg(1, &mut word);
    word == *ASKED
}

// Whether a file may refuse what was written to it as late as its close: one on a network or behind a program, and none on
// a disk of its own. Linux gives such file systems, and a few others, the major number 0.
fn is_late(about: &Metadata) -> bool {
    about.is_file() && (about.dev() >> 8) & 0xfff == 0
}

// Whether what was written is taken by such a file. It is asked to take it now, since std tells no error of a close.
fn settle<R: Files>(rt: &R) -> Result<()> {
    let Ok(about) = fs::metadata(rt, OUTPUT) else {
        return Ok(());
    };
    if !is_late(&about) {
        return Ok(());
    }
    let Ok(file) = OpenOptions::new().append(true).open(rt, OUTPUT) else {
        return Ok(());
    };
    match file.sync_data() {
        Err(why) if why.kind() == ErrorKind::InvalidInput => Ok(()),
        settled => settled,
    }
}

// Writes the whole sheet, and sees that it is taken by what it was written to.
fn write(rt: HostRuntime, schedule: &[u8]) -> Result<()> {
    stream::play(&mut rt.stdout(), schedule)?;
    settle(&rt)
}

// The system's name for a descriptor has the mode in which that is open: opened by it anew, one that is for reading alone would be written to.
fn word_file<R: Files>(rt: &R) -> Result<R::File> {
    match fs::symlink_metadata(rt, WORD) {
        Ok(about) if about.mode() & OWNER_WRITES != 0 => OpenOptions::new()
            .append(true)
            .open(rt, WORD),
        Err(why) if why.kind() != ErrorKind::NotFound => Err(why),
        _ => Err(Error::from_raw_os_error(EBADF)),
    }
}

fn say_on<R: Files>(rt: &R, word: &[u8]) -> Result<()> {
    console::write_all(&mut word_file(rt)?, word)?;
    Ok(())
}

fn say(rt: HostRuntime, word: &[u8]) {
    if let Err(why) = say_on(&rt, word) {
        console::tell(
            &mut rt.stderr(),
            b"keysheet: saying whether the sheet is whole",
            &why,
        );
    }
}

fn main(rt: HostRuntime) {
    // A room of fixed size: what the program does must not hang on whether memory can be had.
    let mut buffer = [0u8; 65536];
    let n = match console::read_all(&mut rt.stdin(), &mut buffer) {
        Ok(n) => n,
        Err(stopped) => {
            console::tell(&mut rt.stderr(), b"keysheet: reading", &stopped.why);
            return;
        }
    };
    let written = write(rt, &buffer[..n]);
    if let Err(why) = &written {
        console::tell(&mut rt.stderr(), b"keysheet: writing", why);
    }
    if is_asked(&rt) {
        say(
            rt,
            if written.is_ok() {
                b"whole\n"
            } else {
                b"short\n"
            },
        );
    }
}
