// Plays the schedules of data/, which are named by two digits from 00 on, and writes their sheets one behind the other.
#![tactic(auto)]

use arrayvec::ArrayString;
use std::fmt::Write as _;
use std::fs::File;

// The schedule of number `k`, which has at most two digits; false where there is none, or what fails is told.
fn play_file(rt: HostRuntime, k: u8) -> bool {
    let mut name = ArrayString::<2>::new();
    let _ = write!(name, "{k:02}");
    let Ok(mut file) = File::open(&rt, name.as_str()) else {
        return false;
    };
    // A room of fixed size: what the program does must not hang on whether memory can be had.
    let mut buffer = [0u8; 65536];
    let n = match console::read_all(&mut file, &mut buffer) {
        Ok(n) => n,
        Err(stopped) => {
            console::tell(&mut rt.stderr(), b"played: reading", &stopped.why);
            return false;
        }
    };
    drop(file);
    match stream::play(&mut rt.stdout(), &buffer[..n]) {
        Ok(()) => true,
        Err(why) => {
            console::tell(&mut rt.stderr(), b"played: writing", &why);
            false
        }
    }
}

fn main(rt: HostRuntime) {
    for k in 0..100 {
        if !play_file(rt, k) {
            break;
        }
    }
}
