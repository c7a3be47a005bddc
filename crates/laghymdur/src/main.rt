#![tactic(auto)]

use scripts::command::{LINE, LONGEST};
use sessions::session::Session;
use std::io;
use std::io::{Read, Write};

// Reads a script, one byte more than the longest at most, so that a longer one is seen to be too long.
fn read_script(rt: &HostRuntime) -> io::Result<Vec<u8>> {
    // A cast, as there is no `From<usize>` for u64.
    let most = LONGEST as u64 + 1;
    let mut script = Vec::new(rt.alloc());
    rt.stdin().take(most).read_to_end(&mut script)?;
    Ok(script)
}

// Plays the script call after call, and writes each line as it comes.
fn play(rt: &HostRuntime, script: &[u8]) -> io::Result<()> {
    let mut out = rt.stdout();
    let mut session = Session::new();
    let mut line = [0u8; LINE];
    let mut at = 0;
    // Each answer says where the next command starts, so no range or iterator gives the places.
    while at < script.len() {
        let answer = session.call(script, at, &mut line);
        out.write_all(&line[..answer.wrote])?;
        at = answer.next;
    }
    Ok(())
}

fn main(rt: HostRuntime) -> io::Result<()> {
    let script = read_script(&rt)?;
    play(&rt, &script)
}
