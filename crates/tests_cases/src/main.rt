//! Cases of the program: the standard input says files, calls of the program over them and what each prints, and every case is played
//! over a store and an output in memory. The last line counts what is otherwise.
#![tactic(auto)]

mod bytes;
mod call;
mod case;
mod player;

use crate::player::Player;
use std::io;
use std::io::Read;

fn main(rt: HostRuntime) -> io::Result<()> {
    let mut cases = String::new(rt.alloc());
    rt.stdin().lock().read_to_string(&mut cases)?;
    let mut player = Player::new(&rt, rt.alloc());
    for line in cases.lines() {
        player.take(line)?;
    }
    player.end()
}
