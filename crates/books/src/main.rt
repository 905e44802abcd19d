// The mistakes that invite themselves, each answer on a line of its own.
#![tactic(auto)]

mod mistakes;
mod show;

use std::io;

fn main(rt: HostRuntime) -> io::Result<()> {
    mistakes::books(&rt)
}
