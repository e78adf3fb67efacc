// Answers the calls of the protocol on standard input.
#![tactic(auto)]

use std::io;

fn main(rt: HostRuntime) -> io::Result<()> {
    replay_calls::stream::run(&rt)
}
