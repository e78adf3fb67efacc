// Answers the calls outside the domain of comparison, with the same functions as `replay`.
#![tactic(auto)]

use std::io;

fn main(rt: HostRuntime) -> io::Result<()> {
    replay_calls::stream::run(&rt)
}
