// The values that lookup3.c publishes for `hashlittle`, one to a line, in hexadecimal; then those of initval 0 again, by
// `jenkins_lookup3`.
#![tactic(auto)]

use std::io;

fn print_line(rt: &impl Print, value: u32) -> io::Result<()> {
    println!(rt; "{value:08x}")
}

fn main(rt: HostRuntime) -> io::Result<()> {
    let text = b"Four score and seven years ago";
    print_line(&rt, checksum::hashlittle(b"", 0))?;
    print_line(&rt, checksum::hashlittle(b"", 0xdeadbeef))?;
    print_line(&rt, checksum::hashlittle(text, 0))?;
    print_line(&rt, checksum::hashlittle(text, 1))?;
    print_line(&rt, checksum::jenkins_lookup3(b""))?;
    print_line(&rt, checksum::jenkins_lookup3(text))
}
