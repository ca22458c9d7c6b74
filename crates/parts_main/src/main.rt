// The parts program of document 01, run by the gate on its example: version 1.2, one VLR with 4 data bytes, two points.
#![tactic(auto)]

use std::io;

fn main(rt: HostRuntime) -> io::Result<()> {
    listing::run(&rt)
}
