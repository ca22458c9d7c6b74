// The parts program on empty input, which it refuses: "as `refused 1 4 0` for empty input".
#![tactic(auto)]

use std::io;

fn main(rt: HostRuntime) -> io::Result<()> {
    listing::run(&rt)
}
