// Published check values and document 01's worked frames, run. Each line says what was asked and what came back; the file stdout
// beside src/ has what the publications and document 01 say.
#![tactic(auto)]

mod addresses;
mod checks;
mod cookies;
mod frames;
mod say;

use std::io;

fn main(rt: HostRuntime) -> io::Result<()> {
    checks::run(&rt)?;
    frames::run(&rt)?;
    cookies::run(&rt)?;
    addresses::run(&rt)
}
