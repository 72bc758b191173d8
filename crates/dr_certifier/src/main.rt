//! The program of the first certificate: it prints the certificate of the plan on its standard
//! input, and is soon proved and built, since it stands on no words, no places of faults and no
//! reasons. Where there is none to print it prints nothing, and whoever has all words for plans
//! (`dr_checker`, `dr_router`) tells why.
//!
//! Exit statuses: 0, the certificate is printed; 1, there is none; 3, the input or the output
//! failed; 4, there was no memory.
#![tactic(auto)]

use dr_certify::print_certificate;
use std::io;
use std::io::Write;
use std::process::ExitCode;

/// Writes why nothing, or not all, was printed, and gives the status for it.
fn tell_failure<E: Write>(error: &io::Error, faults: &mut E) -> u8 {
    if error.kind() == io::ErrorKind::OutOfMemory {
        let _ = writeln!(faults, "dr_router: Memory");
        return 4;
    }
    let _ = writeln!(faults, "dr_router: {error}");
    3
}

fn main(rt: HostRuntime) -> ExitCode {
    let status = match print_certificate(rt.alloc(), &mut rt.stdin(), &mut rt.stdout()) {
        Ok(true) => 0,
        Ok(false) => 1,
        Err(error) => tell_failure(&error, &mut rt.stderr()),
    };
    ExitCode::from(status)
}
