//! The program: it hands the words of the command line and the standard streams to the top call.
#![tactic(auto)]

use std::io;
use std::process::ExitCode;
use zq_top::{serve, words};

fn main(rt: HostRuntime) -> ExitCode {
    ExitCode::from(serve(rt.alloc(), words(&rt), rt.reader(), io::writer(&rt)).code)
}
