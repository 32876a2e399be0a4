// The bench program's run over further inputs: each file that an argument names, listed one after the other.
#![tactic(auto)]

use std::fs::File;
use std::process::ExitCode;
use std::{env, io};

// Whether the file could be listed to its end; why not is told.
fn list_file(rt: &HostRuntime, path: &str) -> bool {
    match File::open(rt, path) {
        Ok(mut input) => match stream::list(&mut input, &mut rt.stdout()) {
            Ok(()) => true,
            Err(failure) => {
                failure.tell(rt);
                false
            }
        },
        Err(why) => {
            stream::tell(rt, path, &why);
            false
        }
    }
}

fn main(rt: HostRuntime) -> io::Result<ExitCode> {
    let mut status = ExitCode::SUCCESS;
    for path in env::args(&rt)?.skip(1) {
        if !list_file(&rt, path.as_str()) {
            status = ExitCode::FAILURE;
        }
    }
    Ok(status)
}
