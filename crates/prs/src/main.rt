// The bench program: the listing of standard input on standard output.
#![tactic(auto)]

use std::process::ExitCode;

fn main(rt: HostRuntime) -> ExitCode {
    match stream::list(&mut rt.stdin(), &mut rt.stdout()) {
        Ok(()) => ExitCode::SUCCESS,
        Err(failure) => {
            failure.tell(&rt);
            ExitCode::FAILURE
        }
    }
}
