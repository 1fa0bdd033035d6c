// The program gdtlist: crate `program_list` does all of it, and here its status is given to the system.
#![tactic(auto)]

use program_status::Status;
use std::process::ExitCode;

fn main(rt: HostRuntime) -> ExitCode {
    let status: Status = program_list::gdtlist_run(&rt);
    status.into()
}
