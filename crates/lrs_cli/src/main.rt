//! The program `roadlrs`, over files and sheets of the system.
#![tactic(auto)]

use lrs_cli_files::SystemFiles;
use lrs_cli_jobs::{SystemSheets, run};
use std::process::ExitCode;

fn main(rt: HostRuntime) -> ExitCode {
    run(
        &rt,
        SystemFiles::new(),
        SystemFiles::new(),
        &SystemSheets::new(&rt),
    )
}
