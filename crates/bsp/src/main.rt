//! The program `bsp`.
#![tactic(auto)]

use bsp_cli::run_program;
use phase_records::Writer;
use std::io::IsTerminal;
use std::process::ExitCode;

fn main(rt: HostRuntime) -> ExitCode {
    let mut output = Writer::new(rt.stdout());
    let mut errors = Writer::new(rt.stderr());
    let terminal = rt.stdin().is_terminal();
    let reasons = rt.stderr().is_terminal();
    ExitCode::from(run_program(&rt, terminal, reasons, &mut output, &mut errors))
}
