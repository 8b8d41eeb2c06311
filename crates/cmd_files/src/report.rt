//! How a run ended, on standard output and standard error.

ghost use Rattle.std.specs.Prelude.{◌≡◌, ◌⊎◌, false, None};
ghost use Rattle.std.specs.Process.{exit_status};
ghost use Rattle.cmd_base.specs.Codes.{code_of};

use cmd_run::Status;
use std::io;
use std::process::ExitCode;

/// How a run ended.
#[derive(Drop)]
pub struct Report {
    pub status: Status,
    /// What is wrong, where there was memory to say it.
    pub line: Option<String>,
    /// Whether the line of the status goes to standard error, since standard output has what another program is to read.
    pub is_aside: bool,
}

impl Report {
    /// A status that says all by itself.
    pub fn bare(status: Status) -> Report
        ensures status { result.status ≡ status }
        ensures line { result.line ≡ None }
        ensures aside { result.is_aside ≡ false }
    {
        Report::told(status, None)
    }

    /// A status, and what is wrong, where there was memory to say it.
    pub fn told(status: Status, line: Option<String>) -> Report
        ensures status { result.status ≡ status }
        ensures line { result.line ≡ line }
        ensures aside { result.is_aside ≡ false }
    {
        Report {
            status,
            line,
            is_aside: false,
        }
    }
}

/// Prints what is wrong.
fn print_line<R: Eprint>(rt: &R, report: &Report) {
    let status = &report.status;
    let _ = match &report.line {
        Some(line) => eprintln!(rt; "fixpgw: {line}"),
        None => eprintln!(rt; "fixpgw: {status}"),
    };
}

/// Prints the line of a status, on standard error where it goes aside.
pub fn print_status<R: Print + Eprint>(
    rt: &R,
    is_aside: bool,
    code: u8,
    name: &str,
) -> io::Result<()> {
    if is_aside {
        eprintln!(rt; "status {code} {name}")
    } else {
        println!(rt; "status {code} {name}")
    }
}

/// Prints the status, and what is wrong on standard error. Where the status cannot be printed, that is what is wrong: it is an output fault.
pub fn finish<R: Print + Eprint>(rt: &R, report: Report) -> ExitCode
    ensures { (exit_status result ≡ code_of report.status) ⊎ (exit_status result ≡ code_of Status.OutputFault) }
{
    let code = report.status.code();
    let name = report.status.name();
    match print_status(rt, report.is_aside, code, name) {
        Ok(()) => {
            if code != 0 {
                print_line(rt, &report);
            }
            ExitCode::from(code)
        }
        Err(error) => {
            let _ = eprintln!(rt; "fixpgw: standard output: {error}");
            ExitCode::from(Status::OutputFault.code())
        }
    }
}
