//! `magicd`: a layout server on standard input and output.
#![tactic(auto)]

use mls_magicd::{Devices, HostFiles, OptionsFault, fail, run};
use std::env;
use std::io::ErrorKind;
use std::process::ExitCode;

fn main(rt: HostRuntime) -> ExitCode {
    let mut devices = Devices::new(rt.stdin(), rt.stdout(), rt.stderr());
    let status = match command_line(&rt) {
        Ok(words) => run(
            &rt,
            rt.alloc(),
            words.as_slice(),
            &HostFiles::new(&rt),
            &mut devices,
        ),
        Err(fault) => fail(&mut devices.faults, &fault.into()),
    };
    ExitCode::from(status)
}

/// Returns the words of the command line, of which the first is the program's name.
fn command_line(rt: &HostRuntime) -> Result<Vec<String>, OptionsFault<'static>> {
    match env::args(rt) {
        Ok(words) => Ok(words.collect(rt.alloc())?),
        Err(error) if error.kind() == ErrorKind::OutOfMemory => Err(OptionsFault::Memory),
        Err(_) => {
            let text = String::from_str(
                rt.alloc(),
                "magicd: a word of the command line is not UTF-8\n",
            )?;
            Err(OptionsFault::Refused(text))
        }
    }
}
