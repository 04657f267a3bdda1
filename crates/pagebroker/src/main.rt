//! The broker as a program: the words that it is called with, a directory, standard input and standard output.
#![tactic(auto)]

use pg_dir::{DirSite, InSource, Standard};
use pg_run::{Status, pagebroker};
use std::env;
use std::io::{self, ErrorKind, Write};
use std::process::ExitCode;

fn main(rt: HostRuntime) -> ExitCode {
    let mut errors = Standard::new(rt.stderr());
    let code = match run(&rt) {
        Ok(code) => code,
        Err(error) => status_of(&error).code(),
    };
    if let Some(text) = Status::of_code(code).and_then(|status| status.text()) {
        // There is nowhere to tell of an error here.
        let _ = writeln!(errors, "{text}");
    }
    ExitCode::from(code)
}

fn run(rt: &HostRuntime) -> io::Result<u8> {
    let alloc = rt.alloc();
    let output = Standard::new(rt.stdout());
    let mut source = InSource::new(alloc, Standard::new(rt.stdin()))?;
    let words = env::args(rt)?.collect::<Vec<String>>(alloc)?;
    let directory = words.get(2).map_or(".", |word| word.as_str());
    let mut site = DirSite::new(*rt, String::from_str(alloc, directory)?, output);
    Ok(pagebroker(alloc, &words, &mut source, &mut site))
}

// The status where the broker wasn't called: a word that isn't UTF-8 is none of those that it takes.
fn status_of(error: &io::Error) -> Status {
    match error.kind() {
        ErrorKind::InvalidData => Status::Usage,
        _ => Status::OutOfMemory,
    }
}
