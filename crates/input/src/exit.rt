// How a program ends.
ghost use Rattle.std.specs.Prelude.{◌≡◌, is_ok, cond};
ghost use Rattle.std.specs.Process.{exit_status};

use std::process::{ExitCode, Termination};

// An error is said with the program's name. One that `main` returned itself would be said as `Error: ..`.
#[derive(Drop)]
pub struct Exit {
    pub program: &'static str,
    pub outcome: anyhow::Result<()>,
}

impl Termination for Exit {
    fn report<R: Eprint>(self, rt: &R) -> ExitCode
        ensures { exit_status result ≡ cond (is_ok self.outcome) 0 1 }
    {
        let Exit { program, outcome } = self;
        let Err(error) = outcome else {
            return ExitCode::SUCCESS;
        };
        let _ = rt.eprintln(format_args!("{program}: {error}"));
        ExitCode::FAILURE
    }
}
