//! How the program tells of its end.
ghost use Rattle.std.specs.Prelude.{◌≡◌};
ghost use Rattle.host.specs.PrintedLines.{printed};
ghost use Rattle.host_run.specs.Reporting.{SaysAtMost, Reports};

use cli_exit::{Ended, ExitError, Line};
use host::Console;

/// Prints a line on standard error, as far as that goes.
fn complain<E: Console>(line: &Line, errors: &mut E)
    ensures { SaysAtMost E.Sink (printed line.now) errors.old errors.new }
{
    let _ = errors.print_line(line);
}

/// Prints the line of an end, with status 0 on standard output, else on standard error, and returns
/// the status. A line that cannot be printed on standard output ends with that of `WriteFault`.
pub fn report<W: Console, E: Console>(ended: &Ended, output: &mut W, errors: &mut E) -> u8
    ensures { Reports W.Sink E.Sink ended.now output.old output.new errors.old errors.new result }
{
    let Some(line) = &ended.line else {
        return ended.status;
    };
    if ended.status > 0 {
        complain(line, errors);
        return ended.status;
    }
    if output.print_line(line).is_ok() {
        return ended.status;
    }
    complain(&Line::Name(ExitError::WriteFault.word()), errors);
    3
}
