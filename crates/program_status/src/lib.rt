// The sets of some bytes, listed by the program gdtlist, and its exit status: that of the set that was judged last. Contracts cite specs/Stops.
#![tactic(auto)]

ghost use Rattle.std.specs.Prelude.{◌≡◌, None, pos, IfOk, OnOk};
ghost use Rattle.std.specs.Process.{exit_status};
ghost use Rattle.program_status.specs.Stops.{trouble, status_of};
ghost use Rattle.program_status.specs.Statuses.{number_of, StopsThere};

use meaning::Refusal;
use program_out::Out;
use std::io;
use std::io::Write;
use std::process::ExitCode;

// How the program ends: every set is listed; a set is refused, or the input is too long; something else went wrong.
#[derive(Clone, Copy, Debug, PartialEq, Eq)]
pub enum Status {
    Listed,
    Refused,
    Trouble,
}

impl From<Status> for ExitCode {
    ghost from_gives = { λ status code. pos (exit_status code) ≡ number_of status };

    fn from(status: Status) -> ExitCode {
        match status {
            Status::Listed => ExitCode::SUCCESS,
            Status::Refused => ExitCode::FAILURE,
            Status::Trouble => ExitCode::from(2),
        }
    }
}

// Where the set starts that was judged last, and why it is refused, if it is.
#[derive(Drop)]
struct Stopped {
    at: usize,
    refused: Option<Refusal>,
}

// "prints each set in turn until a refusal"; "after the last set nothing more is printed". An empty input is judged once, and refused.
fn list_sets<W: Write + Drop>(out: &mut Out<W>, input: &[u8]) -> io::Result<Stopped>
    ensures stops { IfOk result (StopsThere input.now) }
    ensures none_failed { OnOk result ((out.old.failed ≡ None) × (out.new.failed ≡ None)) }
{
    let mut at = 0;
    loop {
        let set = &input[at..];
        match judge::judge(set) {
            Err(refusal) => {
                out.put_refusal(&refusal)?;
                return Ok(Stopped {
                    at,
                    refused: Some(refusal),
                });
            }
            Ok(shape) => {
                out.put_set(set, shape)?;
                if set.len() <= shape.length {
                    return Ok(Stopped { at, refused: None });
                }
                at += shape.length;
            }
        }
    }
}

// The same, with all that is put written.
fn list_all<W: Write + Drop>(out: &mut Out<W>, input: &[u8]) -> io::Result<Stopped>
    ensures stops { IfOk result (StopsThere input.now) }
    ensures none_failed { OnOk result ((out.old.failed ≡ None) × (out.new.failed ≡ None)) }
    ensures empty { OnOk result (out.new.held.used ≡ 0) }
{
    let stopped = list_sets(out, input)?;
    out.flush()?;
    Ok(stopped)
}

// The sets of some bytes, on standard output, with messages on standard error: unless there is trouble, the status says whether a set is refused.
pub fn list_bytes<W: Write + Drop>(to: W, err: &impl Print, input: &[u8]) -> Status
    ensures { (number_of result ≡ trouble → ⊥) → number_of result ≡ status_of input.now }
{
    let mut out = Out::new(to);
    let stopped = match list_all(&mut out, input) {
        Ok(stopped) => stopped,
        Err(error) => {
            program_message::tell_unwritten(err, error);
            return Status::Trouble;
        }
    };
    match stopped.refused {
        None => Status::Listed,
        Some(refusal) => {
            program_message::tell_refused(err, refusal.no, stopped.at);
            Status::Refused
        }
    }
}
