//! What the words of the program ask.
use crate::endings::ended_text;
use crate::findings::Answer;
use cli_args::{Plan, read_words};
use cli_exit::Ended;
use desk_words::{Moment, write_moment};
use std::alloc::{AllocError, Global};

/// The words, one on each line.
fn words_of(alloc: Global, given: &[u8]) -> Result<Vec<String>, AllocError> {
    let mut words = Vec::new(alloc);
    for line in String::from_utf8_lossy(alloc, given)?.lines() {
        words.push(String::from_str(alloc, line)?)?;
    }
    Ok(words)
}

fn moment_text(alloc: Global, moment: Moment) -> Result<String, AllocError> {
    String::from_utf8_lossy(alloc, &write_moment(moment))
}

/// The command, and under it its files and its values, each with its name.
fn plan_text(alloc: Global, plan: &Plan) -> Result<String, AllocError> {
    match plan {
        Plan::Init { file } => format!(in alloc; "init\nFILE {file}\n"),
        Plan::Keys { file, csv, zone } => {
            format!(in alloc; "keys\nFILE {file}\nCSV {csv}\nzone {zone}\n")
        }
        Plan::Days { file, txt, zone } => {
            format!(in alloc; "days\nFILE {file}\nTXT {txt}\nzone {zone}\n")
        }
        Plan::Register {
            file,
            meeting,
            record_moment,
            csv,
            zone,
        } => {
            let meeting = meeting.as_str();
            let at = moment_text(alloc, *record_moment)?;
            format!(in alloc;
                "register\nFILE {file}\nMEETING {meeting}\nRECORD {at}\nCSV {csv}\nzone {zone}\n"
            )
        }
        Plan::Serve {
            file,
            port,
            requests,
            zone,
        } => {
            format!(in alloc; "serve\nFILE {file}\nport {port}\nrequests {requests}\nzone {zone}\n")
        }
        Plan::Results { file, meeting } => {
            format!(in alloc; "results\nFILE {file}\nMEETING {}\n", meeting.as_str())
        }
        Plan::Replay => String::from_str(alloc, "replay\n"),
    }
}

/// The plan that the words ask for, or how the program ends by their fault.
pub(crate) fn words_answer(alloc: Global, given: &[u8]) -> Result<Answer, AllocError> {
    let words = words_of(alloc, given)?;
    let text = match read_words(alloc, &words) {
        Ok(plan) => plan_text(alloc, &plan)?,
        Err(fault) => ended_text(alloc, Ended::by_words(fault))?,
    };
    Ok(Answer::new(alloc, text))
}
