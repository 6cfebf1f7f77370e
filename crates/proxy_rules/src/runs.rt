//! The shares that appointments govern, in runs.
ghost use Rattle.std.specs.Prelude.{◌≡◌, [], true, IfOk, OnOk};
ghost use Rattle.desk_words.specs.Office.{are_numbered_after, are_rows};
ghost use Rattle.proxy_rules.specs.Governing.{governed_in};
ghost use Rattle.proxy_rules.specs.Holdings.{are_tags, holding_of};
ghost use Rattle.proxy_rules.specs.PlaceRuns.{joined};

use crate::claims::Claims;
use crate::holdings::Holding;
use crate::meeting_records::{Cutoffs, Papers};
use desk_words::{Party, Range};
use std::alloc::{AllocError, Global};

/// Puts a run behind the others, joined with the last where that ends just before it.
pub(crate) fn join_run(runs: &mut Vec<Range>, run: Range) -> Result<(), AllocError>
    ensures { OnOk result (runs.new.items ≡ joined runs.old.items run) }
{
    match runs.last_mut() {
        Some(last) if last.to() + 1 == run.from() => {
            *last = Range::with_ends(last.from(), run.to());
        }
        Some(_) => runs.push(run)?,
        None => runs.push(run)?,
    }
    Ok(())
}

/// The shares that the member's appointment of that number governs: their places in runs in order,
/// with a gap between each and the next (sections 324 and 330). Where it governs none, or the
/// member has none of that number, there are no runs. The lists are those of a meeting. The error
/// is want of memory. It is `Claims::governed_by` of the member's holding.
pub fn governed(
    alloc: Global,
    cutoffs: &Cutoffs,
    papers: &Papers,
    member: Party,
    number: u64,
) -> Result<Vec<Range>, AllocError>
    requires rows { are_rows papers.now.register.now ≡ true }
    requires tags { are_tags papers.now.appointments.now ≡ true }
    requires numbered { are_numbered_after [] papers.now.appointments.now ≡ true }
    ensures { IfOk result
        (λ runs. runs.items
        ≡ governed_in cutoffs.now
        (holding_of papers.now.register.now papers.now.appointments.now
        papers.now.endings.now member)
        number) }
{
    let holding = Holding::of(alloc, papers, member)?;
    Claims::of(alloc, holding)?.governed_by(alloc, cutoffs, number)
}
