//! What an appointment instructs its proxy to vote.
ghost use Rattle.std.specs.Prelude.{◌≡◌};
ghost use Rattle.proxy_rules.specs.Instructions.{allows, instructed_on, way_named};

use desk_words::{Instr, Way};

/// The way that an instruction names, or none where it leaves the proxy free.
fn way_named(instruction: Instr) -> Option<Way>
    ensures { result ≡ way_named instruction }
{
    match instruction {
        Instr::For => Some(Way::For),
        Instr::Against => Some(Way::Against),
        Instr::Withheld => Some(Way::Withheld),
        Instr::Free => None,
    }
}

/// The way in which instructions, one for each resolution, tell a proxy to vote on a resolution, of
/// which the first is number 1, or none where they leave it free (section 324A).
pub fn instructed_on(instructions: &[Instr], resolution: u64) -> Option<Way>
    ensures { result ≡ instructed_on resolution instructions.now }
{
    if resolution > 0 {
        way_named(*instructions.get(resolution as usize - 1)?)
    } else {
        None
    }
}

/// Whether a proxy who is so instructed, or free, may vote that way (section 324A).
pub fn allows(instructed: Option<Way>, way: Way) -> bool
    ensures { result ≡ allows instructed way }
{
    match instructed {
        Some(wanted) => wanted == way,
        None => true,
    }
}
