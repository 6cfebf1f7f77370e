//! The instructions of an appointment.
ghost use Rattle.std.specs.Prelude.{◌≡◌, ◌≤◌, ◌==◌, length};
ghost use Rattle.vocabulary.specs.InstructionPlaces.{as_instructions, in_instruction_places};

use crate::kinds::Instr;
use std::marker::Model;

/// The most instructions of an appointment: one for each resolution of a meeting.
pub const MOST_INSTRUCTIONS: usize = 50;

/// What a proxy is instructed to do on each resolution of a meeting, in order (section 324A): at
/// most `MOST_INSTRUCTIONS` instructions, kept in the value itself, so that a copy takes no memory.
#[derive(Clone, Copy)]
pub struct Instructions {
    count: u8,
    kinds: [Instr; MOST_INSTRUCTIONS],
}

impl Model for Instructions {
    ghost use Rattle.std.specs.Prelude.{List, length, take};
    ghost use Rattle.vocabulary.specs.InstructionPlaces.{IsFilled, in_instruction_places};
    ghost use Rattle.vocabulary.specs.declared.instructions.TheConstants.{MOST_INSTRUCTIONS};
    ghost use Rattle.vocabulary.specs.declared.kinds.Instr.{Instr};

    ghost Value = { List Instr };

    ghost view = { λ a. take a.count a.kinds };

    ghost invariant = { λ a. IsFilled a.count a.kinds };

    ghost inverse = { λ s. record {
      count = length s;
      kinds = in_instruction_places MOST_INSTRUCTIONS s;
    } };

    ghost inverse_ok = { λ a h i. record { count = h.used i; kinds = h.rest i } };
}

/// The instructions in their places, and `Free` after them.
fn in_places<const N: usize>(kinds: &[Instr]) -> [Instr; N]
    requires { length kinds.now ≤ N }
    ensures { result ≡ in_instruction_places N kinds.now }
{
    let mut places = [Instr::Free; N];
    places[..kinds.len()].copy_from_slice(kinds);
    places
}

impl Instructions {
    /// These instructions, or none exactly where they are more than `MOST_INSTRUCTIONS`.
    #[tactic(auto, using(crate::proofs::VocabularyInstructionLemmas::filled, crate::proofs::VocabularyInstructionLemmas::take_front))]
    pub fn new(kinds: &[Instr]) -> Option<Instructions>
        ensures { result ≡ as_instructions kinds.now }
    {
        if kinds.len() > MOST_INSTRUCTIONS {
            return None;
        }
        Some(Instructions {
            count: kinds.len() as u8,
            kinds: in_places(kinds),
        })
    }

    /// The instructions, in the order of resolutions.
    pub fn as_slice(&self) -> &[Instr]
        ensures value { result.now ≡ self.now }
        ensures valid { length self.now ≤ MOST_INSTRUCTIONS }
    {
        &self.kinds[..self.count as usize]
    }

    /// How many there are.
    pub fn len(&self) -> usize
        ensures { result ≡ length self.now }
    {
        self.as_slice().len()
    }
}
