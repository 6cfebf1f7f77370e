//! Instructions as letters, one for each resolution (section 324A).
ghost use Rattle.std.specs.Prelude.{◌≡◌, IfOk, Some, map, string_bytes};
ghost use Rattle.vocabulary.specs.Identity.{id};
ghost use Rattle.vocabulary.specs.InstructionPlaces.{as_instructions};
ghost use Rattle.sql_rows.specs.Meanings.{RowAgrees, RowAgreesExactly};
ghost use Rattle.sql_rows.specs.InstructionLetters.{each_instruction_of, instruction_letter, instruction_of_letter, instructions_of};

use crate::fault::RowError;
use desk_words::{Instr, Instructions, Listing};
use std::alloc::{AllocError, Global};

fn letter(instruction: Instr) -> char
    ensures { result ≡ instruction_letter instruction }
{
    match instruction {
        Instr::For => 'F',
        Instr::Against => 'A',
        Instr::Withheld => 'W',
        Instr::Free => '-',
    }
}

fn each_letter(alloc: Global, instructions: &[Instr]) -> Result<String, AllocError>
    ensures { IfOk result (λ s. string_bytes s ≡ map instruction_letter instructions.now) }
{
    let mut letters = String::new(alloc);
    for instruction in instructions {
        letters.push(letter(*instruction))?;
    }
    Ok(letters)
}

/// The letters of some instructions: `F`, `A` and `W` for the ways, and `-` for a free one. The
/// error is want of memory.
pub fn letters_of(alloc: Global, instructions: &Instructions) -> Result<String, AllocError>
    ensures letters { IfOk result (λ s. string_bytes s ≡ map instruction_letter instructions.now) }
    ensures read_back { IfOk result
        (λ s. instructions_of (string_bytes s) ≡ Some instructions.now) }
{
    each_letter(alloc, instructions.as_slice())
}

fn instruction(letter: u8) -> Result<Instr, RowError>
    ensures { RowAgreesExactly id result (instruction_of_letter letter) }
{
    match letter {
        b'F' => Ok(Instr::For),
        b'A' => Ok(Instr::Against),
        b'W' => Ok(Instr::Withheld),
        b'-' => Ok(Instr::Free),
        _ => Err(RowError::Unreadable),
    }
}

/// The instruction of each letter.
fn each_instruction_of(alloc: Global, letters: &[u8]) -> Result<Listing<Instr>, RowError>
    ensures { RowAgrees id result (each_instruction_of letters.now) }
{
    let mut found = Listing::new(alloc);
    for letter in letters {
        found.push(instruction(*letter)?)?;
    }
    Ok(found)
}

/// The instructions, or the fault where there are too many.
fn few(instructions: &[Instr]) -> Result<Instructions, RowError>
    ensures { RowAgreesExactly id result (as_instructions instructions.now) }
{
    Instructions::new(instructions).ok_or(RowError::Unreadable)
}

/// The instructions of at most `MOST_INSTRUCTIONS` letters.
pub(crate) fn instructions_of(alloc: Global, letters: &[u8]) -> Result<Instructions, RowError>
    ensures { RowAgrees id result (instructions_of letters.now) }
{
    let each = each_instruction_of(alloc, letters)?;
    few(each.as_slice())
}
