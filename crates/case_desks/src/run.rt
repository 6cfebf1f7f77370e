//! What is asked by each step of a case.
use crate::desk_files::DeskFiles;
use crate::desks::Desks;
use crate::memory_desk::MemoryDesk;
use crate::stops::Stops;
use case_steps::{Answer, Findings, Step, answer, read_case};
use std::alloc::{AllocError, Global};

/// What the steps of a case are asked of.
#[derive(Drop)]
struct Bench<'a, T, D> {
    alloc: Global,
    desks: Desks<T>,
    stops: Stops<'a, D>,
}

impl<'a, T: MemoryDesk, D: DeskFiles> Bench<'a, T, D> {
    /// Databases without tables, and two empty files.
    fn new(alloc: Global) -> Result<Bench<'a, T, D>, AllocError> {
        Ok(Bench {
            alloc,
            desks: Desks::new(alloc)?,
            stops: Stops::new(alloc),
        })
    }

    /// The answer to a command of files that are stopped, and to one of a desk over tables.
    fn ask_desk(
        &mut self,
        command: &str,
        words: &'a str,
        given: &[u8],
    ) -> Result<Answer, AllocError> {
        match command {
            "watch" => self.stops.watch(words),
            "files" => self.stops.give(words),
            "stopped" => self.stops.stop(words, true),
            "stopped-alike" => self.stops.stop(words, false),
            "devices" => self.stops.fail(words),
            _ => self.desks.command(command, words, given),
        }
    }

    /// The answer to a step. Those that ask no desk come first.
    fn answer(&mut self, step: &Step<'a>) -> Result<Answer, AllocError> {
        let given = step.bytes(self.alloc)?;
        match answer(self.alloc, step.command, step.words, &given) {
            Some(answer) => answer,
            None => self.ask_desk(step.command, step.words, &given),
        }
    }
}

/// Runs the case that a file holds, on desks of these kinds. The error is want of memory.
pub fn run_case<T: MemoryDesk, D: DeskFiles>(
    alloc: Global,
    findings: &mut Findings,
    text: &str,
) -> Result<(), AllocError> {
    let case = read_case(alloc, text)?;
    findings.look_over(&case)?;
    let mut bench: Bench<T, D> = Bench::new(alloc)?;
    for step in &case.steps {
        let answer = bench.answer(step)?;
        findings.compare(alloc, step, &answer)?;
    }
    Ok(())
}
