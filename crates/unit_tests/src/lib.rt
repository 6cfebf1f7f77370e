//! Tests of what no case can show: devices that fail, public functions that no request calls, generic
//! functions at concrete types, and connections of which one process is both ends.
#![tactic(auto)]

#[cfg(test)]
mod blocks;
#[cfg(test)]
mod book;
#[cfg(test)]
mod calls;
#[cfg(test)]
mod clock;
#[cfg(test)]
mod day_numbers;
#[cfg(test)]
mod days;
#[cfg(test)]
mod devices;
#[cfg(test)]
mod endings;
#[cfg(test)]
mod fixtures;
#[cfg(test)]
mod gone;
#[cfg(test)]
mod heads;
#[cfg(test)]
mod lines;
#[cfg(test)]
mod memory;
#[cfg(test)]
mod names;
#[cfg(test)]
mod office;
#[cfg(test)]
mod order;
#[cfg(test)]
mod ordered_lists;
#[cfg(test)]
mod peers;
#[cfg(test)]
mod polls;
#[cfg(test)]
mod proxies;
#[cfg(test)]
mod rebuilt_books;
#[cfg(test)]
mod replays;
#[cfg(test)]
mod replies;
#[cfg(test)]
mod script;
#[cfg(test)]
mod serving;
#[cfg(test)]
mod votes;
