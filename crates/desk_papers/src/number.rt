//! Numbers of shares in columns.
ghost use Rattle.std.specs.Prelude.{◌≡◌, ◌≤◌, ◌++◌, replicate, OnOk};
ghost use Rattle.std.specs.Fmt.{decimal};
ghost use Rattle.desk_papers.specs.PrintedResults.{figure, on_the_right};

use std::alloc::{AllocError, Global};

/// Adds the number.
pub(crate) fn push_number(alloc: Global, text: &mut Vec<u8>, number: u64) -> Result<(), AllocError>
    ensures { OnOk result (text.new.items ≡ text.old.items ++ decimal number) }
{
    let digits = format!(in alloc; "{number}")?;
    text.extend_from_slice(digits.as_bytes())
}

fn push_spaces(text: &mut Vec<u8>, count: usize) -> Result<(), AllocError>
    requires { count ≤ 13 }
    ensures { OnOk result (text.new.items ≡ text.old.items ++ replicate count 32) }
{
    text.extend_from_slice(&[b' '; 13][..count])?;
    Ok(())
}

/// Adds the number on the right in 13 places.
fn push_on_the_right(alloc: Global, text: &mut Vec<u8>, number: u64) -> Result<(), AllocError>
    ensures { OnOk result (text.new.items ≡ text.old.items ++ on_the_right number) }
{
    let digits = format!(in alloc; "{number}")?;
    push_spaces(text, 13_usize.saturating_sub(digits.len()))?;
    text.extend_from_slice(digits.as_bytes())
}

/// Adds a line with a label and a number of shares.
pub(crate) fn push_figure(
    alloc: Global,
    text: &mut Vec<u8>,
    label: &str,
    number: u64,
) -> Result<(), AllocError>
    ensures { OnOk result (text.new.items ≡ text.old.items ++ figure label.now number) }
{
    text.extend_from_slice(label.as_bytes())?;
    push_on_the_right(alloc, text, number)?;
    text.push(b'\n')?;
    Ok(())
}
