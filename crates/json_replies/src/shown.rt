//! What replies show, written as JSON, a token at a time.
ghost use Rattle.std.specs.Prelude.{◌≡◌, ◌<◌, ◌+◌, ◌^◌, [], ◌∷◌, length, OnOk};
ghost use Rattle.serde_json.specs.Data.{boolean, string};
ghost use Rattle.json_replies.specs.Forms.{decimal_data, array_of, numbered_values, only_if, or_null, is_adjourned};
ghost use Rattle.json_replies.specs.Writing.{WritesMembers, WritesValue, WritesValues};

use json::Writer;
use std::alloc::AllocError;

/// What has a form of its own in replies.
pub(crate) trait Shown {
    ghost use Rattle.serde_json.specs.Data.{Data};

    ghost shown: { Self → Data };

    /// Writes it. The only error is want of memory.
    fn write(&self, out: &mut Writer) -> Result<(), AllocError>
        ensures { OnOk result (WritesValue (shown self.now) out.old out.new) };
}

/// What has a form of its own in replies, beside its number.
pub(crate) trait Counted {
    ghost use Rattle.std.specs.Prelude.{ℕ};
    ghost use Rattle.serde_json.specs.Data.{Data};

    ghost counted: { ℕ → Self → Data };

    /// Writes it with its number. The only error is want of memory.
    fn write_as(&self, number: u64, out: &mut Writer) -> Result<(), AllocError>
        ensures { OnOk result (WritesValue (counted number self.now) out.old out.new) };
}

/// Whether a meeting of so many sessions was adjourned.
pub(crate) fn is_adjourned(sessions: u64) -> bool
    ensures { result ≡ is_adjourned sessions }
{
    sessions > 1
}

/// Writes a number.
pub(crate) fn write_number(out: &mut Writer, number: u64) -> Result<(), AllocError>
    ensures { OnOk result (WritesValue (decimal_data number) out.old out.new) }
{
    out.u64(number)
}

impl Shown for u64 {
    ghost shown = { decimal_data };

    fn write(&self, out: &mut Writer) -> Result<(), AllocError> {
        write_number(out, *self)
    }
}

/// Writes the list of these, in their order.
pub(crate) fn write_list<T: Shown>(out: &mut Writer, items: &[T]) -> Result<(), AllocError>
    ensures { OnOk result (WritesValue (array_of T.shown items.now) out.old out.new) }
{
    out.begin_array()?;
    for item in items {
        item.write(out)?;
    }
    out.end_array()
}

/// Writes these in their order, counted on from the first number, without the brackets of a list.
pub(crate) fn write_each<T: Counted>(
    out: &mut Writer,
    first: u64,
    items: &[T],
) -> Result<(), AllocError>
    requires { first + length items.now < 2 ^ 64 }
    ensures { OnOk result
        (WritesValues (numbered_values T.counted first items.now) out.old out.new) }
{
    let mut number = first;
    for value in items {
        value.write_as(number, out)?;
        number += 1;
    }
    Ok(())
}

/// Writes what is there, or null where nothing is.
pub(crate) fn write_or_null<T: Shown>(out: &mut Writer, item: &Option<T>) -> Result<(), AllocError>
    ensures { OnOk result (WritesValue (or_null T.shown item.now) out.old out.new) }
{
    match item {
        Some(item) => item.write(out),
        None => out.null(),
    }
}

/// Writes a member that is the list of these, in their order.
pub(crate) fn put_list<T: Shown>(out: &mut Writer, key: &str, items: &[T]) -> Result<(), AllocError>
    ensures { OnOk result
        (WritesMembers ((key.now, array_of T.shown items.now) ∷ []) out.old out.new) }
{
    out.key(key)?;
    write_list(out, items)
}

/// Writes a member that is this.
pub(crate) fn put_shown<T: Shown>(out: &mut Writer, key: &str, item: &T) -> Result<(), AllocError>
    ensures { OnOk result (WritesMembers ((key.now, T.shown item.now) ∷ []) out.old out.new) }
{
    out.key(key)?;
    item.write(out)
}

/// Writes a member that is what is there, or null.
pub(crate) fn put_or_null<T: Shown>(
    out: &mut Writer,
    key: &str,
    item: &Option<T>,
) -> Result<(), AllocError>
    ensures { OnOk result
        (WritesMembers ((key.now, or_null T.shown item.now) ∷ []) out.old out.new) }
{
    out.key(key)?;
    write_or_null(out, item)
}

/// Writes a member that is a number.
pub(crate) fn put_number(out: &mut Writer, key: &str, number: u64) -> Result<(), AllocError>
    ensures { OnOk result (WritesMembers ((key.now, decimal_data number) ∷ []) out.old out.new) }
{
    out.key(key)?;
    write_number(out, number)
}

/// Writes a member that is a text.
pub(crate) fn put_text(out: &mut Writer, key: &str, text: &str) -> Result<(), AllocError>
    ensures { OnOk result (WritesMembers ((key.now, string text.now) ∷ []) out.old out.new) }
{
    out.key(key)?;
    out.string(text)
}

/// Writes a member that is true or false.
pub(crate) fn put_truth(out: &mut Writer, key: &str, holds: bool) -> Result<(), AllocError>
    ensures { OnOk result (WritesMembers ((key.now, boolean holds) ∷ []) out.old out.new) }
{
    out.key(key)?;
    out.boolean(holds)
}

/// Writes a member that is a number, where the test holds.
pub(crate) fn put_number_if(
    out: &mut Writer,
    holds: bool,
    key: &str,
    number: u64,
) -> Result<(), AllocError>
    ensures { OnOk result
        (WritesMembers (only_if holds (key.now, decimal_data number) []) out.old out.new) }
{
    if holds {
        put_number(out, key, number)
    } else {
        Ok(())
    }
}
