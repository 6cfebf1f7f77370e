//! Foreign keys.
ghost use Rattle.std.specs.Prelude.{◌≡◌, IsTrue};

use crate::equal::{Equal, are_equal};
use sqlite_schema::schema::{Action, Reference};

fn is_same_action(action: Action, other: Action) -> bool
    ensures { IsTrue result → action ≡ other }
{
    matches!(
        (action, other),
        (Action::NoAction, Action::NoAction)
            | (Action::Restrict, Action::Restrict)
            | (Action::Cascade, Action::Cascade)
            | (Action::SetNull, Action::SetNull)
            | (Action::SetDefault, Action::SetDefault)
    )
}

impl Equal for Reference {
    fn is_equal(&self, other: &Reference) -> bool {
        self.columns.is_equal(&other.columns)
            && self.parent.is_equal(&other.parent)
            && are_equal(
                self.parent_columns.as_slice(),
                other.parent_columns.as_slice(),
            )
            && is_same_action(self.on_delete, other.on_delete)
            && is_same_action(self.on_update, other.on_update)
            && self.is_deferred == other.is_deferred
    }
}
