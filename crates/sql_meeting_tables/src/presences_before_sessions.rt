//! The table `presences` of version 1, which version 2 leaves empty.
ghost use Rattle.sql_schema.specs.Contents.{presences_before_sessions};
ghost use Rattle.sql_schema.specs.Tables.{presences_before_sessions_table, up_to_authorities};
ghost use Rattle.sql_schema.specs.SqlTexts.{filed_text};
ghost use Rattle.sql_meeting_tables.specs.FirstTables.{presences_before_sessions_emptied, presences_before_sessions_listed, presences_before_sessions_made};

use desk_words::PresenceMark;
use sql_rows::InMeeting;
use sql_stored::{EmptiedTable, ListedTable, MadeTable, listing};

/// The name and the columns of the table, for a text of this form.
#[macro_export]
macro_rules! presences_before_sessions_text {
    ($form:ident $(, $more:literal)*) => {
        $form!("presences", "meeting, party, moment", "seq" $(, $more)*)
    };
}

/// The parties that were present, in order of receipt (section 318), as version 1 kept them.
pub struct PresencesBeforeSessions;

impl ListedTable for PresencesBeforeSessions {
    type Record = InMeeting<PresenceMark>;

    ghost declared = { presences_before_sessions_table };

    ghost table = { presences_before_sessions };

    fn listing() -> &'static str {
        presences_before_sessions_text!(listing)
    }

    ghost lists = { presences_before_sessions_listed };
}

impl MadeTable for PresencesBeforeSessions {
    ghost before = { up_to_authorities };

    ghost making = { filed_text presences_before_sessions_table };

    fn making() -> &'static str {
        "CREATE TABLE presences (seq INTEGER PRIMARY KEY AUTOINCREMENT, meeting TEXT NOT NULL REFERENCES meetings (meeting), party TEXT NOT NULL, moment INTEGER NOT NULL, UNIQUE (meeting, party)) STRICT"
    }

    ghost makes = { presences_before_sessions_made };
}

impl EmptiedTable for PresencesBeforeSessions {
    fn emptying() -> &'static str {
        "DELETE FROM presences"
    }

    ghost empties = { presences_before_sessions_emptied };
}
