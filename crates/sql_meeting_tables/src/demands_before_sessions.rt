//! The table `demands` of version 1, which version 2 leaves empty.
ghost use Rattle.sql_schema.specs.Contents.{demands_before_sessions};
ghost use Rattle.sql_schema.specs.Tables.{demands_before_sessions_table, up_to_presences_before_sessions};
ghost use Rattle.sql_schema.specs.SqlTexts.{filed_text};
ghost use Rattle.sql_meeting_tables.specs.FirstTables.{demands_before_sessions_emptied, demands_before_sessions_listed, demands_before_sessions_made};

use desk_words::DemandMark;
use sql_rows::InMeeting;
use sql_stored::{EmptiedTable, ListedTable, MadeTable, listing};

/// The name and the columns of the table, for a text of this form.
#[macro_export]
macro_rules! demands_before_sessions_text {
    ($form:ident $(, $more:literal)*) => {
        $form!("demands", "meeting, resolution, party, moment", "seq" $(, $more)*)
    };
}

/// The demands of polls, in order of receipt (sections 321 and 329), as version 1 kept them.
pub struct DemandsBeforeSessions;

impl ListedTable for DemandsBeforeSessions {
    type Record = InMeeting<DemandMark>;

    ghost declared = { demands_before_sessions_table };

    ghost table = { demands_before_sessions };

    fn listing() -> &'static str {
        demands_before_sessions_text!(listing)
    }

    ghost lists = { demands_before_sessions_listed };
}

impl MadeTable for DemandsBeforeSessions {
    ghost before = { up_to_presences_before_sessions };

    ghost making = { filed_text demands_before_sessions_table };

    fn making() -> &'static str {
        "CREATE TABLE demands (seq INTEGER PRIMARY KEY AUTOINCREMENT, meeting TEXT NOT NULL REFERENCES meetings (meeting), resolution INTEGER NOT NULL, party TEXT NOT NULL, moment INTEGER NOT NULL, UNIQUE (meeting, resolution, party)) STRICT"
    }

    ghost makes = { demands_before_sessions_made };
}

impl EmptiedTable for DemandsBeforeSessions {
    fn emptying() -> &'static str {
        "DELETE FROM demands"
    }

    ghost empties = { demands_before_sessions_emptied };
}
