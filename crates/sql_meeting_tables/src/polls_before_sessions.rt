//! The table `polls` of version 1, which version 2 leaves empty.
ghost use Rattle.sql_schema.specs.Contents.{polls_before_sessions};
ghost use Rattle.sql_schema.specs.Tables.{polls_before_sessions_table, up_to_demands_before_sessions};
ghost use Rattle.sql_schema.specs.SqlTexts.{once_text};
ghost use Rattle.sql_meeting_tables.specs.FirstTables.{polls_before_sessions_emptied, polls_before_sessions_listed, polls_before_sessions_made};

use desk_words::Poll;
use sql_rows::InMeeting;
use sql_stored::{EmptiedTable, ListedTable, MadeTable, listing};

/// The name and the columns of the table, for a text of this form.
#[macro_export]
macro_rules! polls_before_sessions_text {
    ($form:ident $(, $more:literal)*) => {
        $form!("polls", "meeting, resolution, ordered, take, chair, started, closed, votes_for, votes_against, withheld, eligible", "rowid" $(, $more)*)
    };
}

/// The polls (section 321), as version 1 kept them.
pub struct PollsBeforeSessions;

impl ListedTable for PollsBeforeSessions {
    type Record = InMeeting<Poll>;

    ghost declared = { polls_before_sessions_table };

    ghost table = { polls_before_sessions };

    fn listing() -> &'static str {
        polls_before_sessions_text!(listing)
    }

    ghost lists = { polls_before_sessions_listed };
}

impl MadeTable for PollsBeforeSessions {
    ghost before = { up_to_demands_before_sessions };

    ghost making = { once_text polls_before_sessions_table };

    fn making() -> &'static str {
        "CREATE TABLE polls (meeting TEXT NOT NULL REFERENCES meetings (meeting), resolution INTEGER NOT NULL, ordered INTEGER NOT NULL, take INTEGER NOT NULL, chair INTEGER NOT NULL, started INTEGER, closed INTEGER, votes_for INTEGER, votes_against INTEGER, withheld INTEGER, eligible INTEGER, PRIMARY KEY (meeting, resolution)) STRICT"
    }

    ghost makes = { polls_before_sessions_made };
}

impl EmptiedTable for PollsBeforeSessions {
    fn emptying() -> &'static str {
        "DELETE FROM polls"
    }

    ghost empties = { polls_before_sessions_emptied };
}
