//! Texts of statements, made of the name of a table, of its columns, and of that of the numbers of
//! its rows.

/// The texts of a table: those made of its columns, and its own that makes it.
#[macro_export]
macro_rules! table_texts {
    ($table:literal, $columns:literal, $order:literal, $values:literal, $making:literal) => {
        $crate::TableTexts {
            making: $making,
            listing: $crate::listing!($table, $columns, $order),
            counting: concat!("SELECT COUNT(*) FROM ", $table),
            adding: $crate::adding!($table, $columns, $order, $values),
        }
    };
}

/// Adds a row of these values.
#[macro_export]
macro_rules! adding {
    ($table:literal, $columns:literal, $order:literal, $values:literal) => {
        concat!("INSERT INTO ", $table, " (", $columns, ") VALUES (", $values, ")")
    };
}

/// Shows all rows, in the order of their numbers.
#[macro_export]
macro_rules! listing {
    ($table:literal, $columns:literal, $order:literal) => {
        concat!("SELECT ", $columns, " FROM ", $table, " ORDER BY ", $order)
    };
}

/// Shows the rows that pass these tests, in the order of their numbers.
#[macro_export]
macro_rules! finding {
    ($table:literal, $columns:literal, $order:literal, $tests:literal) => {
        concat!("SELECT ", $columns, " FROM ", $table, " WHERE ", $tests, " ORDER BY ", $order)
    };
}
