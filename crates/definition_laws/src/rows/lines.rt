//! Worked rows, each as the contract of a function that does nothing.
ghost use Rattle.std.specs.Prelude.{◌≡◌};
ghost use Rattle.definition_laws.specs.RowsOfLines.{empty_table, empty_table_gives, hosts_line, hosts_line_gives, local_loop, local_loop_gives};
ghost use Rattle.definition_laws.specs.ShortForms.{row};

/// Two lines of a local connection.
pub fn row_local_loop()
    ensures { row local_loop ≡ local_loop_gives }
{}

/// A table and hosts with nothing in them.
pub fn row_empty_table()
    ensures { row empty_table ≡ empty_table_gives }
{}

/// `hosts` and `table`.
pub fn row_hosts_line()
    ensures { row hosts_line ≡ hosts_line_gives }
{}
