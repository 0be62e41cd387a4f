//! The printed table of needs, which shows that no shorter list exists.
#![tactic(auto)]

mod check;
mod laws;
mod line;
mod lines;
mod numbers;
mod places;
mod rounds;
mod table;

pub use check::check_row;
pub use laws::{
    checked_table_bounds, one_first_round, one_later_round, one_table, table_bounds,
    written_is_read,
};
pub use line::{behind, cut_at};
pub use lines::{append_table, write_table};
pub use rounds::check_table;
pub use table::{LineRow, LineRows, Table, TableFault, cut_line, read_table};
