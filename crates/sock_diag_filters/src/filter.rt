//! Filters: conditions combined by `And`, `Or` and `Not`.

ghost use Rattle.std.specs.Prelude.{◌≤◌, SomeIff};

use crate::codes::OPERATION_HEADER_LEN;
use crate::condition::Condition;

/// A filter, which selects sockets. It borrows its parts.
#[derive(Clone, Copy)]
pub enum Filter<'a> {
    /// Selects the sockets that meet a condition.
    Condition(Condition),
    /// Selects the sockets that both filters select.
    And(&'a Filter<'a>, &'a Filter<'a>),
    /// Selects the sockets that at least one of the filters selects.
    Or(&'a Filter<'a>, &'a Filter<'a>),
    /// Selects the sockets that the filter does not select.
    Not(&'a Filter<'a>),
}

impl Filter<'_> {
    ghost use Rattle.sock_diag_filters.specs.Filters.{program_size};

    /// Returns the length of the filter's program in bytes, or `None` if it is more than `most`.
    pub fn len_within(&self, most: usize) -> Option<usize>
        ensures { SomeIff result (program_size self.now ≤ most) (program_size self.now) }
    {
        match self {
            Filter::Condition(condition) => {
                within(OPERATION_HEADER_LEN + condition.arguments_len(), most)
            },
            Filter::And(first, second) => {
                let first_len = first.len_within(most)?;
                let second_len = second.len_within(most - first_len)?;
                Some(first_len + second_len)
            }
            // Between both programs is a jump, an operation without arguments.
            Filter::Or(first, second) => {
                let first_len = first.len_within(most)?;
                let jump_len = within(OPERATION_HEADER_LEN, most - first_len)?;
                let second_len = second.len_within(most - first_len - jump_len)?;
                Some(first_len + jump_len + second_len)
            }
            // A jump follows the program.
            Filter::Not(filter) => {
                let filter_len = filter.len_within(most)?;
                let jump_len = within(OPERATION_HEADER_LEN, most - filter_len)?;
                Some(filter_len + jump_len)
            }
        }
    }
}

// Returns the length, or `None` if it is more than `most`.
fn within(len: usize, most: usize) -> Option<usize>
    ensures { SomeIff result (len ≤ most) len }
{
    if len <= most { Some(len) } else { None }
}
