//! Filters in postfix order: which sockets they select, and their programs.

ghost use Rattle.std.specs.Prelude.{◌≡◌, ◌+◌, ◌-◌, ◌*◌, ◌<◌, ◌≤◌, drop, length, reverse, sum_by};
ghost use Rattle.arrayvec.specs.ArrayVec.{array_vec_len};
ghost use Rattle.sock_diag_filters.specs.Postfix.{IsLastWritten, are_met, last_verdict, part_size};
ghost use Rattle.sock_diag_filters.specs.Postfix.{with_part};
ghost use Rattle.sock_diag_filters.specs.SocketFacts.{facts_meet};
ghost use Rattle.sock_diag_filters.specs.declared.codes.TheConstants.{MAX_DISTANCE};
ghost use Rattle.sock_diag_filters.specs.declared.text.parsed.TheConstants.{MAX_PARTS};

use crate::assembly::{write_condition, write_jump};
use crate::codes::OPERATION_HEADER_LEN;
use crate::text::facts::SocketFacts;
use crate::text::parsed::{MAX_PARTS, Part};
use arrayvec::ArrayVec;

/// Returns whether the filter with these parts selects a socket.
pub(crate) fn are_met(parts: &[Part], facts: &SocketFacts) -> bool
    requires { length parts.now ≤ MAX_PARTS }
    ensures { result ≡ are_met (facts_meet facts.now) parts.now }
{
    let mut verdicts = ArrayVec::new();
    for part in parts {
        add_part(&mut verdicts, *part, facts);
    }
    remove_last(&mut verdicts)
}

/// Adds the verdict of a part, and removes those of its operands.
fn add_part(verdicts: &mut ArrayVec<bool, MAX_PARTS>, part: Part, facts: &SocketFacts)
    requires { array_vec_len verdicts.old < MAX_PARTS }
    ensures value { reverse verdicts.new.items
        ≡ with_part (facts_meet facts.now) (reverse verdicts.old.items) part }
    ensures len { array_vec_len verdicts.new ≤ array_vec_len verdicts.old + 1 }
{
    let verdict = match part {
        Part::Condition(condition) => facts.meets(condition),
        Part::Not => !remove_last(verdicts),
        Part::And => {
            let second = remove_last(verdicts);
            remove_last(verdicts) && second
        }
        Part::Or => {
            let second = remove_last(verdicts);
            remove_last(verdicts) || second
        }
    };
    verdicts.push(verdict);
}

/// Removes the last verdict and returns it, or true if there is none.
fn remove_last(verdicts: &mut ArrayVec<bool, MAX_PARTS>) -> bool
    ensures value { result ≡ last_verdict (reverse verdicts.old.items) }
    ensures rest { reverse verdicts.new.items ≡ drop 1 (reverse verdicts.old.items) }
    ensures len { array_vec_len verdicts.new ≤ array_vec_len verdicts.old }
{
    verdicts.pop().unwrap_or(true)
}

/// Returns the length of the program of the filters in some parts, in bytes.
pub(crate) fn program_len(parts: &[Part]) -> usize
    requires { length parts.now ≤ MAX_PARTS }
    ensures value { result ≡ sum_by part_size parts.now }
    ensures bound { result ≤ MAX_PARTS * 28 }
{
    let mut len = 0;
    for part in parts {
        len += part.len();
    }
    len
}

impl Part {
    /// Returns the number of bytes that the part adds to a program.
    fn len(self) -> usize
        ensures value { result ≡ part_size self }
        ensures bound { result ≤ 28 }
    {
        match self {
            Part::Condition(condition) => OPERATION_HEADER_LEN + condition.arguments_len(),
            Part::And => 0,
            Part::Or | Part::Not => OPERATION_HEADER_LEN,
        }
    }
}

/// Writes the program of the last filter of some parts to the end of a buffer, as `assemble` does.
/// Returns the length of the program, and the parts before the filter. Calls itself once for each
/// part, of which there are at most `MAX_PARTS`.
pub(crate) fn write_last<'a>(
    parts: &'a [Part],
    far: usize,
    buffer: &mut [u8],
) -> (usize, &'a [Part])
    requires whole { sum_by part_size parts.now ≤ length buffer.old }
    requires near { sum_by part_size parts.now + far ≤ MAX_DISTANCE }
    ensures written { IsLastWritten parts.now far buffer.old buffer.new result.0 result.1.now }
    ensures shorter { length result.1.now ≤ length parts.now - 1 }
    ensures len { result.0 + sum_by part_size result.1.now ≡ sum_by part_size parts.now }
{
    let Some((last, before)) = parts.split_last() else {
        return (0, parts);
    };
    match *last {
        Part::Condition(condition) => (write_condition(condition, far, buffer), before),
        Part::Not => {
            write_jump(far, buffer);
            let end = buffer.len() - OPERATION_HEADER_LEN;
            let (len, rest) = write_last(before, OPERATION_HEADER_LEN, &mut buffer[..end]);
            (len + OPERATION_HEADER_LEN, rest)
        }
        Part::And => {
            let (second_len, middle) = write_last(before, far, buffer);
            let end = buffer.len() - second_len;
            let (first_len, rest) = write_last(middle, second_len + far, &mut buffer[..end]);
            (first_len + second_len, rest)
        }
        Part::Or => {
            let (second_len, middle) = write_last(before, far, buffer);
            let end = buffer.len() - second_len;
            write_jump(second_len, &mut buffer[..end]);
            let start = end - OPERATION_HEADER_LEN;
            let (first_len, rest) = write_last(middle, OPERATION_HEADER_LEN, &mut buffer[..start]);
            (first_len + OPERATION_HEADER_LEN + second_len, rest)
        }
    }
}
