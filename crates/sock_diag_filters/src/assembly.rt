//! Assembly of filters to programs: the bytecode of `INET_DIAG_REQ_BYTECODE`. Clauses `in_range`
//! state that each number of a condition fits its Rust type. This is so for all Rust values; they
//! are stated since `laws::programs_select_by_filter` assumes it.

ghost use Rattle.std.specs.Prelude.{◌≡◌, ◌+◌, ◌<◌, ◌≤◌, ℕ, List, Bool, length, IfOk, IfErr};
ghost use Rattle.std.specs.Prelude.{OnOk};
ghost use Rattle.sock_diag_filters.specs.Audit.{IsAudited};
ghost use Rattle.sock_diag_filters.specs.private.Assembly.{EndsWith, operation_header_bytes};
ghost use Rattle.sock_diag_filters.specs.private.Assembly.{jump, operation, program_of};
ghost use Rattle.sock_diag_filters.specs.Filters.{meaning, program_size};
ghost use Rattle.sock_diag_filters.specs.Conditions.{arguments, code_of};
ghost use Rattle.sock_diag_filters.specs.Run.{Runs};
ghost use Rattle.sock_diag_filters.specs.Sockets.{AreConditionsInRange, IsConditionInRange, Socket};
ghost use Rattle.sock_diag_filters.specs.Sockets.{kernel_evaluates, meets};
ghost use Rattle.sock_diag_filters.specs.declared.assembly.AssembleError.TheVariants.{Memory};
ghost use Rattle.sock_diag_filters.specs.Assembled.{IsAssembleError};

use crate::codes::{INET_DIAG_BC_JMP, MAX_DISTANCE, OPERATION_HEADER_LEN};
use crate::condition::Condition;
use crate::filter::Filter;
use byteorder::{ByteOrder, LittleEndian};
use std::alloc::{AllocError, Global};
use thiserror::Error;

/// The maximum length of a program in bytes. A longer program does not fit the length field of an
/// attribute. In a program of at most this length, the distance of each jump fits its 16 bits.
pub const MAX_PROGRAM: usize = 65531;

/// The reason why a filter could not be assembled.
#[derive(Debug, Drop, PartialEq, Eq, Error)]
pub enum AssembleError {
    /// The program would have more than [`MAX_PROGRAM`] bytes.
    #[error("a filter of more than {MAX_PROGRAM} bytes")]
    TooLong,
    /// An allocation failed.
    #[error("out of memory")]
    Memory,
}

impl From<AllocError> for AssembleError {
    ghost from_gives = { λ _ e. e ≡ Memory };

    fn from(_e: AllocError) -> AssembleError {
        AssembleError::Memory
    }
}

/// Returns the program of a filter: the value of an attribute `INET_DIAG_REQ_BYTECODE`. It has
/// `program_size` bytes, which are at most 65,531.
///
/// The program passes the kernel's audit. A run of it selects a socket if and only if the filter
/// does, for any results of its conditions. If the results are those of the kernel's comparisons,
/// the selected sockets are the sockets that meet the filter.
///
/// Fails with `TooLong` only if the program would have more than [`MAX_PROGRAM`] bytes. Fails with
/// `Memory` if an allocation fails, and only for a program that is not too long.
pub fn assemble(alloc: Global, filter: &Filter) -> Result<Vec<u8>, AssembleError>
    ensures size { IfOk result (λ program. length program.items ≡ program_size filter.now) }
    ensures short { IfOk result (λ program. length program.items ≤ MAX_PROGRAM) }
    ensures audited { IfOk result (λ program. IsAudited program.items) }
    // For all results of the conditions (`condition_met`).
    ensures runs { IfOk result (λ program. (condition_met : ℕ → List ℕ → Bool)
        → Runs condition_met program.items
        (meaning (λ c. condition_met (code_of c) (arguments c)) filter.now)) }
    // For all sockets, with the results that the kernel computes.
    ensures selects_by_filter { IfOk result (λ program. (socket : Socket)
        → Runs (kernel_evaluates socket) program.items (meaning (meets socket) filter.now)) }
    ensures in_range { OnOk result (AreConditionsInRange filter.now) }
    ensures refused { IfErr result (λ e. IsAssembleError filter.now e) }
{
    let Some(len) = filter.len_within(MAX_PROGRAM) else {
        return Err(AssembleError::TooLong);
    };
    let mut program = vec![in alloc; 0; len]?;
    // A jump to 4 bytes after the end rejects the socket. The audit allows no longer distance.
    write_program(filter, OPERATION_HEADER_LEN, &mut program);
    Ok(program)
}

// Writes the program of a filter to the end of a buffer, and returns its length. A run continues at
// the end of the program for a selected socket, and `far` bytes after the end for any other socket.
// The distance from the start of the program to there has to fit 16 bits: no jump of the program is
// longer. The second part of a filter is written first, since the jumps of the first part depend on
// its length.
fn write_program(filter: &Filter, far: usize, buffer: &mut [u8]) -> usize
    requires whole { program_size filter.now ≤ length buffer.old }
    requires near { program_size filter.now + far ≤ MAX_DISTANCE }
    ensures len { result ≡ program_size filter.now }
    ensures written { EndsWith buffer.old (program_of filter.now far) buffer.new }
    ensures in_range { AreConditionsInRange filter.now }
{
    match filter {
        Filter::Condition(condition) => write_condition(*condition, far, buffer),
        // If `first` does not select the socket, the run continues `far` bytes after the end of
        // `second`, else at the start of `second`.
        Filter::And(first, second) => {
            let second_len = write_program(second, far, buffer);
            let end = buffer.len() - second_len;
            second_len + write_program(first, second_len + far, &mut buffer[..end])
        }
        // If `first` selects the socket, the run reaches the jump, which leads to the end.
        // Otherwise it continues after the jump.
        Filter::Or(first, second) => {
            let second_len = write_program(second, far, buffer);
            let end = buffer.len() - second_len;
            write_jump(second_len, &mut buffer[..end]);
            let start = end - OPERATION_HEADER_LEN;
            let first_len = write_program(first, OPERATION_HEADER_LEN, &mut buffer[..start]);
            first_len + OPERATION_HEADER_LEN + second_len
        }
        // If `filter` selects the socket, the run reaches the jump, which leads `far` bytes after
        // the end. Otherwise it continues at the end.
        Filter::Not(filter) => {
            write_jump(far, buffer);
            let end = buffer.len() - OPERATION_HEADER_LEN;
            write_program(filter, OPERATION_HEADER_LEN, &mut buffer[..end]) + OPERATION_HEADER_LEN
        }
    }
}

// Writes a jump of `far` bytes to the end of a buffer: an operation whose condition is never met.
// The distance from its start to the target of the jump has to fit 16 bits.
pub(crate) fn write_jump(far: usize, buffer: &mut [u8])
    requires whole { OPERATION_HEADER_LEN ≤ length buffer.old }
    requires near { OPERATION_HEADER_LEN + far ≤ MAX_DISTANCE }
    ensures { EndsWith buffer.old (jump far) buffer.new }
{
    let start = buffer.len() - OPERATION_HEADER_LEN;
    write_operation(INET_DIAG_BC_JMP, 0, far, &mut buffer[start..]);
}

// Writes the operation of a condition to the end of a buffer, and returns its length. If the
// condition is not met, it jumps to `far` bytes after its end. The distance from its start to there
// has to fit 16 bits.
pub(crate) fn write_condition(condition: Condition, far: usize, buffer: &mut [u8]) -> usize
    requires whole { OPERATION_HEADER_LEN + length (arguments condition) ≤ length buffer.old }
    requires near { OPERATION_HEADER_LEN + length (arguments condition) + far ≤ MAX_DISTANCE }
    ensures len { result ≡ OPERATION_HEADER_LEN + length (arguments condition) }
    ensures written { EndsWith buffer.old (operation (code_of condition) (arguments condition) far)
        buffer.new }
    ensures in_range { IsConditionInRange condition }
{
    let len = OPERATION_HEADER_LEN + condition.arguments_len();
    let (_, operation) = buffer.split_at_mut(buffer.len() - len);
    let (header, arguments) = operation.split_at_mut(OPERATION_HEADER_LEN);
    condition.write_arguments(arguments);
    write_operation(condition.code(), arguments.len(), far, header);
    len
}

// Writes the start of an operation, `struct inet_diag_bc_op`. `arguments_len` bytes of arguments
// follow it. If the condition is not met, it jumps to `far` bytes after them. The length of the
// operation has to fit 8 bits (`yes`), and the distance from its start to the target of the jump 16
// bits (`no`).
fn write_operation(code: u8, arguments_len: usize, far: usize, header: &mut [u8])
    requires whole { length header.old ≡ OPERATION_HEADER_LEN }
    requires short { OPERATION_HEADER_LEN + arguments_len ≤ 255 }
    requires near { OPERATION_HEADER_LEN + arguments_len + far ≤ MAX_DISTANCE }
    ensures { header.new ≡ operation_header_bytes code arguments_len far }
{
    let yes = OPERATION_HEADER_LEN + arguments_len;
    let (code_and_yes, no) = header.split_at_mut(2);
    code_and_yes.copy_from_slice(&[code, yes as u8]);
    LittleEndian::write_u16(no, (yes + far) as u16);
}
