//! The filter of a packet socket (`PACKET_DIAG_FILTER`). A function of this module that appends to
//! a text or to a writer may fail: then an allocation failed, and the content is not specified.

ghost use Rattle.std.proofs.Common.{rules};
ghost use Rattle.std.specs.Prelude.{◌≡◌, ◌++◌, OnOk};
ghost use Rattle.sslist_facts.specs.FilterProgram.{instruction_members, instruction_text};
ghost use Rattle.sslist_texts.specs.JsonWriting.{KeepsPrefix, members_tokens};

use crate::records::ShownRecord;
use json::Writer;
use sock_diag_extras::FilterInstruction;
use sslist_texts::cells::{push_hex, push_number};
use sslist_texts::json_writing::write_numbers;
use std::alloc::{AllocError, Global};

impl ShownRecord for FilterInstruction {
    ghost record_text = { instruction_text };

    ghost record_members = { instruction_members };

    fn push_text(&self, text: &mut Vec<u8>) -> Result<(), AllocError> {
        push_instruction(text, self)
    }

    fn write_members(&self, _alloc: Global, writer: &mut Writer) -> Result<(), AllocError> {
        write_instruction(writer, self)
    }

    ghost has_bytes = { Prim.search rules };
}

/// Appends an instruction, such as `0x15 0 8 2048`.
#[tactic(auto, unfolding(crate::specs::FilterProgram::instruction_text))]
fn push_instruction(text: &mut Vec<u8>, instruction: &FilterInstruction) -> Result<(), AllocError>
    ensures { OnOk result (text.new.items
        ≡ text.old.items ++ instruction_text instruction.now) }
{
    text.extend_from_slice(b"0x")?;
    push_hex(text, instruction.code.into())?;
    text.push(b' ')?;
    push_number(text, instruction.jump_if_met.into())?;
    text.push(b' ')?;
    push_number(text, instruction.jump_if_not_met.into())?;
    text.push(b' ')?;
    push_number(text, instruction.operand.into())
}

/// Writes the members of an instruction.
#[tactic(auto, unfolding(crate::specs::FilterProgram::instruction_members))]
fn write_instruction(writer: &mut Writer, instruction: &FilterInstruction) -> Result<(), AllocError>
    ensures prefix { KeepsPrefix result writer.old writer.new }
    ensures members { OnOk result (writer.new.tokens ≡ writer.old.tokens
        ++ members_tokens (instruction_members instruction.now)) }
{
    let rows = [
        ("code", instruction.code as u64),
        ("jt", instruction.jump_if_met as u64),
        ("jf", instruction.jump_if_not_met as u64),
        ("k", instruction.operand as u64),
    ];
    write_numbers(writer, &rows)
}
