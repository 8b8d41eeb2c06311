//! A schema in a file of its own: its layout, the marks and data of its blocks,
//! and whether its copy and its text, read back, are equal to it.

use crate::schemas::verdict::push_fault;
use layout_text::message_lines;
use lists::{Element, are_equal};
use sbe_layout::{BlockPlan, GroupPlan, MessagePlan, Plan};
use sbe_schema::Schema;
use schema_load::load;
use schema_print::print_schema;
use schema_toml::{ConfigFault, read_schema};
use std::alloc::{AllocError, Global};
use std::rt::Files;
use std::{fs, io};

/// Prints what is said of the schema in a file.
pub fn print_sample<R: Files + Print + AllocGlobal>(rt: &R, file: &str) -> io::Result<()> {
    let text = fs::read(rt, file)?;
    rt.println(sample(rt.alloc(), file, text.as_slice())?)
}

/// What is said of a schema in a file.
fn sample(alloc: Global, file: &str, text: &[u8]) -> Result<String, AllocError> {
    let mut lines = String::new(alloc);
    push_sample(alloc, &mut lines, file, text)?;
    Ok(lines)
}

fn push_sample(
    alloc: Global,
    lines: &mut String,
    file: &str,
    text: &[u8],
) -> Result<(), AllocError> {
    match load(alloc, text) {
        Ok(plan) => {
            write!(lines, "Ok | {file}\n")?;
            push_plan(alloc, lines, text, &plan)
        }
        Err(fault) => push_refused(alloc, lines, file, &fault),
    }
}

fn push_refused(
    alloc: Global,
    lines: &mut String,
    file: &str,
    fault: &ConfigFault,
) -> Result<(), AllocError> {
    push_fault(alloc, lines, fault)?;
    write!(lines, " | {file}")
}

fn push_plan(
    alloc: Global,
    lines: &mut String,
    text: &[u8],
    plan: &Plan,
) -> Result<(), AllocError> {
    for message in plan.messages.as_slice() {
        push_message(alloc, lines, plan, message)?;
    }
    lines.push_str(back(alloc, text)?)
}

fn push_message(
    alloc: Global,
    lines: &mut String,
    plan: &Plan,
    message: &MessagePlan,
) -> Result<(), AllocError> {
    let layout = message_lines(alloc, message)?;
    lines.push_str(word(layout.as_slice()))?;
    match plan.message(message.template) {
        Some(found) => push_message_marks(lines, found),
        None => Ok(()),
    }
}

fn word(bytes: &[u8]) -> &str {
    str::from_utf8(bytes).unwrap_or("?")
}

/// Adds the marks of the root block, of its groups, and of the groups in these.
fn push_message_marks(lines: &mut String, message: &MessagePlan) -> Result<(), AllocError> {
    push_marks(lines, "root", &message.root)?;
    for group in message.root.groups.as_slice() {
        push_group_marks(lines, group)?;
    }
    Ok(())
}

fn push_group_marks(lines: &mut String, group: &GroupPlan) -> Result<(), AllocError> {
    push_marks(lines, word(group.name.as_slice()), &group.block)?;
    for inner in group.block.groups.as_slice() {
        push_marks(lines, word(inner.name.as_slice()), &inner.block)?;
    }
    Ok(())
}

fn push_marks(lines: &mut String, name: &str, block: &BlockPlan) -> Result<(), AllocError> {
    write!(lines, "marks of {name}:")?;
    push_field_marks(lines, block)?;
    push_data_marks(lines, block)?;
    lines.push_str("\n")
}

/// Adds the since and the end of each field.
fn push_field_marks(lines: &mut String, block: &BlockPlan) -> Result<(), AllocError> {
    for mark in block.marks.as_slice() {
        write!(lines, " {} {},", mark.since, mark.end)?;
    }
    Ok(())
}

/// Adds the since of each datum.
fn push_data_marks(lines: &mut String, block: &BlockPlan) -> Result<(), AllocError> {
    for datum in block.vars.as_slice() {
        let name = word(datum.name.as_slice());
        write!(lines, " {name} since {},", datum.since)?;
    }
    Ok(())
}

/// Whether a copy, and what is read of the printed text, are the schema that a text spells, and the text is printed alike.
fn back(alloc: Global, text: &[u8]) -> Result<&'static str, AllocError> {
    match read_schema(alloc, text) {
        Ok(schema) => copied_back(alloc, &schema),
        Err(_fault) => Ok("not read"),
    }
}

fn copied_back(alloc: Global, schema: &Schema) -> Result<&'static str, AllocError> {
    let copy = schema.copy(alloc)?;
    if are_equal(schema, &copy) {
        read_back(alloc, &copy)
    } else {
        Ok("another copy")
    }
}

fn read_back(alloc: Global, schema: &Schema) -> Result<&'static str, AllocError> {
    let lines = print_schema(alloc, schema)?;
    match read_schema(alloc, lines.as_slice()) {
        Ok(again) => printed_alike(alloc, schema, &again, lines.as_slice()),
        Err(_fault) => Ok("not read back"),
    }
}

/// Whether what is read again is the schema, and its text the lines that it is read of.
fn printed_alike(
    alloc: Global,
    schema: &Schema,
    again: &Schema,
    lines: &[u8],
) -> Result<&'static str, AllocError> {
    if !are_equal(again, schema) {
        return Ok("another schema");
    }
    let alike = print_schema(alloc, again)?;
    if alike.as_slice() == lines {
        Ok("copied, printed and read back")
    } else {
        Ok("printed otherwise")
    }
}
