//! Lines on the lists that many crates name, and on the tree of a message's values: what is added, copied and compared.

use lists::{Element, are_equal};
use sbe_schema::{PathStep, TableArray, path_to};
use sbe_value::{
    Block, Blocks, Bytes, Datum, Datums, Group, Groups, Item, Items, Lines, Message, Path,
    Payloads, Step, text_of_path,
};
use std::alloc::{AllocError, Global};

fn text(bytes: &[u8]) -> &str {
    str::from_utf8(bytes).unwrap_or("?")
}

fn abc(alloc: Global) -> Result<Bytes, AllocError> {
    let mut bytes = Bytes::new(alloc);
    bytes.push(b'a')?;
    bytes.extend_from_slice(b"bc")?;
    Ok(bytes)
}

/// Bytes that are pushed, copied and compared with greater ones.
fn push_bytes(alloc: Global, line: &mut String) -> Result<(), AllocError> {
    let bytes = abc(alloc)?;
    let copy = bytes.copy(alloc)?;
    let greater = Bytes::from_slice(alloc, b"abd")?;
    let copied = copy == bytes;
    let less = bytes < greater;
    let count = bytes.len();
    write!(
        line,
        "bytes {}, {count} of them, copied {copied}, less {less}",
        text(bytes.as_slice())
    )
}

/// A list of lists of bytes.
fn push_payloads(alloc: Global, line: &mut String) -> Result<(), AllocError> {
    let mut payloads = Payloads::new(alloc);
    payloads.push(Bytes::from_slice(alloc, b"abc")?)?;
    let copy = payloads.copy(alloc)?;
    let copied = copy == payloads;
    let equal = are_equal(&payloads, &payloads);
    let empty = payloads.is_empty();
    write!(
        line,
        "payloads empty {empty}, copied {copied}, equal {equal}"
    )
}

/// A list made into a vector.
fn push_lines(alloc: Global, line: &mut String) -> Result<(), AllocError> {
    let inner: Vec<u8> = Vec::from(Lines::from(Vec::from_slice(alloc, b"end")?));
    write!(line, "lines {}", text(inner.as_slice()))
}

fn steps(alloc: Global) -> Result<Path, AllocError> {
    let key = Step::Key(Bytes::from_slice(alloc, b"message")?);
    Ok(Path::from(vec![in alloc; key, Step::At(0)]?))
}

/// The path to the second field of the first message.
fn path(alloc: Global) -> Result<Path, AllocError> {
    let message = PathStep {
        array: TableArray::Messages,
        at: 0,
    };
    let field = PathStep {
        array: TableArray::Fields,
        at: 1,
    };
    path_to(alloc, &[message], field)
}

/// Whether other steps, copied, are another path.
fn is_another(alloc: Global, path: &Path) -> Result<bool, AllocError> {
    let copy = steps(alloc)?.copy(alloc)?;
    Ok(copy != *path)
}

/// The path to a place of a schema, and whether other steps are another path.
fn push_path(alloc: Global, line: &mut String) -> Result<(), AllocError> {
    let path = path(alloc)?;
    let other = is_another(alloc, &path)?;
    let words = text_of_path(alloc, &path)?;
    write!(line, "path {}, another one {other}", text(words.as_slice()))
}

/// One of each kind of item.
fn items(alloc: Global) -> Result<Items, AllocError> {
    let text = Item::Text(Bytes::from_slice(alloc, b"x")?);
    let raw = Item::Raw(Bytes::from_slice(alloc, b"x")?);
    let items = vec![in alloc; Item::Num(-2), Item::Null, Item::Absent, text, raw]?;
    Ok(Items::from(items))
}

/// Data that are there and not.
fn datums(alloc: Global) -> Result<Datums, AllocError> {
    let empty = Datum::Present(Bytes::new(alloc));
    Ok(Datums::from(vec![in alloc; empty, Datum::Absent]?))
}

/// A group that is absent, and one with one empty entry.
fn groups(alloc: Global) -> Result<Groups, AllocError> {
    let entry = Block {
        items: Items::new(alloc),
        groups: Groups::new(alloc),
        vars: Datums::new(alloc),
    };
    let entries = Group::Entries(Blocks::from(vec![in alloc; entry]?));
    Ok(Groups::from(vec![in alloc; Group::Absent, entries]?))
}

fn message(alloc: Global) -> Result<Message, AllocError> {
    let items = items(alloc)?;
    let groups = groups(alloc)?;
    let vars = datums(alloc)?;
    Ok(Message {
        template: 5,
        root: Block {
            items,
            groups,
            vars,
        },
    })
}

/// Whether a copy of a message is equal to it.
fn is_copied(alloc: Global, message: &Message) -> Result<bool, AllocError> {
    let copy = message.copy(alloc)?;
    Ok(copy == *message)
}

/// A copy of a message with one item more.
fn longer(alloc: Global, message: &Message) -> Result<Message, AllocError> {
    let mut longer = message.copy(alloc)?;
    longer.root.items.push(Item::Null)?;
    Ok(longer)
}

/// Whether that copy is no longer equal to it.
fn is_changed(alloc: Global, message: &Message) -> Result<bool, AllocError> {
    let longer = longer(alloc, message)?;
    Ok(longer != *message)
}

/// Adds the count of groups, and what is told of copies.
fn push_copies(alloc: Global, line: &mut String, message: &Message) -> Result<(), AllocError> {
    let copied = is_copied(alloc, message)?;
    let changed = is_changed(alloc, message)?;
    let groups = message.root.groups.len();
    write!(
        line,
        "message with {groups} groups, copied {copied}, changed {changed}"
    )
}

/// A message that is copied, and a copy that is changed.
fn push_message(alloc: Global, line: &mut String) -> Result<(), AllocError> {
    let message = message(alloc)?;
    push_copies(alloc, line, &message)
}

/// Adds what is shown of lists of this name.
pub fn push_values(alloc: Global, line: &mut String, name: &str) -> Result<(), AllocError> {
    match name {
        "bytes" => push_bytes(alloc, line),
        "payloads" => push_payloads(alloc, line),
        "lines" => push_lines(alloc, line),
        "path" => push_path(alloc, line),
        "message" => push_message(alloc, line),
        _ => write!(line, "no case: {name}"),
    }
}
