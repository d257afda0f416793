// The texts of tables, in which a case is a line.
//
// ` | ` stands between the columns, and a line that begins with `#` says what the cases after it show. In a column for bytes a `;`
// ends a line, and a blank after it is left out; a name of `scenes.rt` in front stands for the lines of that scene.
use crate::scenes::named;
use abuf_num::List;
use std::alloc::Global;
use std::test::Fail;

/// The first column, and what comes after it.
pub(crate) fn column(text: &str) -> (&str, &str) {
    text.split_once(" | ").unwrap_or((text, ""))
}

/// Whether the line is a case.
pub(crate) fn is_case(line: &str) -> bool {
    !line.is_empty() && !line.starts_with('#')
}

/// Appends the lines of a text.
fn push_lines(bytes: &mut Vec<u8>, text: &str) -> Result<(), Fail> {
    let mut at_start = false;
    for &byte in text.as_bytes() {
        match byte {
            b';' => bytes.push(b'\n')?,
            b' ' if at_start => {}
            _ => bytes.push(byte)?,
        }
        at_start = byte == b';';
    }
    Ok(())
}

/// The bytes of a column.
pub(crate) fn bytes_of(alloc: Global, text: &str) -> Result<Vec<u8>, Fail> {
    let mut bytes = Vec::new(alloc);
    let (name, more) = text.split_once(' ').unwrap_or((text, ""));
    match named(name) {
        Some(lines) => {
            bytes.extend_from_slice(lines)?;
            push_lines(&mut bytes, more)?;
        }
        None => push_lines(&mut bytes, text)?,
    }
    Ok(bytes)
}

/// What a shelf holds: in each column a name, and after ` = ` the content.
pub(crate) fn held_of(alloc: Global, columns: &str) -> Result<List<(List<u8>, List<u8>)>, Fail> {
    let mut held = List::new(alloc);
    if columns.is_empty() {
        return Ok(held);
    }
    for text in columns.split(" | ") {
        let (name, content) = text.split_once(" = ").unwrap_or((text, ""));
        let name = List::from_vec(name.as_bytes().to_vec(alloc)?);
        held.push((name, List::from_vec(bytes_of(alloc, content)?)))?;
    }
    Ok(held)
}
