// Where lines begin, and at which of them a table or a key stands.

/// The line that a place in a file stands in, from 1.
pub fn line_at(bytes: &[u8], place: usize) -> u64 {
    let before = bytes.get(..place).unwrap_or(bytes);
    let mut line = 1u64;
    for byte in before {
        if *byte == b'\n' {
            line = line.saturating_add(1);
        }
    }
    line
}

/// The line at which the table with a number begins, if the file has a line with this head for each
/// of `count` tables.
pub(crate) fn head_line(bytes: &[u8], head: &str, count: usize, number: usize) -> Option<u64> {
    let text = std::str::from_utf8(bytes).ok()?;
    let mut heads = 0usize;
    let mut found = None;
    let mut line_number = 0u64;
    for line in text.lines() {
        line_number = line_number.saturating_add(1);
        if line.trim_start().starts_with(head) {
            if heads == number {
                found = Some(line_number);
            }
            heads = heads.saturating_add(1);
        }
    }
    if heads == count { found } else { None }
}

/// A line of a file.
#[derive(Clone, Copy)]
pub(crate) struct Line<'a> {
    /// From 1.
    pub(crate) number: u64,
    pub(crate) text: &'a str,
}

// Which line is looked for.
#[derive(Clone, Copy)]
enum Sought<'a> {
    // That of this key, or else that of the next head of a table.
    KeyOrHead(&'a str),
    // That of this key, or of a head of a table with this name, or of one in it.
    KeyOrTable(&'a str),
    // That of the head `[tables.NAME]`.
    Values(&'a str),
}

/// The line of a key of the table whose head stands in line `head`. The head of the whole file is
/// line 0.
pub(crate) fn key_line<'a>(bytes: &'a [u8], head: u64, key: &str) -> Option<Line<'a>> {
    let line = first_line(bytes, head, Sought::KeyOrHead(key))?;
    if is_head(line.text) { None } else { Some(line) }
}

/// The line of a key of the whole file, or of the first table that has this name.
pub(crate) fn document_line<'a>(bytes: &'a [u8], key: &str) -> Option<Line<'a>> {
    first_line(bytes, 0, Sought::KeyOrTable(key))
}

/// The line of an entry of a table of values whose head is `[tables.NAME]`.
pub(crate) fn entry_line<'a>(bytes: &'a [u8], table: &str, entry: &str) -> Option<Line<'a>> {
    let head = first_line(bytes, 0, Sought::Values(table))?;
    key_line(bytes, head.number, entry)
}

// The first such line after line `after`.
fn first_line<'a>(bytes: &'a [u8], after: u64, sought: Sought<'_>) -> Option<Line<'a>> {
    let text = std::str::from_utf8(bytes).ok()?;
    let mut number = 0u64;
    for line in text.lines() {
        number = number.saturating_add(1);
        let text = line.trim();
        if number > after && is_sought(text, sought) {
            return Some(Line { number, text });
        }
    }
    None
}

fn is_sought(line: &str, sought: Sought<'_>) -> bool {
    match sought {
        Sought::KeyOrHead(key) => is_of_key(line, key) || is_head(line),
        Sought::KeyOrTable(key) => is_of_key(line, key) || is_head_of(line, key),
        Sought::Values(table) => is_head_of_values(line, table),
    }
}

// Whether a line begins a table.
fn is_head(line: &str) -> bool {
    match line.as_bytes() {
        [b'[', b'[', first, ..] => first.is_ascii_alphabetic(),
        [b'[', first, ..] => first.is_ascii_alphabetic(),
        _ => false,
    }
}

fn is_of_key(line: &str, key: &str) -> bool {
    match after_key(line, key) {
        Some(rest) => rest.trim_start().starts_with('='),
        None => false,
    }
}

// What stands after a key, perhaps in quotes, at which a line begins.
fn after_key<'a>(line: &'a str, key: &str) -> Option<&'a str> {
    match line.strip_prefix('"') {
        Some(rest) => rest.strip_prefix(key)?.strip_prefix('"'),
        None => line.strip_prefix(key),
    }
}

// Whether a line begins a table with this name, or one in it.
fn is_head_of(line: &str, name: &str) -> bool {
    let Some(rest) = line.strip_prefix('[') else {
        return false;
    };
    let rest = match rest.strip_prefix('[') {
        Some(rest) => rest,
        None => rest,
    };
    match rest.strip_prefix(name) {
        Some(rest) => rest.starts_with(']') || rest.starts_with('.'),
        None => false,
    }
}

fn is_head_of_values(line: &str, table: &str) -> bool {
    match after_values(line, table) {
        Some(rest) => rest.starts_with(']'),
        None => false,
    }
}

fn after_values<'a>(line: &'a str, table: &str) -> Option<&'a str> {
    line.strip_prefix("[tables.")?.strip_prefix(table)
}
