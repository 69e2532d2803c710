//! Where a key or a region stands in the text of settings.

/// What is looked for in the text of settings.
#[derive(Clone, Copy)]
pub(crate) enum Wanted<'k> {
    /// This key of the document, or the header of a table of that name.
    Key(&'k str),
    /// The head of the region with this number: its header, or where its table in a list begins.
    Head(usize),
    /// This key of the region with this number.
    RegionKey(usize, &'k str),
}

/// The key of the regions.
const REGION: &[u8] = b"region";

/// How many members of a table between braces are looked at. Each is found from the first on, so the time grows with the
/// square of it; a table of a region has four.
const MOST_MEMBERS: usize = 64;

/// How many bytes of the text, which is a TOML document, stand before what is wanted, if it is found.
pub(crate) fn place_in(text: &str, wanted: Wanted<'_>) -> Option<usize> {
    let bytes = text.as_bytes();
    let mut section = Section {
        regions: 0,
        name: &[],
    };
    let mut at = 0;
    for _ in 0..bytes.len().saturating_add(1) {
        let start = start_from(bytes, at);
        if start >= bytes.len() {
            return None;
        }
        section = section.at(bytes, start);
        if let Some(found) = section.find(bytes, start, wanted) {
            return Some(found);
        }
        at = line_end(bytes, start);
    }
    None
}

/// The table that the last header began.
#[derive(Clone, Copy)]
struct Section<'t> {
    /// How many headers of regions there were.
    regions: usize,
    /// The first part of the header's name; nothing before the first header.
    name: &'t [u8],
}

/// The bytes from this place on.
fn rest(bytes: &[u8], at: usize) -> &[u8] {
    match bytes.get(at..) {
        Some(rest) => rest,
        None => &[],
    }
}

/// Whether the byte stands here.
fn has(bytes: &[u8], at: usize, byte: u8) -> bool {
    match bytes.get(at) {
        Some(other) => *other == byte,
        None => false,
    }
}

/// How many brackets of a header stand here: none, one of a table, or two of a table of a list.
fn brackets(bytes: &[u8], start: usize) -> usize {
    if !has(bytes, start, b'[') {
        0
    } else if has(bytes, start.saturating_add(1), b'[') {
        2
    } else {
        1
    }
}

impl<'t> Section<'t> {
    /// The section behind the line that begins here.
    fn at(self, bytes: &'t [u8], start: usize) -> Section<'t> {
        let count = brackets(bytes, start);
        if count == 0 {
            return self;
        }
        let from = start.saturating_add(count);
        let name = first_part(bytes, from);
        let is_head = count == 2 && name == REGION && second_part(bytes, from).is_empty();
        Section {
            regions: self.regions.saturating_add(usize::from(is_head)),
            name,
        }
    }

    /// Where what is wanted stands in the line that begins here.
    fn find(self, bytes: &[u8], start: usize, wanted: Wanted<'_>) -> Option<usize> {
        let count = brackets(bytes, start);
        let is_header = count > 0;
        let name = if is_header || self.name.is_empty() {
            first_part(bytes, start.saturating_add(count))
        } else {
            self.name
        };
        let is_there = match wanted {
            Wanted::Key(key) => (is_header || self.name.is_empty()) && name == key.as_bytes(),
            Wanted::Head(region) => is_header && self.is_in(region),
            Wanted::RegionKey(region, key) => {
                let part = if is_header {
                    second_part(bytes, start.saturating_add(count))
                } else {
                    first_part(bytes, start)
                };
                self.is_in(region) && part == key.as_bytes()
            }
        };
        if is_there {
            return Some(start);
        }
        if is_header || name != REGION || !self.name.is_empty() {
            return None;
        }
        match wanted {
            Wanted::Key(_) => None,
            Wanted::Head(region) => item_from(bytes, start, region),
            Wanted::RegionKey(region, key) => member_from(
                bytes,
                item_from(bytes, start, region)?,
                key,
            ),
        }
    }

    /// Whether it is of the region with this number.
    fn is_in(self, region: usize) -> bool {
        self.name == REGION && self.regions == region.saturating_add(1)
    }
}

/// Where the item of this number stands in the list with which the line that begins here ends.
fn item_from(bytes: &[u8], start: usize, item: usize) -> Option<usize> {
    let equals = rest(bytes, start).iter().position(|byte| *byte == b'=')?;
    let list = start_from(bytes, start.saturating_add(equals).saturating_add(1));
    element(bytes, list, item)
}

/// Where the key stands in the table between braces that begins here.
fn member_from(bytes: &[u8], table: usize, key: &str) -> Option<usize> {
    for member in 0..MOST_MEMBERS {
        let start = element(bytes, table, member)?;
        if first_part(bytes, start) == key.as_bytes() {
            return Some(start);
        }
    }
    None
}

/// Where the element of this number begins between the brackets or braces of which the first stands here.
fn element(bytes: &[u8], open: usize, number: usize) -> Option<usize> {
    let mut left = number;
    let mut depth = 0usize;
    let mut at = open;
    for _ in open..bytes.len() {
        let behind = unit_end(bytes, at);
        match bytes.get(at)? {
            b'[' | b'{' => depth = depth.saturating_add(1),
            b']' | b'}' => depth = depth.saturating_sub(1),
            b',' if depth == 1 => {
                if left == 0 {
                    return None;
                }
                left -= 1;
            }
            _ => {}
        }
        if depth == 0 {
            return None;
        }
        if depth == 1 && left == 0 && matches!(bytes.get(at), Some(b'[' | b'{' | b',')) {
            return Some(start_from(bytes, behind));
        }
        at = behind;
    }
    None
}

/// The first part of the key that stands from here on, without its quotes.
fn first_part(bytes: &[u8], at: usize) -> &[u8] {
    let start = blank_end(bytes, at);
    let end = part_end(bytes, start);
    match bytes.get(start..end) {
        Some([b'"', inner @ .., b'"']) => inner,
        Some([b'\'', inner @ .., b'\'']) => inner,
        Some(part) => part,
        None => &[],
    }
}

/// Its second part; nothing where it has one part.
fn second_part(bytes: &[u8], at: usize) -> &[u8] {
    let end = part_end(bytes, blank_end(bytes, at));
    let dot = blank_end(bytes, end);
    if has(bytes, dot, b'.') {
        first_part(bytes, dot.saturating_add(1))
    } else {
        &[]
    }
}

/// Where the part of a key ends that begins here.
fn part_end(bytes: &[u8], start: usize) -> usize {
    if matches!(bytes.get(start), Some(b'"' | b'\'')) {
        return unit_end(bytes, start);
    }
    for (count, byte) in rest(bytes, start).iter().enumerate() {
        if !byte.is_ascii_alphanumeric() && !matches!(*byte, b'_' | b'-') {
            return start.saturating_add(count);
        }
    }
    bytes.len()
}

/// Where the blanks and tabs end that stand from here on.
fn blank_end(bytes: &[u8], at: usize) -> usize {
    for (count, byte) in rest(bytes, at).iter().enumerate() {
        if !matches!(*byte, b' ' | b'\t') {
            return at.saturating_add(count);
        }
    }
    bytes.len()
}

/// Where the white space, the line feeds, the comments and the byte order mark end that stand from here on.
fn start_from(bytes: &[u8], from: usize) -> usize {
    let mut at = from;
    for _ in 0..bytes.len().saturating_add(1) {
        match bytes.get(at) {
            Some(b' ' | b'\t' | b'\n' | b'\r' | 0xef | 0xbb | 0xbf) => at = at.saturating_add(1),
            Some(b'#') => at = unit_end(bytes, at),
            _ => return at,
        }
    }
    at
}

/// Where the line ends that begins here, with its value, which may go over several lines.
fn line_end(bytes: &[u8], start: usize) -> usize {
    let mut depth = 0usize;
    let mut at = start;
    for _ in start..bytes.len() {
        match bytes.get(at) {
            Some(b'[' | b'{') => depth = depth.saturating_add(1),
            Some(b']' | b'}') => depth = depth.saturating_sub(1),
            Some(b'\n') if depth == 0 => return at,
            None => return at,
            _ => {}
        }
        at = unit_end(bytes, at);
    }
    at
}

/// Where the text, the comment or the byte ends that begins here.
fn unit_end(bytes: &[u8], at: usize) -> usize {
    let behind = match rest(bytes, at) {
        [b'"', b'"', b'"', inner @ ..] => long_text(inner, b'"').saturating_add(2),
        [b'\'', b'\'', b'\'', inner @ ..] => long_text(inner, b'\'').saturating_add(2),
        [b'"', inner @ ..] => short_text(inner, b'"'),
        [b'\'', inner @ ..] => short_text(inner, b'\''),
        [b'#', inner @ ..] => comment(inner),
        _ => 0,
    };
    at.saturating_add(behind).saturating_add(1)
}

/// How many bytes there are up to the line feed that ends a comment.
fn comment(inner: &[u8]) -> usize {
    for (count, byte) in inner.iter().enumerate() {
        if *byte == b'\n' {
            return count;
        }
    }
    inner.len()
}

/// How many bytes there are up to the quote that ends a text, and it.
fn short_text(inner: &[u8], quote: u8) -> usize {
    let mut is_escaped = false;
    for (count, byte) in inner.iter().enumerate() {
        if *byte == quote && !is_escaped {
            return count.saturating_add(1);
        }
        is_escaped = *byte == b'\\' && quote == b'"' && !is_escaped;
    }
    inner.len()
}

/// How many bytes there are up to the three quotes that end a text, and them; up to two more may stand behind them.
fn long_text(inner: &[u8], quote: u8) -> usize {
    let mut is_escaped = false;
    let mut quotes = 0u8;
    for (count, byte) in inner.iter().enumerate() {
        if *byte == quote && !is_escaped && quotes < 5 {
            quotes += 1;
        } else if quotes >= 3 {
            return count;
        } else {
            quotes = 0;
        }
        is_escaped = *byte == b'\\' && quote == b'"' && !is_escaped;
    }
    inner.len()
}
