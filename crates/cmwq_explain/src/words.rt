//! The words of a line, by their places.

/// Where a word of a line begins and ends. There is one more than there are spaces.
fn span_of(line: &[u8], index: usize) -> Option<(usize, usize)> {
    let mut start = 0usize;
    let mut number = 0usize;
    for (at, byte) in line.iter().enumerate() {
        if *byte == b' ' {
            if number == index {
                return Some((start, at));
            }
            number = number.saturating_add(1);
            start = at.saturating_add(1);
        }
    }
    if number == index {
        Some((start, line.len()))
    } else {
        None
    }
}

/// A word of a line.
pub fn word_at(line: &[u8], index: usize) -> Option<&[u8]> {
    let (start, end) = span_of(line, index)?;
    line.get(start..end)
}

/// Where a word of a line begins, or where the line ends if it has none.
pub fn start_of(line: &[u8], index: usize) -> usize {
    match span_of(line, index) {
        Some((start, _)) => start,
        None => line.len(),
    }
}

/// A line up to the end of a word, or the whole line if it has no such word.
pub fn front_of(line: &[u8], index: usize) -> &[u8] {
    let end = match span_of(line, index) {
        Some((_, end)) => end,
        None => line.len(),
    };
    line.get(..end).unwrap_or(line)
}
