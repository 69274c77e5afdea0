/// How many lines of a text are this one.
pub fn times(text: &str, line: &str) -> usize {
    let mut found = 0usize;
    for other in text.lines() {
        if other == line {
            found = found.saturating_add(1);
        }
    }
    found
}

/// Whether two texts have the same lines, each as often. A line feed ends each line.
pub fn same_lines(some: &str, others: &str) -> bool {
    let mut same = some.len() == others.len();
    for line in some.lines() {
        same &= times(some, line) == times(others, line);
    }
    same
}
