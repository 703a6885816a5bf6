//! A line of a file of cases.

/// A case, what is expected of it, and whether it has to come to that or to something else.
#[derive(Clone, Copy)]
pub struct Line<'a> {
    pub case: &'a str,
    pub expected: &'a str,
    pub is_to_meet: bool,
}

/// The case and what is expected of it, where the line has an arrow.
fn with_arrow(text: &str) -> Option<Line<'_>> {
    if let Some((case, expected)) = text.split_once(" !-> ") {
        return Some(Line {
            case,
            expected,
            is_to_meet: false,
        });
    }
    let (case, expected) = text.split_once(" -> ")?;
    Some(Line {
        case,
        expected,
        is_to_meet: true,
    })
}

/// The case of a line that expects something, if it does.
pub fn expecting(text: &str) -> Option<Line<'_>> {
    match text.strip_prefix('|') {
        Some(expected) => Some(Line {
            case: "|",
            expected,
            is_to_meet: true,
        }),
        None => with_arrow(text),
    }
}

/// A case of which nothing is expected.
pub fn setting_up(text: &str) -> Line<'_> {
    Line {
        case: text,
        expected: "",
        is_to_meet: true,
    }
}
