//! The lines of scripts.

/// The calls of a command that can fail.
#[derive(Clone, Copy)]
pub enum Calls {
    Files,
    Out,
    Err,
}

/// A line of a script.
pub enum Line<'a> {
    /// A case begins.
    Title,
    /// This file is made.
    Made(&'a str),
    /// This file is absent.
    Absent(&'a str),
    /// A text that is added with a line feed.
    Whole(&'a str),
    /// A text that is added.
    Part(&'a str),
    /// A text that is added so many times.
    Repeated(u32, &'a str),
    /// The file whose text is added.
    Copied(&'a str),
    /// The call of this number fails.
    Fails(Calls, u64),
    /// A command, with a space before each word.
    Command(&'a str),
    /// A question for a file.
    Question(&'a str),
    /// A question for the lines of a file that begin with a text.
    Lines(&'a str, &'a str),
}

/// What a line says, or none if it is of no form.
pub fn line_of(line: &str) -> Option<Line<'_>> {
    if let Some(text) = line.strip_prefix('|') {
        Some(Line::Whole(text))
    } else if let Some(text) = line.strip_prefix(':') {
        Some(Line::Part(text))
    } else if let Some(rest) = line.strip_prefix('*') {
        repeated(rest)
    } else if let Some(name) = line.strip_prefix('<') {
        Some(Line::Copied(name))
    } else if let Some(words) = line.strip_prefix('$') {
        Some(Line::Command(words))
    } else {
        words_of(line)
    }
}

/// What a line says whose first word is its form.
fn words_of(line: &str) -> Option<Line<'_>> {
    match line.split_once(' ') {
        Some(("#", _)) => Some(Line::Title),
        Some(("+", path)) => Some(Line::Made(path)),
        Some(("-", path)) => Some(Line::Absent(path)),
        Some(("?", path)) => Some(Line::Question(path)),
        Some(("=", rest)) => lines(rest),
        Some(("!", rest)) => failing(rest),
        _ => None,
    }
}

/// A text that is added more than once: the number and the text.
fn repeated(rest: &str) -> Option<Line<'_>> {
    let (count, text) = rest.split_once(' ')?;
    match count.parse::<u32>() {
        Ok(count) => Some(Line::Repeated(count, text)),
        Err(_) => None,
    }
}

/// A question for some lines of a file: its path, and what they begin with.
fn lines(rest: &str) -> Option<Line<'_>> {
    let (path, start) = rest.split_once(' ')?;
    Some(Line::Lines(path, start))
}

/// A call that fails: the kind and the number.
fn failing(rest: &str) -> Option<Line<'_>> {
    let (kind, number) = rest.split_once(' ')?;
    let calls = match kind {
        "files" => Calls::Files,
        "out" => Calls::Out,
        "err" => Calls::Err,
        _ => return None,
    };
    match number.parse::<u64>() {
        Ok(number) => Some(Line::Fails(calls, number)),
        Err(_) => None,
    }
}
