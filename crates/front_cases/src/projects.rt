//! Texts of project files.

use crate::print::show;
use project_file::project::read;
use std::alloc::{AllocError, Global};

/// Texts of applications, of what is none, of other versions, and of what is not JSON.
const TEXTS: [&str; 10] = [
    "{\"type\": \"application\", \"source-directories\": [\"src\"], \"elm-version\": \"0.19.1\"}",
    "{\"type\": \"application\", \"source-directories\": [\"src\", \"lib/./ui\", \"./src/\", \"lib//ui\", \".\"], \
        \"elm-version\": \"0.19.1\", \"dependencies\": {\"direct\": {\"elm/core\": \"1.0.5\"}}}",
    "{\"type\": \"package\", \"source-directories\": [\"src\"], \"elm-version\": \"0.19.1\"}",
    "{\"type\": \"application\", \"source-directories\": [], \"elm-version\": \"0.19.1\"}",
    "{\"type\": \"application\", \"source-directories\": [\"/src\"], \"elm-version\": \"0.19.0\"}",
    "{\"type\": \"application\", \"source-directories\": [\"src\"], \"elm-version\": 0.19}",
    "{\"type\": \"application\", \"source-directories\": [\"src\"], \"elm-version\": \"0.19.0\"}",
    "{\"type\": \"application\", \"source-directories\": [\"src\"]}",
    "",
    "{\"type\": \"application\",}",
];

/// A project file without blanks.
const SHORT: &str =
    "{\"type\":\"application\",\"source-directories\":[\"src\"],\"elm-version\":\"0.19.1\"}";

/// The most bytes of a project file.
const MOST: usize = 1_048_576;

/// Adds what each text describes.
pub fn rows(alloc: Global, out: &mut String) -> Result<(), AllocError> {
    for text in TEXTS {
        show(out, "project", &read(alloc, text.as_bytes()))?;
    }
    show(out, "no UTF-8", &read(alloc, &[34, 255, 34]))?;
    for length in [MOST, MOST + 1] {
        let text = of_length(alloc, length)?;
        show(out, "long project", &read(alloc, text.as_bytes()))?;
    }
    Ok(())
}

/// A project file with blanks after it up to a length.
fn of_length(alloc: Global, length: usize) -> Result<String, AllocError> {
    let mut text = String::from_str(alloc, SHORT)?;
    for _ in text.len()..length {
        text.push(' ')?;
    }
    Ok(text)
}
