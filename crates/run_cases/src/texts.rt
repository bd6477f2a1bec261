//! Texts of which parts stand many times.
use anyhow::{Context, Error};
use std::alloc::{AllocError, Global};

/// Appends a line. A `\` at its end takes the line feed away.
pub(crate) fn push_line(text: &mut String, line: &str) -> Result<(), AllocError> {
    match line.strip_suffix('\\') {
        Some(line) => text.push_str(line),
        None => {
            text.push_str(line)?;
            text.push('\n')
        }
    }
}

// Appends letters, of which a `*` is the time, and a `@` the next number.
fn push_time(
    text: &mut String,
    letters: &str,
    time: u32,
    last: &mut u32,
) -> Result<(), AllocError> {
    if !letters.contains('*') && !letters.contains('@') {
        return text.push_str(letters);
    }
    for letter in letters.chars() {
        match letter {
            '*' => write!(text, "{time}")?,
            '@' => {
                let next = last.wrapping_add(1);
                *last = next;
                write!(text, "{next}")?;
            }
            _ => text.push(letter)?,
        }
    }
    Ok(())
}

// Appends what stands in braces: how many times, a space or a line feed, and letters.
fn push_times(text: &mut String, braced: &str, last: &mut u32) -> Result<(), Error> {
    let (times, letters) = braced
        .split_once(char::is_whitespace)
        .context("no number in braces")?;
    for time in 0..times.parse::<u32>()? {
        push_time(text, letters, time, last)?;
    }
    Ok(())
}

/// The text in which what stands in braces stands as many times as they say.
pub(crate) fn spread(alloc: Global, text: &str) -> Result<String, Error> {
    let mut whole = String::new(alloc);
    let mut last = 0;
    for piece in text.split('}') {
        let (letters, braced) = piece.split_once('{').unwrap_or((piece, "0 "));
        push_time(&mut whole, letters, 0, &mut last)?;
        push_times(&mut whole, braced, &mut last)?;
    }
    Ok(whole)
}
