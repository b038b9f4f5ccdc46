//! One line of the cases.

use crate::command::{BuildCase, Command};
use case_files::error::LineError;
use case_files::named_files::NamedFiles;
use case_files::plan::Plan;
use case_files::text::decode;
use case_files::words::Words;
use file_cases::report::Report;
use file_cases::schema::try_schema;
use std::alloc::Global;

/// What goes before the words on what is tried.
fn without_words(line: &str) -> &str {
    match line.split_once(" # ") {
        Some((case, _)) => case.trim_end(),
        None => line,
    }
}

/// Tries a line: what it names is named from then on, and its cases are counted.
pub fn try_line(alloc: Global, files: &mut NamedFiles, line: &str) -> Result<Report, LineError> {
    let mut report = Report::new(alloc);
    if line.is_empty() || line.starts_with('#') {
        return Ok(report);
    }
    let case = without_words(line);
    let (what, answer) = match case.split_once(" -> ") {
        Some((what, answer)) => (what, Some(answer)),
        None => (case, None),
    };
    if let Some((name, text)) = text_of(what, "schema") {
        try_schema_line(alloc, files, name, text, answer, &mut report)?;
    } else if let Some((name, made)) = text_of(what, "file") {
        name_file(alloc, files, name, made, answer)?;
    } else {
        let answer = answer.ok_or(LineError::NoAnswer)?;
        try_command(alloc, files, what, answer, &mut report)?;
    }
    Ok(report)
}

/// The name and the text of `WORD NAME = TEXT`; the name is empty in `WORD = TEXT`.
fn text_of<'a>(what: &'a str, word: &str) -> Option<(&'a str, &'a str)> {
    let rest = what.strip_prefix(word)?;
    if let Some(text) = rest.strip_prefix(" =") {
        return Some(("", text.strip_prefix(' ').unwrap_or(text)));
    }
    let (name, text) = rest.strip_prefix(' ')?.split_once(" =")?;
    Some((name, text.strip_prefix(' ').unwrap_or(text)))
}

/// Names a schema text where the line does, and tries it where there is an answer.
fn try_schema_line(
    alloc: Global,
    files: &mut NamedFiles,
    name: &str,
    text: &str,
    answer: Option<&str>,
    report: &mut Report,
) -> Result<(), LineError> {
    let text = decode(alloc, text)?;
    if let Some(answer) = answer {
        try_schema(alloc, text.bytes(), answer, report)?;
    }
    if !name.is_empty() {
        return files.put_schema(alloc, name, text);
    }
    match answer {
        Some(_) => Ok(()),
        None => Err(LineError::NoAnswer),
    }
}

/// Names a file: one that is made of another one, or what a build leaves.
fn name_file(
    alloc: Global,
    files: &mut NamedFiles,
    name: &str,
    made: &str,
    answer: Option<&str>,
) -> Result<(), LineError> {
    if name.is_empty() || answer.is_some() {
        return Err(LineError::Word);
    }
    if let Some(build) = made.strip_prefix("build ") {
        let base = BuildCase::read(alloc, build)?.base(alloc, files)?;
        return files.put_file(alloc, name, base);
    }
    let mut words = Words::of(alloc, made)?;
    let plan = Plan::read(alloc, &mut words)?;
    words.end()?;
    let base = files.made(alloc, &plan)?;
    files.put_file(alloc, name, base)
}

fn try_command(
    alloc: Global,
    files: &NamedFiles,
    what: &str,
    answer: &str,
    report: &mut Report,
) -> Result<(), LineError> {
    Command::read(alloc, what)?.run(alloc, files, answer, report)
}
