//! The forms that the words of the command line may have.

ghost use Rattle.std.specs.Prelude.{◌≡◌, ℕ, MatchOption};
ghost use Rattle.ibd_cli.specs.Forms.{IsForm, HasNoForm, AsksNoSample, key_word};

use command_line::Words;
use schema_text::decimal_number;

/// The most rows of a sample.
const MOST_ROWS: u32 = 200_000;

/// A command on a table.
#[derive(Clone, Copy, Debug, PartialEq, Eq)]
pub enum Task {
    /// `check SCHEMA FILE`
    Check,
    /// `dump SCHEMA FILE`
    Dump,
    /// `cross SCHEMA FILE`
    Cross,
    /// `get SCHEMA FILE KEY`
    Get,
}

/// What the words ask for.
#[derive(Clone, Copy, Debug, PartialEq, Eq)]
pub enum Form {
    /// `check SCHEMA FILE`, `dump SCHEMA FILE`, `cross SCHEMA FILE` or `get SCHEMA FILE KEY`
    Table(Task),
    /// `build SCHEMA ROWS FILE`
    Build,
    /// `sample N`, with N of 0 to 200,000
    Sample(u32),
}

/// The text of the key of a row that is wanted: the fourth word.
pub fn key_of(words: &Words) -> &[u8]
    ensures { result.now ≡ key_word words.now }
{
    words.get(3).unwrap_or(b"")
}

/// What the words ask for; none where they have no form.
pub fn form_of(words: &Words) -> Option<Form>
    ensures { MatchOption result (HasNoForm words.now) (λ form. IsForm words.now form) }
{
    if words.is_command("check", 3) {
        Some(Form::Table(Task::Check))
    } else if words.is_command("dump", 3) {
        Some(Form::Table(Task::Dump))
    } else if words.is_command("cross", 3) {
        Some(Form::Table(Task::Cross))
    } else if words.is_command("get", 4) {
        Some(Form::Table(Task::Get))
    } else if words.is_command("build", 4) {
        Some(Form::Build)
    } else {
        sample_form(words)
    }
}

fn sample_form(words: &Words) -> Option<Form>
    ensures { MatchOption result (AsksNoSample words.now) (λ form. IsForm words.now form) }
{
    if !words.is_command("sample", 2) {
        return None;
    }
    let rows = decimal_number(words.get(1)?)?;
    if rows <= MOST_ROWS {
        Some(Form::Sample(rows))
    } else {
        None
    }
}
