//! The forms that the words of the command line may have.

ghost use Rattle.std.specs.Prelude.{◌≡◌, ◌≢◌, MatchOption};
ghost use Rattle.salvage_model.specs.declared.kind.RecordKind.{RecordKind};
ghost use Rattle.ibd_salvage.specs.Forms.{IsForm, HasNoForm, kind_word};

use command_line::{Words, decimal_id};
use salvage_model::RecordKind;

/// What the words ask for: `KIND SCHEMA FILE`, or `KIND SCHEMA FILE ID`.
#[derive(Clone, Copy, Debug, PartialEq, Eq)]
pub struct Form {
    /// `rows`, `deleted` or `freed`.
    pub kind: RecordKind,
    /// The id of the clustered index, where it is given.
    pub index: Option<u64>,
}

/// What the words ask for; none where they have no form.
pub fn form_of(words: &Words) -> Option<Form>
    ensures { MatchOption result (HasNoForm words.now) (λ form. IsForm words.now form) }
{
    let kind = kind_of(words.get(0)?)?;
    words.get(2)?;
    let Some(id) = words.get(3) else {
        return Some(Form { kind, index: None });
    };
    if words.get(4).is_some() {
        return None;
    }
    let index = Some(decimal_id(id)?);
    Some(Form { kind, index })
}

/// The kind of records that the first word names.
fn kind_of(word: &[u8]) -> Option<RecordKind>
    ensures { MatchOption result ((kind : RecordKind) → word.now ≢ kind_word kind) (λ kind. word.now ≡ kind_word kind) }
{
    match word {
        b"rows" => Some(RecordKind::Live),
        b"deleted" => Some(RecordKind::Deleted),
        b"freed" => Some(RecordKind::Freed),
        _ => None,
    }
}
