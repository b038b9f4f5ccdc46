//! The forms that the words of the command line may have.

ghost use Rattle.std.specs.Prelude.{MatchOption, ℕ};
ghost use Rattle.ibd_carve.specs.Forms.{IsForm, HasNoForm, IsSpaceWord};

use command_line::{Words, decimal_id};

/// What the words ask for.
#[derive(Clone, Copy, Debug, PartialEq, Eq)]
pub enum Form {
    /// `list IMAGE`.
    ListImage,
    /// `take SPACE IMAGE FILE`, with this space id.
    TakeSpace(u32),
}

/// What the words ask for; none if they have no form. The file that is made has another name than the image, which is
/// read while it is written.
pub fn form_of(words: &Words) -> Option<Form>
    ensures { MatchOption result (HasNoForm words.now) (IsForm words.now) }
{
    if words.is_command("list", 2) {
        return Some(Form::ListImage);
    }
    if !words.is_command("take", 4) || words.get(2)? == words.get(3)? {
        return None;
    }
    Some(Form::TakeSpace(space_id(words.get(1)?)?))
}

/// The space id that the word spells; none for any other word.
fn space_id(word: &[u8]) -> Option<u32>
    ensures { MatchOption result ((space : ℕ) → ¬ (IsSpaceWord word.now space)) (IsSpaceWord word.now) }
{
    let id = u32::try_from(decimal_id(word)?).ok()?;
    if id == 0 {
        return None;
    }
    Some(id)
}
