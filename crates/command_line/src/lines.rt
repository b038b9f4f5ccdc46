//! The lines that refuse what a program was given.

ghost use Rattle.std.specs.Prelude.{◌≡◌};
ghost use Rattle.page_source.specs.Calls.{Puts};
ghost use Rattle.command_line.specs.Lines.{refusal_line, fault_line, why_word};

use itoa::Buffer;
use page_source::{ByteSink, Failed, Fault, put_pieces};
use schema_text::SchemaWhy;

/// Puts the line of a text that is refused at one of its lines, and why.
pub fn put_refusal<E: ByteSink>(err: &mut E, text: &str, line: u32, why: &str) -> Result<(), Failed>
    ensures { Puts E.ByteSink err.old err.new (refusal_line text.now line why.now) result }
{
    let mut digits = Buffer::new();
    let pieces = [
        text.as_bytes(),
        digits.format(line).as_bytes(),
        b" ",
        why.as_bytes(),
        b"\n",
    ];
    put_pieces(err, &pieces)
}

/// Puts the line of a rule that is broken, and the page that it names.
pub fn put_fault<E: ByteSink>(err: &mut E, fault: Fault) -> Result<(), Failed>
    ensures { Puts E.ByteSink err.old err.new (fault_line fault) result }
{
    let mut rule = Buffer::new();
    let mut page = Buffer::new();
    let pieces = [
        b"broken ".as_slice(),
        rule.format(fault.rule.number()).as_bytes(),
        b" ",
        fault.rule.name().as_bytes(),
        b" page ",
        page.format(fault.page).as_bytes(),
        b"\n",
    ];
    put_pieces(err, &pieces)
}

/// The word for why a line of a schema text is refused.
pub fn why_name(why: SchemaWhy) -> &'static str
    ensures { result.now ≡ why_word why }
{
    match why {
        SchemaWhy::Size => "size",
        SchemaWhy::End => "end",
        SchemaWhy::Form => "form",
        SchemaWhy::Name => "name",
        SchemaWhy::Number => "number",
        SchemaWhy::Count => "count",
        SchemaWhy::Twice => "twice",
        SchemaWhy::Unknown => "unknown",
        SchemaWhy::Key => "key",
        SchemaWhy::Root => "root",
    }
}
