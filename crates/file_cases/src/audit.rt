//! The command `audit`: what is known of the pages of a file that keeps the rules 1 to 26.

ghost use Rattle.std.specs.Prelude.{◌≡◌, ◌<◌};

use crate::outcome::End;
use crate::report::Report;
use crate::run::Ready;
use case_files::error::LineError;
use case_files::named_files::NamedFiles;
use case_files::pages::CasePages;
use case_files::plan::Plan;
use case_files::text::put_number;
use case_files::words::{Words, page_number};
use page_source::{ByteList, NoMemory, Steps, Stop};
use schema_text::Schema;
use space_audit::{Owner, Space, audit};
use space_header::Address;
use std::alloc::Global;
use std::marker::Brand;
use std::sync::ledger::{Blank, Ledger};

/// What is asked of the file besides the owners of its pages.
#[derive(Clone, Copy)]
enum Question {
    /// The segment whose inode stands at this address.
    At(Address),
    /// The type of this page.
    Type(u32),
}

/// `audit BASE ITEM .. [at P:O ..] [type P ..]`.
#[derive(Drop)]
pub struct AuditCase<'a> {
    plan: Plan<'a>,
    questions: Vec<Question>,
}

impl<'a> AuditCase<'a> {
    pub fn read(alloc: Global, words: &mut Words<'a>) -> Result<AuditCase<'a>, LineError> {
        let plan = Plan::read(alloc, words)?;
        let mut questions = Vec::new(alloc);
        for _ in 0..words.left() {
            if words.left() > 0 {
                questions.push(read_question(words)?)?;
            }
        }
        Ok(AuditCase { plan, questions })
    }

    pub fn run(
        &self,
        alloc: Global,
        files: &NamedFiles,
        answer: &str,
        report: &mut Report,
    ) -> Result<(), LineError> {
        let ready = Ready::new(alloc, files, &self.plan)?;
        let mut came = ByteList::new(alloc);
        match audit_of(alloc, &ready) {
            Ok(space) => {
                put_space(&mut came, &space)?;
                for question in &self.questions {
                    put_reply(&mut came, &space, *question)?;
                }
            }
            Err(end) => end.put(&mut came)?,
        }
        report.compare(b"", answer.as_bytes(), came.bytes())
    }
}

/// `at P:O` or `type P`.
fn read_question(words: &mut Words) -> Result<Question, LineError> {
    match words.next()? {
        "at" => {
            let (page, offset) = words.next()?.split_once(':').ok_or(LineError::Word)?;
            let page = page_number(page)?;
            let offset = offset.parse::<u16>().map_err(|_| LineError::Number)?;
            Ok(Question::At(Address { page, offset }))
        }
        "type" => Ok(Question::Type(page_number(words.next()?)?)),
        _ => Err(LineError::Word),
    }
}

/// What is known of the file, by the flags of its schema.
fn audit_of(alloc: Global, ready: &Ready<'_>) -> Result<Space, End> {
    let schema = Schema::read(alloc, ready.schema())?;
    let mut file = CasePages::new(alloc, ready.image());
    let flags = schema.flags();
    Ok(counted::<Brand>(alloc, &mut file, flags, Blank::new(1))?)
}

fn counted<L: Ledger>(
    alloc: Global,
    file: &mut CasePages<'_>,
    flags: u32,
    blank: Blank,
) -> Result<Space, Stop>
    requires name { blank.name ≡ L.name }
    requires parts { blank.parts ≡ L.parts }
    requires shared { 0 < blank.parts }
{
    audit(alloc, file, flags, &mut Steps::<L>::new(blank))
}

/// Adds the numbers of the space, and the owners of its pages.
fn put_space(text: &mut ByteList, space: &Space) -> Result<(), NoMemory> {
    text.extend(b"pages=")?;
    put_number(text, u64::from(space.size()))?;
    text.extend(b" used=")?;
    put_number(text, u64::from(space.used_pages()))?;
    text.extend(b" space=")?;
    put_number(text, u64::from(space.space_id()))?;
    text.extend(b" segments=")?;
    put_number(text, u64::from(space.segment_count()))?;
    text.extend(b"; ")?;
    put_owners(text, space)
}

/// Adds the owners, in ranges of pages that have the same.
fn put_owners(text: &mut ByteList, space: &Space) -> Result<(), NoMemory> {
    let mut first = 0;
    for n in 0..space.size() {
        let owner = owner_at(space, n);
        if owner_at(space, n.saturating_add(1)) != owner {
            if first > 0 {
                text.extend(b", ")?;
            }
            put_range(text, first, n)?;
            put_owner(text, owner)?;
            first = n.saturating_add(1);
        }
    }
    Ok(())
}

/// The owner of a page, if it is below the size.
fn owner_at(space: &Space, n: u32) -> Option<Owner> {
    if n < space.size() {
        Some(space.owner(n))
    } else {
        None
    }
}

/// Adds `3-7`, or `3` alone.
fn put_range(text: &mut ByteList, first: u32, last: u32) -> Result<(), NoMemory> {
    put_number(text, u64::from(first))?;
    if first != last {
        text.extend(b"-")?;
        put_number(text, u64::from(last))?;
    }
    Ok(())
}

/// Adds the owner behind a space.
fn put_owner(text: &mut ByteList, owner: Option<Owner>) -> Result<(), NoMemory> {
    let (word, segment) = match owner {
        None => (" none", None),
        Some(Owner::System) => (" system", None),
        Some(Owner::InodePage) => (" inodes", None),
        Some(Owner::Used(segment)) => (" segment ", Some(segment)),
        Some(Owner::Spare(segment)) => (" spare ", Some(segment)),
        Some(Owner::FragmentFree) => (" fragment", None),
        Some(Owner::FreeExtent) => (" extent", None),
        Some(Owner::Beyond) => (" beyond", None),
    };
    text.extend(word.as_bytes())?;
    match segment {
        Some(segment) => put_number(text, u64::from(segment)),
        None => Ok(()),
    }
}

/// Adds the question and its reply.
fn put_reply(text: &mut ByteList, space: &Space, question: Question) -> Result<(), NoMemory> {
    match question {
        Question::At(address) => {
            text.extend(b"; at ")?;
            put_number(text, u64::from(address.page))?;
            text.extend(b":")?;
            put_number(text, u64::from(address.offset))?;
            put_owner(text, space.segment_at(address).map(Owner::Used))
        }
        Question::Type(page) => {
            text.extend(b"; type ")?;
            put_number(text, u64::from(page))?;
            text.extend(b" ")?;
            if page >= space.size() {
                return text.extend(b"none");
            }
            put_number(text, u64::from(space.kind(page)))
        }
    }
}
