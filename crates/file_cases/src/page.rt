//! The command `page`: the rules of one index page, wherever in a tree it is said to stand.

ghost use Rattle.std.specs.Prelude.{◌≡◌, ◌≤◌, length, IfOk};
ghost use Rattle.index_page.specs.Header.{records_of};
ghost use Rattle.index_page.specs.Page.{IsIndexPage};

use crate::report::Report;
use crate::run::Ready;
use case_files::error::LineError;
use case_files::named_files::NamedFiles;
use case_files::plan::Plan;
use case_files::text::put_number;
use case_files::words::{Words, page_number};
use column_values::FieldList;
use index_page::{Scratch, mark_fault, page_fault};
use page_source::{ByteList, NoMemory, Page, Rule};
use schema_text::Schema;
use std::alloc::Global;

/// Room for the fields of every index.
const MEMBERS: u32 = 128;

/// Where in its tree the page stands.
#[derive(Clone, Copy)]
struct Stand {
    leaf: bool,
    root: bool,
    leftmost: bool,
}

impl Stand {
    /// `leaf root first`, or of each the other word.
    fn read(words: &mut Words) -> Result<Stand, LineError> {
        Ok(Stand {
            leaf: is_first_of(words.next()?, "leaf", "node")?,
            root: is_first_of(words.next()?, "root", "child")?,
            leftmost: is_first_of(words.next()?, "first", "later")?,
        })
    }
}

/// Whether the word is the first of the two.
fn is_first_of(word: &str, first: &str, second: &str) -> Result<bool, LineError> {
    if word == first {
        Ok(true)
    } else if word == second {
        Ok(false)
    } else {
        Err(LineError::Word)
    }
}

/// `page BASE P STAND INDEX ITEM ..`.
#[derive(Drop)]
pub struct PageCase<'a> {
    number: u32,
    stand: Stand,
    index: u64,
    plan: Plan<'a>,
}

impl<'a> PageCase<'a> {
    pub fn read(alloc: Global, words: &mut Words<'a>) -> Result<PageCase<'a>, LineError> {
        let mut plan = Plan::of(alloc, words.next()?);
        let number = page_number(words.next()?)?;
        let stand = Stand::read(words)?;
        let index = words.number()?;
        plan.read_items(alloc, words)?;
        words.end()?;
        Ok(PageCase {
            number,
            stand,
            index,
            plan,
        })
    }

    pub fn run(
        &self,
        alloc: Global,
        files: &NamedFiles,
        answer: &str,
        report: &mut Report,
    ) -> Result<(), LineError> {
        let ready = Ready::new(alloc, files, &self.plan)?;
        let fields = fields_of(alloc, ready.schema(), self.index, self.stand.leaf)?;
        let fault = self.fault(alloc, &ready, &fields)?;
        let came = answer_of(alloc, fault)?;
        report.compare(b"", answer.as_bytes(), came.bytes())
    }

    /// The first broken rule of the page in this file, if its records have these fields.
    fn fault(
        &self,
        alloc: Global,
        ready: &Ready<'_>,
        fields: &FieldList,
    ) -> Result<Option<Rule>, LineError>
        requires few { fields.now.keys ≤ length fields.now.fields }
        requires room { length fields.now.fields ≤ MEMBERS }
    {
        let mut page = Page::zeroed(alloc)?;
        if !ready.image().fill(&mut page, self.number) {
            return Err(LineError::Place);
        }
        let mut scratch = Scratch::new(alloc, MEMBERS)?;
        Ok(first_fault(&mut scratch, &page, fields, self.stand))
    }
}

/// The fields of the records of an index on a level.
fn fields_of(alloc: Global, text: &[u8], index: u64, leaf: bool) -> Result<FieldList, LineError>
    ensures few { IfOk result (λ fields. fields.keys ≤ length fields.fields) }
    ensures room { IfOk result (λ fields. length fields.fields ≤ MEMBERS) }
{
    let schema = Schema::read(alloc, text).map_err(|_| LineError::Name)?;
    let index = usize::try_from(index).map_err(|_| LineError::Number)?;
    if index >= schema.indexes().len() {
        return Err(LineError::Number);
    }
    let fields = schema.fields(alloc, index, leaf)?;
    if fields.fields().len() > MEMBERS as usize || fields.keys() as usize > fields.fields().len() {
        return Err(LineError::Number);
    }
    Ok(fields)
}

/// The first broken rule of the page, that on the mark of the least key last.
fn first_fault(scratch: &mut Scratch, page: &Page, fields: &FieldList, stand: Stand) -> Option<Rule>
    requires few { fields.now.keys ≤ length fields.now.fields }
    requires room { length fields.now.fields ≤ scratch.old }
{
    match page_fault(
        scratch,
        page,
        fields,
        stand.leaf,
        stand.root,
        stand.leftmost,
    ) {
        Some(rule) => Some(rule),
        None if mark_fault(page, stand.leaf, stand.leftmost) => Some(Rule::MinimumMark),
        None => None,
    }
}

/// `whole`, or the rule.
fn answer_of(alloc: Global, fault: Option<Rule>) -> Result<ByteList, NoMemory> {
    let mut came = ByteList::new(alloc);
    match fault {
        None => came.extend(b"whole")?,
        Some(rule) => {
            came.extend(b"broken ")?;
            put_number(&mut came, u64::from(rule.number()))?;
            came.extend(b" ")?;
            came.extend(rule.name().as_bytes())?;
        }
    }
    Ok(came)
}
