//! The files and schemas that lines name.

use crate::edit::Frame;
use crate::edited_pages::EditedPages;
use crate::error::LineError;
use crate::plan::{Plan, Size};
use fil_frame::SumKind;
use page_source::{ByteList, NoMemory, PAGE_SIZE};
use std::alloc::Global;
use std::collections::BTreeMap;
use vectors::{Which, file, schema};

/// The files of the crate `vectors`, and their names.
const KNOWN: [(&str, Which); 8] = [
    ("A", Which::A),
    ("B", Which::B),
    ("BF", Which::BF),
    ("C", Which::C),
    ("D", Which::D),
    ("E", Which::E),
    ("G", Which::G),
    ("L", Which::L),
];

/// A file that lines name.
#[derive(Drop)]
pub struct Base {
    /// The pages of the file that aren't zeros.
    pub pages: EditedPages,
    /// How many bytes the file has.
    pub size: u64,
    /// The schema text of the file's table.
    pub schema: ByteList,
}

impl Base {
    /// One of the files of `vectors`.
    fn known(alloc: Global, which: Which) -> Result<Base, NoMemory> {
        let bytes = file(alloc, which)?;
        Ok(Base {
            pages: EditedPages::of_file(alloc, bytes.bytes())?,
            size: bytes.bytes().len() as u64,
            schema: copied(alloc, schema(which).as_bytes())?,
        })
    }

    /// How many bytes the file has after a change of its size.
    pub fn resized(&self, size: Size) -> u64 {
        match size {
            Size::AsIs => self.size,
            Size::Pages(pages) => pages.saturating_mul(PAGE_SIZE as u64),
            Size::Cut(bytes) => bytes.min(self.size),
            Size::More(bytes) => self.size.saturating_add(bytes),
        }
    }
}

/// A list with these bytes.
pub fn copied(alloc: Global, bytes: &[u8]) -> Result<ByteList, NoMemory> {
    let mut list = ByteList::new(alloc);
    list.extend(bytes)?;
    Ok(list)
}

/// The files and schemas that lines name.
#[derive(Drop)]
pub struct NamedFiles {
    files: BTreeMap<String, Base>,
    schemas: BTreeMap<String, ByteList>,
}

impl NamedFiles {
    /// The files of `vectors`.
    pub fn new(alloc: Global) -> Result<NamedFiles, LineError> {
        let mut files = NamedFiles {
            files: BTreeMap::new(alloc),
            schemas: BTreeMap::new(alloc),
        };
        for (name, which) in KNOWN {
            let base = Base::known(alloc, which)?;
            let text = copied(alloc, base.schema.bytes())?;
            files.put_schema(alloc, name, text)?;
            files.put_file(alloc, name, base)?;
        }
        Ok(files)
    }

    /// The file with this name.
    pub fn file(&self, name: &str) -> Result<&Base, LineError> {
        self.files.get(name).ok_or(LineError::Name)
    }

    /// The text of the schema with this name.
    pub fn schema(&self, name: &str) -> Result<&[u8], LineError> {
        let text = self.schemas.get(name).ok_or(LineError::Name)?;
        Ok(text.bytes())
    }

    /// The schema text of the table of a file: that which the line names, or the file's own.
    pub fn schema_of(&self, plan: &Plan) -> Result<&[u8], LineError> {
        match plan.schema {
            Some(name) => self.schema(name),
            None => Ok(self.file(plan.base)?.schema.bytes()),
        }
    }

    /// Gives a file this name, which names no other then.
    pub fn put_file(&mut self, alloc: Global, name: &str, base: Base) -> Result<(), LineError> {
        let name = String::from_str(alloc, name)?;
        self.files.insert(name, base)?;
        Ok(())
    }

    /// Gives a schema text this name, which names no other then.
    pub fn put_schema(
        &mut self,
        alloc: Global,
        name: &str,
        text: ByteList,
    ) -> Result<(), LineError> {
        let name = String::from_str(alloc, name)?;
        self.schemas.insert(name, text)?;
        Ok(())
    }

    /// The file that the plan makes.
    pub fn made(&self, alloc: Global, plan: &Plan) -> Result<Base, LineError> {
        let base = self.file(plan.base)?;
        let mut pages = EditedPages::new(alloc);
        pages.put_all(alloc, &base.pages)?;
        pages.put_all(alloc, &edited(alloc, &base.pages, plan)?)?;
        Ok(Base {
            pages,
            size: base.resized(plan.size),
            schema: copied(alloc, self.schema_of(plan)?)?,
        })
    }
}

/// The pages that the plan edits, sealed.
pub fn edited(alloc: Global, under: &EditedPages, plan: &Plan) -> Result<EditedPages, LineError> {
    let mut over = EditedPages::new(alloc);
    for edit in &plan.edits {
        over.edit(alloc, under, edit)?;
    }
    over.seal(Frame::Sums(SumKind::Crc32));
    Ok(over)
}
