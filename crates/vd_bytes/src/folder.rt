//! Files in memory, of which one may be open.

ghost use Rattle.std.specs.Prelude.{◌≡◌, if◌then◌else◌, min, unwrap_or, ℕ, ◌<◌, ◌≤◌, ◌↔◌, [], length, drop, option_map, is_some, IfOk, IfSome, IsTrue, vec_len};
ghost use Rattle.vd_bytes.specs.Trays.{content_of, has_file, TakesFront};
ghost use Rattle.vd_bytes.specs.Folder.{paired, files_from, told_of, content_at, name_at, after_open, after_close, after_taking};

use std::alloc::{AllocError, Global};
use std::marker::Model;

/// A file in memory.
#[derive(Debug, Drop)]
pub struct NamedFile {
    pub name: String,
    pub content: Vec<u8>,
}

/// Which file is open, by its number, and how many of its bytes were read. A number past the last
/// file stands for an empty file.
#[derive(Clone, Copy, Debug)]
pub struct Position {
    pub file: usize,
    pub taken: usize,
}

/// Named files, of which one may be open.
#[derive(Debug, Drop)]
pub struct Folder {
    files: Vec<NamedFile>,
    place: Option<Position>,
}

impl Model for Folder {
    ghost use Rattle.vd_bytes.specs.Folder.{Files, files_of};

    ghost Value = { Files };

    ghost view = { λ a. files_of a.files.items a.place };
}

impl Folder {
    /// A folder of these files, none of them open.
    pub fn new(
        alloc: Global,
        names: Vec<String>,
        contents: Vec<Vec<u8>>,
    ) -> Result<Folder, AllocError>
        requires { vec_len names ≡ vec_len contents }
        ensures told { IfOk result (λ folder. folder.told ≡ paired names.items contents.items) }
        ensures none_open { IfOk result (λ folder. folder ≡ after_close folder) }
    {
        let files = named_files(alloc, names, contents)?;
        Ok(Folder { files, place: None })
    }

    /// Opens the first file of that name, and says whether there is one. Else what is open is an
    /// empty file. The names are compared one by one, which is meant for a handful of files.
    pub fn open(&mut self, name: &str) -> bool
        ensures found { result ≡ has_file self.old.told name.now }
        ensures after { self.new ≡ after_open self.old name.now }
    {
        let file = find(&self.files, name);
        self.place = Some(Position { file, taken: 0 });
        file < self.files.len()
    }

    /// Closes the file that is open.
    pub fn close(&mut self)
        ensures { self.new ≡ after_close self.old }
    {
        self.place = None;
    }

    /// Whether a file is open.
    pub fn is_open(&self) -> bool
        ensures { result ≡ is_some self.now.left }
    {
        self.place.is_some()
    }

    /// Takes up to that many bytes off the front of what is left, and answers how many.
    pub fn read(&mut self, into: &mut [u8], most: usize) -> usize
        ensures count { result
            ≡ min (min (length (unwrap_or self.old.left [])) (length into.new)) most }
        ensures buffer { IfSome self.old.left (λ left. TakesFront result left into.old into.new) }
        ensures after { self.new ≡ after_taking result self.old }
    {
        let Some(place) = self.place else {
            return 0;
        };
        let content = content(&self.files, place.file);
        let left = content.get(place.taken..).unwrap_or(&[]);
        let n = left.len().min(into.len()).min(most);
        into[..n].copy_from_slice(&left[..n]);
        self.place = Some(Position {
            file: place.file,
            taken: place.taken + n,
        });
        n
    }
}

/// The files of these names and contents.
fn named_files(
    alloc: Global,
    names: Vec<String>,
    contents: Vec<Vec<u8>>,
) -> Result<Vec<NamedFile>, AllocError>
    ensures { IfOk result (λ files. files.items ≡ files_from names.items contents.items) }
{
    names
        .into_iter()
        .zip(contents)
        .map(|(name, content)| NamedFile { name, content })
        .collect(alloc)
}

/// The number of the first file of that name, or how many files there are.
fn find(files: &[NamedFile], name: &str) -> usize
    ensures content { content_at files.now result ≡ content_of (told_of files.now) name.now }
    ensures found { (result < length files.now) ↔ IsTrue (has_file (told_of files.now) name.now) }
    ensures name { name_at files.now result
        ≡ (if has_file (told_of files.now) name.now then Some name.now else None) }
{
    for (i, file) in files.iter().enumerate() {
        if file.name.as_str() == name {
            return i;
        }
    }
    files.len()
}

/// The bytes of the file of that number, and none past the last file.
fn content(files: &[NamedFile], file: usize) -> &[u8]
    ensures { result.now ≡ content_at files.now file }
{
    match files.get(file) {
        Some(named) => named.content.as_slice(),
        None => &[],
    }
}
