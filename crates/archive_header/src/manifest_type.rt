//! The manifest of an archive: which class files there were in which folders.
ghost use Rattle.std.specs.Prelude.{◌≡◌, IfOk, IsTrue, List, ℕ, Some, length, ◌<◌, ◌^◌, ◌++◌, OnOk};
ghost use Rattle.std.specs.Option.{option_copied, IfSome};
ghost use Rattle.std.specs.Cmp.Lexicographic.{slice_cmp};
ghost use Rattle.std.specs.Ordering.{nat_cmp};
ghost use Rattle.std.specs.Str.{is_utf8};
ghost use Rattle.archive_header.specs.declared.folders.Folders.{Folders};
ghost use Rattle.archive_header.specs.Folders as lists;
ghost use Rattle.archive_header.specs.ManifestBytes as spec;

use crate::folders::{Folder, Folders, ListedFile, folder_of};
use crate::manifest_reading::{Unread, whole_manifest};
use crate::manifest_writing::{have_short_texts, push_folders, push_padding};
use loader_rules::Loader;
use sqlite_items::at;
use std::alloc::{AllocError, Global};
use std::cmp::Ordering;
use std::marker::Model;

/// The folders in which classes are looked for, and for each its path and the ascending list of the names of its class
/// files, with their sizes and digests.
///
/// Contracts see it as these folders. Folders have the numbers 0 for boot, 1 for platform, and for application those
/// from 2 on; a file has its place in the folder's list.
#[derive(Debug, Drop)]
pub struct Manifest {
    folders: Folders,
}

impl Model for Manifest {
    ghost use Rattle.std.specs.Prelude.{IsTrue};
    ghost use Rattle.archive_header.specs.declared.folders.Folders.{Folders};
    ghost use Rattle.archive_header.specs.Folders.{are_folders};

    ghost Value = { Folders };

    ghost view = { λ m. m.folders };

    ghost invariant = { λ m. IsTrue (are_folders m.folders) };
}

fn as_text(bytes: &[u8]) -> &str
    requires { IsTrue (is_utf8 bytes.now) }
    ensures { result.now ≡ bytes.now }
{
    match std::str::from_utf8(bytes) {
        Ok(text) => text,
        Err(_) => unreachable!(),
    }
}

fn compared(file: &ListedFile, name: &[u8]) -> Ordering
    ensures { result ≡ slice_cmp nat_cmp file.now.name name.now }
{
    file.name.as_slice().cmp(name)
}

fn place_of(files: &[ListedFile], name: &[u8]) -> Option<usize>
    requires { IsTrue (lists.ascends files.now) }
    ensures place { lists.IsPlaceIn files.now name.now result }
    ensures within { IfSome result (λ place. place < length files.now) }
{
    files.binary_search_by(|file| compared(file, name)).ok()
}

fn loader_at(folder: u32) -> Loader
    ensures { result ≡ lists.loader_at folder }
{
    if folder == 0 {
        return Loader::Boot;
    }
    if folder == 1 {
        return Loader::Platform;
    }
    Loader::App
}

impl Manifest {
    /// A manifest of these folders.
    pub fn new(folders: Folders) -> Manifest
        requires { IsTrue (lists.are_folders folders) }
        ensures { result ≡ folders }
    {
        Manifest { folders }
    }

    /// The folders.
    pub fn folders(&self) -> &Folders
        ensures folders { result.now ≡ self.now }
        ensures listed { IsTrue (lists.are_folders self.now) }
    {
        &self.folders
    }

    /// Whether each path and each name has fewer than 2^32 bytes, so that the manifest can be written.
    pub fn has_short_texts(&self) -> bool
        ensures { result ≡ spec.have_short_texts self.now }
    {
        have_short_texts(&self.folders)
    }

    // The folder of a number, whose texts are UTF-8.
    fn folder(&self, number: u32) -> Option<&Folder>
        ensures value { option_copied result ≡ lists.folder_of self.now number }
        ensures listed { IfSome result (λ folder. IsTrue (lists.is_folder folder.now)) }
    {
        folder_of(&self.folders, number)
    }

    /// The loader whose folder has this number. `None` exactly where there is no such folder.
    pub fn loader_of(&self, folder: u32) -> Option<Loader>
        ensures { result ≡ lists.loader_of self.now folder }
    {
        match self.folder(folder) {
            Some(_) => Some(loader_at(folder)),
            None => None,
        }
    }

    /// The path of the folder of a number, as it was written. `None` exactly where there is no such folder.
    pub fn path(&self, folder: u32) -> Option<&str>
        ensures { option_copied result ≡ lists.path_of self.now folder }
    {
        match self.folder(folder) {
            Some(folder) => Some(as_text(folder.path.as_slice())),
            None => None,
        }
    }

    /// The name at a place of a folder's list. `None` exactly where there is no such folder or place.
    pub fn file(&self, folder: u32, entry: u32) -> Option<&str>
        ensures { option_copied result ≡ lists.name_of self.now folder entry }
    {
        let Some(folder) = self.folder(folder) else {
            return None;
        };
        match at(folder.files.as_slice(), entry as usize) {
            Some(file) => Some(as_text(file.name.as_slice())),
            None => None,
        }
    }

    /// The place of a name in a folder's list. `None` exactly where there is no such folder, or the name isn't in its
    /// list.
    pub fn entry_of(&self, folder: u32, file: &str) -> Option<u32>
        ensures { lists.IsPlaceOf self.now folder file.now result }
    {
        let Some(folder) = self.folder(folder) else {
            return None;
        };
        match place_of(folder.files.as_slice(), file.as_bytes()) {
            Some(place) => Some(place as u32),
            None => None,
        }
    }
}

/// The bytes of a manifest whose paths and names have fewer than 2^32 bytes each. `read_manifest` reads them as this
/// manifest again.
#[tactic(auto, unfolding(crate::specs::ManifestBytes::manifest_bytes))]
pub fn write_manifest(alloc: Global, manifest: &Manifest) -> Result<Vec<u8>, AllocError>
    requires { IsTrue (spec.have_short_texts manifest.now) }
    ensures { IfOk result (λ bytes. spec.SpellsManifest bytes.items manifest.now) }
{
    let mut bytes = Vec::new(alloc);
    push_folders(&mut bytes, manifest.folders())?;
    push_padding(&mut bytes)?;
    Ok(bytes)
}

/// The manifest whose bytes these are. `None` exactly where they are those of none: where they are cut, there are two
/// boot or platform folders or 2^32 - 1 application folders, a path or a name isn't UTF-8, the names of a folder don't
/// ascend strictly by their bytes, or anything but the zeros to a multiple of 8 stands behind the last folder.
pub fn read_manifest(alloc: Global, bytes: &[u8]) -> Result<Option<Manifest>, AllocError>
    // What is read is written so.
    ensures found { IfOk result (λ read. IfSome read (λ manifest. spec.SpellsManifest bytes.now manifest)) }
    // What is written so is read, unless memory runs out.
    ensures only { (folders : Folders) → spec.SpellsManifest bytes.now folders → IfOk result (λ read. read ≡ Some folders) }
{
    match whole_manifest(alloc, bytes) {
        Ok(folders) => Ok(Some(Manifest::new(folders))),
        Err(Unread::NotManifest) => Ok(None),
        Err(Unread::Memory) => Err(AllocError),
    }
}

/// Bytes are those of one manifest at most. This does nothing: its contract is a fact for callers.
pub fn one_manifest()
    ensures { spec.OneManifest }
{}
