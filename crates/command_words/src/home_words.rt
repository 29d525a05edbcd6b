//! Reads the words of a run that takes its classes from files over a home, and those of the making of a home.
ghost use Rattle.std.specs.Prelude.{◌≡◌, ◌<◌, ◌==◌, cond, length, codes, IfOk, IfSome, MatchOption, None, map};
ghost use Rattle.std.specs.List.{list_all};
ghost use Rattle.std.specs.Option.{option_copied, option_map};
ghost use Rattle.std.specs.Str.{byte, bytes_eq};
ghost use Rattle.std.specs.String.{string_bytes};
ghost use Rattle.command_words.specs.Words.{is_piece};
ghost use Rattle.command_words.specs.HomeWords.{pieces_of, folders_of, path_option, folder_path, home_option, loaded_list_option, off_option, defaults, with_option, with_path_option, home_options_from, is_dashed, slashed, main_name, uses_archive, home_run_of, home_run_with, home_run_request, make_home_request};
ghost use Rattle.command_words.specs.Requests.{home_view, home_options_view, home_left_view};

use crate::requests::{HomeRun, MAX_FOLDERS, STEPS};
use crate::words::{archive_option, archive_path, behind, is_piece, owned, steps_option};
use jsa_names::modified;
use std::alloc::{AllocError, Global};

// What the options so far ask for. The class path is one of folders.
#[derive(Clone, Copy)]
struct HomeOptions<'a> {
    home: &'a str,
    path: &'a str,
    list: Option<&'a str>,
    steps: u64,
    archive: Option<&'a str>,
    off: bool,
}

// Whether each piece of the class path is a folder.
fn has_folders(path: &str) -> bool
    ensures { result ≡ list_all is_piece (pieces_of path.now) }
{
    if path.is_empty() {
        return true;
    }
    path.split(':').all(|piece| is_piece(piece))
}

// How many pieces the class path has.
fn count_pieces(path: &str) -> usize
    ensures { result ≡ length (pieces_of path.now) }
{
    if path.is_empty() {
        return 0;
    }
    path.split(':').count()
}

// The class path, where it is one of folders.
fn path_of_folders<'a>(path: &'a str) -> Option<&'a str>
    ensures { option_map (λ p. pieces_of p.now) result ≡ folders_of path.now }
{
    if has_folders(path) && count_pieces(path) <= MAX_FOLDERS {
        Some(path)
    } else {
        None
    }
}

fn path_option<'a>(word: &str, path: &'a str) -> Option<&'a str>
    ensures { option_map (λ p. pieces_of p.now) result ≡ path_option word.now path.now }
{
    if word == "-cp" || word == "-classpath" {
        path_of_folders(path)
    } else {
        None
    }
}

fn folder_path<'a>(folder: &'a str) -> Option<&'a str>
    ensures { option_copied result ≡ folder_path folder.now }
{
    if folder.is_empty() {
        None
    } else {
        Some(folder)
    }
}

fn home_option<'a>(word: &'a str) -> Option<&'a str>
    ensures { option_copied result ≡ home_option word.now }
{
    match behind("--home=", word) {
        Some(folder) => folder_path(folder),
        None => None,
    }
}

fn loaded_list_option<'a>(word: &'a str) -> Option<&'a str>
    ensures { option_copied result ≡ loaded_list_option word.now }
{
    match behind("-XX:DumpLoadedClassList=", word) {
        Some(path) => archive_path(path),
        None => None,
    }
}

// Whether the option asks that no archive be used.
fn off_option(word: &str) -> Option<bool>
    ensures { result ≡ off_option word.now }
{
    if word == "-Xshare:off" {
        Some(true)
    } else if word == "-Xshare:auto" || word == "-Xshare:on" {
        Some(false)
    } else {
        None
    }
}

// One word more, where it is an option. What it asks for takes the place of what was asked for before.
#[tactic(auto, unfolding(crate::specs::HomeWords::with_option))]
fn with_option<'a>(options: HomeOptions<'a>, word: &'a str) -> Option<HomeOptions<'a>>
    ensures { option_map home_options_view result ≡ with_option (home_options_view options.entry) word.now }
{
    if let Some(home) = home_option(word) {
        return Some(HomeOptions { home, ..options });
    }
    if let Some(list) = loaded_list_option(word) {
        return Some(HomeOptions {
            list: Some(list),
            ..options
        });
    }
    if let Some(steps) = steps_option(word) {
        return Some(HomeOptions { steps, ..options });
    }
    if let Some(archive) = archive_option(word) {
        return Some(HomeOptions {
            archive: Some(archive),
            ..options
        });
    }
    match off_option(word) {
        Some(off) => Some(HomeOptions { off, ..options }),
        None => None,
    }
}

#[tactic(auto, unfolding(crate::specs::HomeWords::with_path_option))]
fn with_path_option<'a>(
    options: HomeOptions<'a>,
    word: &str,
    second: &'a str,
) -> Option<HomeOptions<'a>>
    ensures { option_map home_options_view result ≡ with_path_option (home_options_view options.entry) word.now second.now }
{
    match path_option(word, second) {
        Some(path) => Some(HomeOptions { path, ..options }),
        None => None,
    }
}

// The options behind the first one, where there is one.
#[tactic(auto, unfolding(crate::specs::HomeWords::home_options_from))]
fn behind_home_option<'a>(
    options: HomeOptions<'a>,
    words: &'a [String],
) -> Option<(HomeOptions<'a>, &'a [String])>
    ensures value { MatchOption result
        (home_options_from (home_options_view options.entry) (map string_bytes words.now) ≡ (home_options_view options.entry, map string_bytes words.now))
        (λ left. home_options_from (home_options_view options.entry) (map string_bytes words.now)
        ≡ home_options_from (home_options_view left.0) (map string_bytes left.1.now)) }
    ensures shorter { IfSome result (λ left. length left.1.now < length words.now) }
{
    let [word, others @ ..] = words else {
        return None;
    };
    let [second, more @ ..] = others else {
        return match with_option(options, word.as_str()) {
            Some(next) => Some((next, others)),
            None => None,
        };
    };
    if let Some(next) = with_path_option(options, word.as_str(), second.as_str()) {
        return Some((next, more));
    }
    match with_option(options, word.as_str()) {
        Some(next) => Some((next, others)),
        None => None,
    }
}

// What the options at the front of the words ask for, and the words behind them.
fn home_options<'a>(words: &'a [String]) -> (HomeOptions<'a>, &'a [String])
    ensures { home_left_view result ≡ home_options_from defaults (map string_bytes words.now) }
{
    let mut options = HomeOptions {
        home: "jsa-home",
        path: ".",
        list: None,
        steps: STEPS,
        archive: None,
        off: false,
    };
    let mut rest = words;
    while let Some((next, more)) = behind_home_option(options, rest) {
        options = next;
        rest = more;
    }
    (options, rest)
}

// The folders of the class path, one by one.
fn folders_in(alloc: Global, path: &str) -> Result<Vec<String>, AllocError>
    ensures { IfOk result (λ folders. map string_bytes folders.items ≡ pieces_of path.now) }
{
    let mut folders = Vec::new(alloc);
    if path.is_empty() {
        return Ok(folders);
    }
    for folder in path.split(':') {
        folders.push(String::from_str(alloc, folder)?)?;
    }
    Ok(folders)
}

fn is_dashed(word: &[u8]) -> bool
    ensures { result ≡ is_dashed word.now }
{
    let [first, ..] = word else {
        return false;
    };
    *first == b'-'
}

fn slash_for_dot(b: u8) -> u8
    ensures { result ≡ cond (b == byte ".") (byte "/") b }
{
    if b == b'.' { b'/' } else { b }
}

// The bytes, with a slash for each dot.
fn slashed(alloc: Global, name: &[u8]) -> Result<Vec<u8>, AllocError>
    ensures { IfOk result (λ slashes. slashes.items ≡ slashed name.now) }
{
    name.iter().map(|b| slash_for_dot(*b)).collect(alloc)
}

// The internal name of the main class that the word gives, where it isn't written as an option.
fn main_name(alloc: Global, word: &str) -> Result<Option<Vec<u8>>, AllocError>
    ensures { IfOk result (λ name. option_map (λ v. v.items) name ≡ main_name word.now) }
{
    if is_dashed(word.as_bytes()) {
        return Ok(None);
    }
    let text = modified(alloc, word)?;
    let name = slashed(alloc, text.as_slice())?;
    Ok(Some(name))
}

fn home_run_of(
    alloc: Global,
    options: HomeOptions<'_>,
    name: Vec<u8>,
) -> Result<HomeRun, AllocError>
    ensures { IfOk result (λ run. home_view run ≡ home_run_of (home_options_view options.entry) name.items) }
{
    let home = String::from_str(alloc, options.home)?;
    let folders = folders_in(alloc, options.path)?;
    let list = owned(alloc, options.list)?;
    Ok(HomeRun {
        home,
        folders,
        list,
        steps: options.steps,
        name,
    })
}

// Whether an archive is named and used.
fn uses_archive(options: HomeOptions<'_>) -> bool
    ensures { result ≡ uses_archive (home_options_view options.entry) }
{
    options.archive.is_some() && !options.off
}

// The run of the word that stands behind the options.
fn run_of_main(
    alloc: Global,
    options: HomeOptions<'_>,
    main: &str,
) -> Result<Option<HomeRun>, AllocError>
    ensures { IfOk result (λ run. option_map home_view run ≡ option_map (home_run_of (home_options_view options.entry)) (main_name main.now)) }
{
    let Some(name) = main_name(alloc, main)? else {
        return Ok(None);
    };
    let run = home_run_of(alloc, options, name)?;
    Ok(Some(run))
}

#[tactic(auto, unfolding(crate::specs::HomeWords::home_run_with))]
fn home_run_with(
    alloc: Global,
    options: HomeOptions<'_>,
    words: &[String],
) -> Result<Option<HomeRun>, AllocError>
    ensures { IfOk result (λ run. option_map home_view run ≡ home_run_with (home_options_view options.entry) (map string_bytes words.now)) }
{
    let [main, others @ ..] = words else {
        return Ok(None);
    };
    let [] = others else {
        return Ok(None);
    };
    if uses_archive(options) {
        return Ok(None);
    }
    run_of_main(alloc, options, main.as_str())
}

// What the words of a run over a home ask for.
#[tactic(auto, unfolding(crate::specs::HomeWords::home_run_request))]
pub(crate) fn home_run_words(alloc: Global, words: &[String]) -> Result<Option<HomeRun>, AllocError>
    ensures { IfOk result (λ run. option_map home_view run ≡ home_run_request (map string_bytes words.now)) }
{
    let (options, others) = home_options(words);
    home_run_with(alloc, options, others)
}

// The folder of the home that is made, where the word before it is the option.
fn home_folder(alloc: Global, option: &str, folder: &str) -> Result<Option<String>, AllocError>
    ensures { IfOk result (λ home. option_map string_bytes home ≡ cond (bytes_eq option.now (codes "--make-home")) (folder_path folder.now) None) }
{
    if option != "--make-home" {
        return Ok(None);
    }
    owned(alloc, folder_path(folder))
}

// The folder that the words of the making of a home give.
#[tactic(auto, unfolding(crate::specs::HomeWords::make_home_request))]
pub(crate) fn make_home_words(alloc: Global, words: &[String]) -> Result<Option<String>, AllocError>
    ensures { IfOk result (λ home. option_map string_bytes home ≡ make_home_request (map string_bytes words.now)) }
{
    let [option, others @ ..] = words else {
        return Ok(None);
    };
    let [folder, others @ ..] = others else {
        return Ok(None);
    };
    let [] = others else {
        return Ok(None);
    };
    home_folder(alloc, option.as_str(), folder.as_str())
}
