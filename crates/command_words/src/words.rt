//! Reads the words of a run with an archive, of a dump and of an assembly, and all words.
ghost use Rattle.std.specs.Prelude.{◌≡◌, ◌≤◌, ◌<◌, ◌==◌, ◌++◌, cond, length, codes, IfOk, OnOk, IfSome, MatchOption, true, map};
ghost use Rattle.std.specs.Char.{is_digit};
ghost use Rattle.std.specs.List.{list_all, join_with_byte};
ghost use Rattle.std.specs.Option.{option_copied, option_map};
ghost use Rattle.std.specs.Str.{byte};
ghost use Rattle.std.specs.String.{string_bytes};
ghost use Rattle.command_words.specs.Words.{is_numeral, numeral, behind, number_of, steps_option, archive_path, archive_option, list_option, sharing_option, folder_option, once, with_folder, with_archive, with_list, with_steps, with_sharing, with_word, with_words, options_from, nothing, is_on, is_dump, run_with, dump_with, ends_in, has_no_colon, is_piece, is_folder, is_archive_path, is_word_byte, is_segment, segments_of, internal_name, class_path};
ghost use Rattle.command_words.specs.Grammar.{request_with, request_by_options, asm_of, asm_request, request_of, Run, Dump};
ghost use Rattle.command_words.specs.Requests.{command_view, run_view, dump_view, asm_view, is_on_share, taken_view, left_view};

use crate::home_words::{home_run_words, make_home_words};
use crate::requests::{AsmWords, Command, DumpWords, RunWords, STEPS, Share};
use std::alloc::{AllocError, Global};

// What -Xshare says of a run with an archive, or of a dump.
#[derive(Clone, Copy)]
enum Sharing {
    Auto,
    On,
    Dump,
}

// What the options so far ask for.
#[derive(Clone, Copy)]
struct Taken<'a> {
    folder: Option<&'a str>,
    archive: Option<&'a str>,
    list: Option<&'a str>,
    steps: Option<u64>,
    sharing: Option<Sharing>,
}

fn ends_in(end: &[u8], bytes: &[u8]) -> bool
    ensures { result ≡ ends_in end.now bytes.now }
{
    bytes.ends_with(end)
}

fn has_no_colon(bytes: &[u8]) -> bool
    ensures { result ≡ has_no_colon bytes.now }
{
    bytes.iter().all(|b| *b != b':')
}

// Whether it can be a folder of a class path.
pub(crate) fn is_piece(piece: &str) -> bool
    ensures { result ≡ is_piece piece.now }
{
    !piece.is_empty()
        && piece != "*"
        && !ends_in(b".jar", piece.as_bytes())
        && !ends_in(b".zip", piece.as_bytes())
}

fn is_folder(word: &str) -> bool
    ensures { result ≡ is_folder word.now }
{
    is_piece(word) && has_no_colon(word.as_bytes())
}

fn is_archive_path(path: &str) -> bool
    ensures { result ≡ is_archive_path path.now }
{
    !path.is_empty() && has_no_colon(path.as_bytes()) && !ends_in(b".class", path.as_bytes())
}

#[tactic(auto, unfolding(crate::specs::Words::is_word_byte))]
fn is_word_byte(b: u8) -> bool
    ensures { result ≡ is_word_byte b }
{
    b.is_ascii_alphanumeric() || b == b'_' || b == b'$'
}

fn has_word_bytes(bytes: &[u8]) -> bool
    ensures { result ≡ list_all is_word_byte bytes.now }
{
    bytes.iter().all(|b| is_word_byte(*b))
}

fn is_segment(bytes: &[u8]) -> bool
    ensures { result ≡ is_segment bytes.now }
{
    !bytes.is_empty() && has_word_bytes(bytes)
}

fn has_segments(word: &str) -> bool
    ensures { result ≡ list_all is_segment (segments_of word.now) }
{
    word.split('.')
        .all(|segment| is_segment(segment.as_bytes()))
}

// Adds a segment to a name.
fn push_segment(name: &mut String, segment: &str) -> Result<(), AllocError>
    ensures { OnOk result (string_bytes name.new
        ≡ cond (length (string_bytes name.old) == 0) segment.now (string_bytes name.old ++ codes "/" ++ segment.now)) }
{
    if !name.is_empty() {
        name.push_str("/")?;
    }
    name.push_str(segment)
}

// The segments in a row, with a slash between each two.
fn slashed(alloc: Global, word: &str) -> Result<String, AllocError>
    requires { list_all is_segment (segments_of word.now) ≡ true }
    ensures { IfOk result (λ name. string_bytes name ≡ join_with_byte (byte "/") (segments_of word.now)) }
{
    let mut name = String::new(alloc);
    for segment in word.split('.') {
        push_segment(&mut name, segment)?;
    }
    Ok(name)
}

// The internal name that the word gives, where it is one of a class.
fn internal_name(alloc: Global, word: &str) -> Result<Option<String>, AllocError>
    ensures { IfOk result (λ name. option_map string_bytes name ≡ internal_name word.now) }
{
    if !has_segments(word) {
        return Ok(None);
    }
    let name = slashed(alloc, word)?;
    Ok(Some(name))
}

fn are_digits(digits: &str, radix: u32) -> bool
    requires { (2 ≤ radix) × (radix ≤ 36) }
    ensures { result ≡ list_all (λ c. is_digit c radix) digits.now }
{
    digits
        .as_bytes()
        .iter()
        .all(|b| char::from(*b).is_digit(radix))
}

fn is_numeral(digits: &str, radix: u32, most: usize) -> bool
    requires { (2 ≤ radix) × (radix ≤ 36) }
    ensures { result ≡ is_numeral radix most digits.now }
{
    !digits.is_empty() && digits.len() <= most && are_digits(digits, radix)
}

// The number that so many digits of the radix write.
fn numeral(digits: &str, radix: u32, most: usize) -> Option<u64>
    requires { (2 ≤ radix) × (radix ≤ 36) }
    ensures { result ≡ numeral radix most digits.now }
{
    if !is_numeral(digits, radix, most) {
        return None;
    }
    u64::from_str_radix(digits, radix).ok()
}

// What stands behind the front of the text.
pub(crate) fn behind<'a>(front: &str, text: &'a str) -> Option<&'a str>
    ensures { option_copied result ≡ behind front.now text.now }
{
    text.strip_prefix(front)
}

fn number(word: &str) -> Option<u64>
    ensures { result ≡ number_of word.now }
{
    match behind("0x", word) {
        Some(digits) => numeral(digits, 16, 16),
        None => numeral(word, 10, 20),
    }
}

pub(crate) fn steps_option(word: &str) -> Option<u64>
    ensures { result ≡ steps_option word.now }
{
    match behind("--steps=", word) {
        Some(digits) => number(digits),
        None => None,
    }
}

pub(crate) fn archive_path<'a>(path: &'a str) -> Option<&'a str>
    ensures { option_copied result ≡ archive_path path.now }
{
    if is_archive_path(path) {
        Some(path)
    } else {
        None
    }
}

pub(crate) fn archive_option<'a>(word: &'a str) -> Option<&'a str>
    ensures { option_copied result ≡ archive_option word.now }
{
    match behind("-XX:SharedArchiveFile=", word) {
        Some(path) => archive_path(path),
        None => None,
    }
}

fn list_option<'a>(word: &'a str) -> Option<&'a str>
    ensures { option_copied result ≡ list_option word.now }
{
    match behind("-XX:SharedClassListFile=", word) {
        Some(path) => archive_path(path),
        None => None,
    }
}

#[tactic(auto, unfolding(crate::specs::Words::sharing_option))]
fn sharing_option(word: &str) -> Option<Sharing>
    ensures { result ≡ sharing_option word.now }
{
    if word == "-Xshare:auto" {
        return Some(Sharing::Auto);
    }
    if word == "-Xshare:on" {
        return Some(Sharing::On);
    }
    if word == "-Xshare:dump" {
        return Some(Sharing::Dump);
    }
    None
}

fn folder_option<'a>(word: &str, folder: &'a str) -> Option<&'a str>
    ensures { option_copied result ≡ folder_option word.now folder.now }
{
    if word == "-cp" && is_folder(folder) {
        Some(folder)
    } else {
        None
    }
}

fn with_folder<'a>(taken: Taken<'a>, folder: Option<&'a str>) -> Option<Taken<'a>>
    ensures { option_map taken_view result ≡ with_folder (taken_view taken.entry) (option_copied folder.entry) }
{
    match (taken.folder, folder) {
        (None, Some(folder)) => Some(Taken {
            folder: Some(folder),
            ..taken
        }),
        (None, None) | (Some(_), _) => None,
    }
}

fn with_archive<'a>(taken: Taken<'a>, archive: Option<&'a str>) -> Option<Taken<'a>>
    ensures { option_map taken_view result ≡ with_archive (taken_view taken.entry) (option_copied archive.entry) }
{
    match (taken.archive, archive) {
        (None, Some(archive)) => Some(Taken {
            archive: Some(archive),
            ..taken
        }),
        (None, None) | (Some(_), _) => None,
    }
}

fn with_list<'a>(taken: Taken<'a>, list: Option<&'a str>) -> Option<Taken<'a>>
    ensures { option_map taken_view result ≡ with_list (taken_view taken.entry) (option_copied list.entry) }
{
    match (taken.list, list) {
        (None, Some(list)) => Some(Taken {
            list: Some(list),
            ..taken
        }),
        (None, None) | (Some(_), _) => None,
    }
}

fn with_steps<'a>(taken: Taken<'a>, steps: Option<u64>) -> Option<Taken<'a>>
    ensures { option_map taken_view result ≡ with_steps (taken_view taken.entry) steps }
{
    match (taken.steps, steps) {
        (None, Some(steps)) => Some(Taken {
            steps: Some(steps),
            ..taken
        }),
        (None, None) | (Some(_), _) => None,
    }
}

fn with_sharing<'a>(taken: Taken<'a>, sharing: Option<Sharing>) -> Option<Taken<'a>>
    ensures { option_map taken_view result ≡ with_sharing (taken_view taken.entry) sharing }
{
    match (taken.sharing, sharing) {
        (None, Some(sharing)) => Some(Taken {
            sharing: Some(sharing),
            ..taken
        }),
        (None, None) | (Some(_), _) => None,
    }
}

// One word more, where it is an option that wasn't taken before.
#[tactic(auto, unfolding(crate::specs::Words::with_word))]
fn with_word<'a>(taken: Taken<'a>, word: &'a str) -> Option<Taken<'a>>
    ensures { option_map taken_view result ≡ with_word (taken_view taken.entry) word.now }
{
    if let Some(next) = with_archive(taken, archive_option(word)) {
        return Some(next);
    }
    if let Some(next) = with_list(taken, list_option(word)) {
        return Some(next);
    }
    if let Some(next) = with_steps(taken, steps_option(word)) {
        return Some(next);
    }
    with_sharing(taken, sharing_option(word))
}

#[tactic(auto, unfolding(crate::specs::Words::with_words))]
fn with_words<'a>(taken: Taken<'a>, word: &str, second: &'a str) -> Option<Taken<'a>>
    ensures { option_map taken_view result ≡ with_words (taken_view taken.entry) word.now second.now }
{
    with_folder(taken, folder_option(word, second))
}

// The options behind the first one, where there is one.
#[tactic(auto, unfolding(crate::specs::Words::options_from))]
fn behind_option<'a>(taken: Taken<'a>, words: &'a [String]) -> Option<(Taken<'a>, &'a [String])>
    ensures value { MatchOption result
        (options_from (taken_view taken.entry) (map string_bytes words.now) ≡ (taken_view taken.entry, map string_bytes words.now))
        (λ left. options_from (taken_view taken.entry) (map string_bytes words.now)
        ≡ options_from (taken_view left.0) (map string_bytes left.1.now)) }
    ensures shorter { IfSome result (λ left. length left.1.now < length words.now) }
{
    let [word, others @ ..] = words else {
        return None;
    };
    let [second, more @ ..] = others else {
        return match with_word(taken, word.as_str()) {
            Some(next) => Some((next, others)),
            None => None,
        };
    };
    if let Some(next) = with_words(taken, word.as_str(), second.as_str()) {
        return Some((next, more));
    }
    match with_word(taken, word.as_str()) {
        Some(next) => Some((next, others)),
        None => None,
    }
}

// What the options at the front of the words ask for, and the words behind them.
fn options<'a>(words: &'a [String]) -> (Taken<'a>, &'a [String])
    ensures { left_view result ≡ options_from nothing (map string_bytes words.now) }
{
    let mut taken = Taken {
        folder: None,
        archive: None,
        list: None,
        steps: None,
        sharing: None,
    };
    let mut rest = words;
    while let Some((next, more)) = behind_option(taken, rest) {
        taken = next;
        rest = more;
    }
    (taken, rest)
}

// Whether a run with this option has to use its archive; a dump is no run.
fn share_of(sharing: Option<Sharing>) -> Option<Share>
    ensures { option_map is_on_share result ≡ is_on sharing }
{
    match sharing {
        None => Some(Share::Auto),
        Some(Sharing::Auto) => Some(Share::Auto),
        Some(Sharing::On) => Some(Share::On),
        Some(Sharing::Dump) => None,
    }
}

fn is_dump(sharing: Option<Sharing>) -> bool
    ensures { result ≡ is_dump sharing }
{
    match sharing {
        None => false,
        Some(Sharing::Auto) => false,
        Some(Sharing::On) => false,
        Some(Sharing::Dump) => true,
    }
}

// The text as one of its own, where there is one.
pub(crate) fn owned(alloc: Global, text: Option<&str>) -> Result<Option<String>, AllocError>
    ensures { IfOk result (λ own. option_map string_bytes own ≡ option_copied text.entry) }
{
    let Some(text) = text else {
        return Ok(None);
    };
    let own = String::from_str(alloc, text)?;
    Ok(Some(own))
}

// The run of the word that stands behind the options.
#[tactic(auto, unfolding(crate::specs::Words::run_with))]
fn run_with(alloc: Global, taken: Taken<'_>, main: &str) -> Result<Option<RunWords>, AllocError>
    ensures { IfOk result (λ run. option_map run_view run ≡ run_with (taken_view taken.entry) (internal_name main.now)) }
{
    let Some(folder) = taken.folder else {
        return Ok(None);
    };
    let Some(share) = share_of(taken.sharing) else {
        return Ok(None);
    };
    if taken.list.is_some() {
        return Ok(None);
    }
    let Some(archive) = taken.archive else {
        return Ok(None);
    };
    let Some(name) = internal_name(alloc, main)? else {
        return Ok(None);
    };
    let archive = String::from_str(alloc, archive)?;
    let folder = String::from_str(alloc, folder)?;
    Ok(Some(RunWords {
        folder,
        share,
        archive,
        steps: taken.steps.unwrap_or(STEPS),
        name,
    }))
}

// The dump of the options that were taken.
#[tactic(auto, unfolding(crate::specs::Words::dump_with))]
fn dump_with(alloc: Global, taken: Taken<'_>) -> Result<Option<DumpWords>, AllocError>
    ensures { IfOk result (λ dump. option_map dump_view dump ≡ dump_with (taken_view taken.entry)) }
{
    if !is_dump(taken.sharing) || taken.steps.is_some() {
        return Ok(None);
    }
    let Some(folder) = taken.folder else {
        return Ok(None);
    };
    let Some(archive) = taken.archive else {
        return Ok(None);
    };
    let Some(list) = taken.list else {
        return Ok(None);
    };
    let folder = String::from_str(alloc, folder)?;
    let archive = String::from_str(alloc, archive)?;
    let list = String::from_str(alloc, list)?;
    Ok(Some(DumpWords {
        folder,
        archive,
        list,
    }))
}

fn run(alloc: Global, taken: Taken<'_>, main: &str) -> Result<Option<Command>, AllocError>
    ensures { IfOk result (λ command. option_map command_view command ≡ option_map Run (run_with (taken_view taken.entry) (internal_name main.now))) }
{
    match run_with(alloc, taken, main)? {
        Some(words) => Ok(Some(Command::Run(words))),
        None => Ok(None),
    }
}

fn dump(alloc: Global, taken: Taken<'_>) -> Result<Option<Command>, AllocError>
    ensures { IfOk result (λ command. option_map command_view command ≡ option_map Dump (dump_with (taken_view taken.entry))) }
{
    match dump_with(alloc, taken)? {
        Some(words) => Ok(Some(Command::Dump(words))),
        None => Ok(None),
    }
}

// What the words behind the options ask for.
#[tactic(auto, unfolding(crate::specs::Grammar::request_with))]
fn request_with(
    alloc: Global,
    taken: Taken<'_>,
    words: &[String],
) -> Result<Option<Command>, AllocError>
    ensures { IfOk result (λ command. option_map command_view command ≡ request_with (taken_view taken.entry) (map string_bytes words.now)) }
{
    let [main, others @ ..] = words else {
        return dump(alloc, taken);
    };
    let [] = others else {
        return Ok(None);
    };
    run(alloc, taken, main.as_str())
}

// What the words of a run or a dump ask for.
#[tactic(auto, unfolding(crate::specs::Grammar::request_by_options))]
fn command_by_options(alloc: Global, words: &[String]) -> Result<Option<Command>, AllocError>
    ensures { IfOk result (λ command. option_map command_view command ≡ request_by_options (map string_bytes words.now)) }
{
    let (taken, others) = options(words);
    request_with(alloc, taken, others)
}

// The assembly of a text into a folder, where the word before them is the option.
fn asm_of(
    alloc: Global,
    option: &str,
    text: &str,
    folder: &str,
) -> Result<Option<AsmWords>, AllocError>
    ensures { IfOk result (λ asm. option_map asm_view asm ≡ asm_of option.now text.now folder.now) }
{
    if !(option == "--asm" && !folder.is_empty()) {
        return Ok(None);
    }
    let text = String::from_str(alloc, text)?;
    let folder = String::from_str(alloc, folder)?;
    Ok(Some(AsmWords { text, folder }))
}

#[tactic(auto, unfolding(crate::specs::Grammar::asm_request))]
fn asm_words(alloc: Global, words: &[String]) -> Result<Option<AsmWords>, AllocError>
    ensures { IfOk result (λ asm. option_map asm_view asm ≡ asm_request (map string_bytes words.now)) }
{
    let [option, others @ ..] = words else {
        return Ok(None);
    };
    let [text, others @ ..] = others else {
        return Ok(None);
    };
    let [folder, others @ ..] = others else {
        return Ok(None);
    };
    let [] = others else {
        return Ok(None);
    };
    asm_of(alloc, option.as_str(), text.as_str(), folder.as_str())
}

/// What the words ask for, or `None` where they are outside the grammar, which is that of a run over a home, of the making
/// of a home, of a run with an archive, of a dump or of an assembly.
///
/// A run over a home: options in any order, each as often as one likes, the last of them counting, then a main class and
/// nothing else. The options are `-cp` or `-classpath` with a class path (`.` where it isn't given), `--home=DIR`
/// (`jsa-home`), `--steps=N`, `-XX:DumpLoadedClassList=F`, `-Xshare:auto`, `-Xshare:on` and `-Xshare:off`, of which the first
/// two say nothing to a run without an archive, and, beside `-Xshare:off`, `-XX:SharedArchiveFile=A`, which isn't used then. A
/// class path is empty, with no folder, or it is up to 64 folders with a `:` between each two; no folder is empty, is `*` or
/// ends in `.jar` or `.zip`. DIR isn't empty. The main class is any word that doesn't begin with `-`: each of its dots is read
/// as a slash, and its characters are written in modified UTF-8 (JVMS 4.4.7).
/// The making of a home: `--make-home` and a folder that isn't empty, and nothing else.
///
/// A run with an archive: options in any order, each at most once, then a main class and nothing else. The options are `-cp`
/// with a folder and `-XX:SharedArchiveFile=A`, which have to be there, `--steps=N`, and one of `-Xshare:auto` and
/// `-Xshare:on`.
/// A dump: `-Xshare:dump`, `-XX:SharedClassListFile=F`, `-XX:SharedArchiveFile=A` and `-cp` with a folder, in any order,
/// each once, and nothing else.
/// An assembly: `--asm`, the path of a text and a folder that isn't empty, and nothing else.
///
/// The folder of a run with an archive or of a dump is a class path of one folder, and the main class of such a run consists
/// of ASCII letters, digits, `_` and `$` in segments between dots, none of them empty. A and F aren't empty, hold no `:` and
/// don't end in `.class`. N is 1 to 20 decimal digits, or `0x` and 1 to 16 hexadecimal digits, and below 2^64.
#[tactic(auto, unfolding(crate::specs::Grammar::request_of))]
pub fn read_words(alloc: Global, words: &[String]) -> Result<Option<Command>, AllocError>
    ensures { IfOk result (λ command. option_map command_view command ≡ request_of (map string_bytes words.now)) }
{
    if let Some(asm) = asm_words(alloc, words)? {
        return Ok(Some(Command::Asm(asm)));
    }
    if let Some(folder) = make_home_words(alloc, words)? {
        return Ok(Some(Command::MakeHome(folder)));
    }
    if let Some(run) = home_run_words(alloc, words)? {
        return Ok(Some(Command::HomeRun(run)));
    }
    command_by_options(alloc, words)
}

/// The path of the main class's file: its folder, a slash, its internal name and `.class`.
pub fn class_path(words: &RunWords) -> Result<String, AllocError>
    ensures { IfOk result (λ path. string_bytes path ≡ class_path (run_view words.now)) }
{
    let mut path = words.folder.clone()?;
    path.push_str("/")?;
    path.push_str(words.name.as_str())?;
    path.push_str(".class")?;
    Ok(path)
}
