// What words ask for.
use crate::said::{say_all, say_number};
use command_words::{
    AsmWords, Command, DumpWords, HomeRun, RunWords, Share, class_path, read_words,
};
use std::alloc::{AllocError, Global};

fn push_word(alloc: Global, word: &str, words: &mut Vec<String>) -> Result<(), AllocError> {
    let word = String::from_str(alloc, word)?;
    Ok(words.push(word)?)
}

// The words of a line, each behind a bar.
fn words_of(alloc: Global, line: &str) -> Result<Vec<String>, AllocError> {
    let mut words = Vec::new(alloc);
    for word in line.split('|').skip(1) {
        push_word(alloc, word, &mut words)?;
    }
    Ok(words)
}

fn command_of(alloc: Global, line: &str) -> Result<Option<Command>, AllocError> {
    let words = words_of(alloc, line)?;
    read_words(alloc, &words)
}

fn say_folders(folders: &[String], said: &mut String) -> Result<(), AllocError> {
    for folder in folders {
        said.push_str(folder.as_str())?;
        said.push_str(",")?;
    }
    Ok(())
}

fn say_digit(digit: u8, said: &mut String) -> Result<(), AllocError> {
    said.push(char::from_digit(u32::from(digit), 16).unwrap_or('?'))
}

// A name as a text, or behind a # the bytes of one that is no UTF-8, each by two hexadecimal digits.
fn say_name(name: &[u8], said: &mut String) -> Result<(), AllocError> {
    if let Ok(text) = str::from_utf8(name) {
        return said.push_str(text);
    }
    said.push_str("#")?;
    for b in name {
        say_digit(b / 16, said)?;
        say_digit(b % 16, said)?;
    }
    Ok(())
}

// Of a run over a home the main class, the home, the folders, the list and the limit.
fn say_home_run(alloc: Global, run: &HomeRun, said: &mut String) -> Result<(), AllocError> {
    said.push_str("home ")?;
    say_name(&run.name, said)?;
    say_all(&[" ", run.home.as_str(), " ["], said)?;
    say_folders(&run.folders, said)?;
    say_all(&["] ", run.list.as_deref().unwrap_or("-"), " "], said)?;
    say_number(alloc, run.steps, said)
}

fn say_path(run: &RunWords, said: &mut String) -> Result<(), AllocError> {
    let path = class_path(run)?;
    said.push_str(path.as_str())
}

fn share_word(share: Share) -> &'static str {
    match share {
        Share::Auto => " auto ",
        Share::On => " on ",
    }
}

// Of a run the path of the main class, whether the archive has to be used, its path and the limit.
fn say_run(alloc: Global, run: &RunWords, said: &mut String) -> Result<(), AllocError> {
    said.push_str("run ")?;
    say_path(run, said)?;
    said.push_str(share_word(run.share))?;
    said.push_str(run.archive.as_str())?;
    said.push_str(" ")?;
    say_number(alloc, run.steps, said)
}

fn say_dump(dump: &DumpWords, said: &mut String) -> Result<(), AllocError> {
    let (folder, archive) = (dump.folder.as_str(), dump.archive.as_str());
    say_all(
        &["dump ", folder, " ", archive, " ", dump.list.as_str()],
        said,
    )
}

fn say_asm(asm: &AsmWords, said: &mut String) -> Result<(), AllocError> {
    say_all(&["asm ", asm.text.as_str(), " ", asm.folder.as_str()], said)
}

fn say_command(alloc: Global, command: &Command, said: &mut String) -> Result<(), AllocError> {
    match command {
        Command::Run(run) => say_run(alloc, run, said),
        Command::Dump(dump) => say_dump(dump, said),
        Command::Asm(asm) => say_asm(asm, said),
        Command::HomeRun(run) => say_home_run(alloc, run, said),
        Command::MakeHome(folder) => say_all(&["make ", folder.as_str()], said),
    }
}

fn say_option(alloc: Global, asked: &Option<Command>, said: &mut String) -> Result<(), AllocError> {
    match asked {
        Some(command) => say_command(alloc, command, said),
        None => said.push_str("nothing"),
    }
}

pub(crate) fn say_asked(alloc: Global, line: &str, said: &mut String) -> Result<(), AllocError> {
    let asked = command_of(alloc, line)?;
    say_option(alloc, &asked, said)
}
