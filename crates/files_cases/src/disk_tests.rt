// A store over the files of the system.
use crate::rows::{compare, first_word, parts, say_store};
use jsa_files::{DiskFiles, MAX_FILE};
use std::alloc::AllocError;
use std::fs::OpenFile;
use std::os::unix::fs::symlink;
use std::test::Fail;
use std::{fs, io};

fn told(answer: io::Result<()>) -> &'static str {
    match answer {
        Ok(()) => "done",
        Err(_) => "failed",
    }
}

// Makes a file that is 70,000 bytes too large.
fn make_large(rt: &HostRuntime, path: &str) -> &'static str {
    match fs::create(rt, path) {
        Ok(large) => told(large.set_len(MAX_FILE as u64 + 70_000)),
        Err(_) => "failed",
    }
}

// What the tests themselves do to the files.
fn word_by_hand(rt: &HostRuntime, verb: &str, words: &str) -> &'static str {
    let (first, second) = first_word(words);
    match verb {
        "folder" => told(fs::create_dir_all(rt, first)),
        "save" => told(fs::write(rt, first, second)),
        "grow" => make_large(rt, first),
        "link" => told(symlink(rt, first, second)),
        "remove" => told(fs::remove_dir_all(rt, first)),
        "delete" => told(fs::remove_file(rt, first)),
        _ => "no call",
    }
}

fn say(rt: &HostRuntime, call: &str, said: &mut String) -> Result<(), AllocError> {
    let (verb, words) = first_word(call);
    match verb {
        "read" | "digest" | "list" | "write" => {
            let mut files = DiskFiles::new(rt);
            say_store(rt.alloc(), &mut files, verb, words, said)
        }
        _ => said.push_str(word_by_hand(rt, verb, words)),
    }
}

fn try_row(rt: &HostRuntime, row: &str, wrong: &mut String) -> Result<(), AllocError> {
    if row.starts_with('#') {
        return Ok(());
    }
    let (call, _) = parts(row);
    let mut said = String::new(rt.alloc());
    say(rt, call, &mut said)?;
    compare(row, said.as_str(), wrong)
}

fn wrong_rows(rt: &HostRuntime, rows: &str) -> Result<String, AllocError> {
    let mut wrong = String::new(rt.alloc());
    for row in rows.lines() {
        try_row(rt, row, &mut wrong)?;
    }
    Ok(wrong)
}

// A path of 300 letters is too long, and the nested folders are 64.
static ROWS: &str = "# files of the system are read
folder jsa_files_test = done
save jsa_files_test/file text = done
read jsa_files_test/file = text
read jsa_files_test/other = none
read jsa_files_test/other/x = none
read jsa_files_test/file/x = none
read xxxxxxxxxxxxxxxxxxxxxxxxxxxxxxxxxxxxxxxxxxxxxxxxxxxxxxxxxxxxxxxxxxxxxxxxxxxxxxxxxxxxxxxxxxxxxxxxxxxxxxxxxxxxxxxxxxxxxxxxxxxxxxxxxxxxxxxxxxxxxxxxxxxxxxxxxxxxxxxxxxxxxxxxxxxxxxxxxxxxxxxxxxxxxxxxxxxxxxxxxxxxxxxxxxxxxxxxxxxxxxxxxxxxxxxxxxxxxxxxxxxxxxxxxxxxxxxxxxxxxxxxxxxxxxxxxxxxxxxxxxxxxxxxxxxxxxxxxxxx = none
read jsa_files_test = failed
grow jsa_files_test/large = done
read jsa_files_test/large = large
remove jsa_files_test = done
# files of the system are stamped
folder jsa_stamp_test = done
save jsa_stamp_test/abc abc = done
digest jsa_stamp_test/abc = abc
digest jsa_stamp_test/other = none
digest jsa_stamp_test/abc/x = none
digest jsa_stamp_test = failed
remove jsa_stamp_test = done
# files of the system are written; at the end a folder stands there, or a file in the place of a folder
write jsa_write_test/a/b/c old bytes = done
read jsa_write_test/a/b/c = old bytes
write jsa_write_test/a/b/c new = done
read jsa_write_test/a/b/c = new
write jsa_write_test/d = done
read jsa_write_test/d =
write jsa_write_test/a x = failed
write jsa_write_test/d/e x = failed
write jsa_write_test/d/e/f x = failed
remove jsa_write_test = done
# class files of the system are listed
write jsa_list_test/f/b.class abc = done
write jsa_list_test/f/a/z.class abc = done
write jsa_list_test/f/a.class abc = done
write jsa_list_test/f/B.class abc = done
write jsa_list_test/f/y.txt abc = done
write jsa_list_test/f/a/a/.class abc = done
folder jsa_list_test/f/g.class = done
link b.class jsa_list_test/f/link.class = done
link nothing jsa_list_test/f/broken.class = done
link f/a jsa_list_test/linked = done
list jsa_list_test/f = B.class a.class a/a/.class a/z.class b.class link.class
list jsa_list_test/linked = a/.class z.class
list jsa_list_test/f/g.class =
list jsa_list_test/f/b.class =
list jsa_list_test/f/b.class/x =
list jsa_list_test/none =
remove jsa_list_test = done
# folders may be nested 64 deep; at the end a folder lies in itself
write jsa_deep_test/n/n/n/n/n/n/n/n/n/n/n/n/n/n/n/n/n/n/n/n/n/n/n/n/n/n/n/n/n/n/n/n/n/n/n/n/n/n/n/n/n/n/n/n/n/n/n/n/n/n/n/n/n/n/n/n/n/n/n/n/n/n/n/n/x.class abc = done
list jsa_deep_test = n/n/n/n/n/n/n/n/n/n/n/n/n/n/n/n/n/n/n/n/n/n/n/n/n/n/n/n/n/n/n/n/n/n/n/n/n/n/n/n/n/n/n/n/n/n/n/n/n/n/n/n/n/n/n/n/n/n/n/n/n/n/n/n/x.class
folder jsa_deep_test/n/n/n/n/n/n/n/n/n/n/n/n/n/n/n/n/n/n/n/n/n/n/n/n/n/n/n/n/n/n/n/n/n/n/n/n/n/n/n/n/n/n/n/n/n/n/n/n/n/n/n/n/n/n/n/n/n/n/n/n/n/n/n/n/n = done
list jsa_deep_test = failed
link . jsa_deep_test/n/n/self = done
list jsa_deep_test/n/n = failed
remove jsa_deep_test = done";

#[test]
fn files_of_the_system_are_read_stamped_written_and_listed(rt: HostRuntime) -> Result<(), Fail> {
    assert_eq!(rt; wrong_rows(&rt, ROWS)?.as_str(), "");
    Ok(())
}

static LARGE: &str = "grow jsa_large_test = done
digest jsa_large_test = large
delete jsa_large_test = done";

#[test]
fn a_file_that_is_too_large_is_not_stamped(rt: HostRuntime) -> Result<(), Fail> {
    assert_eq!(rt; wrong_rows(&rt, LARGE)?.as_str(), "");
    Ok(())
}
