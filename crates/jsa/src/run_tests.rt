// Whole runs over a store and sinks in memory, without a home.
use crate::asm_rows::ASSEMBLIES;
use crate::command_rows::wrong_rows;
use crate::failure_rows::FAILURES;
use std::test::Fail;

static RUNS: &str = "\
put app/Main.class SUM
run -Xshare:auto -XX:SharedArchiveFile=a -cp app Main = 0|42~|
reads = read app/Main.class
put app/Main.class SHIFTS
run -Xshare:auto -XX:SharedArchiveFile=a -cp app Main = 0|2147483647~|
put app/Main.class DIVIDES
run -Xshare:auto -XX:SharedArchiveFile=a -cp app Main = 9||unsupported Main~
new
run -Xshare:auto -XX:SharedArchiveFile=a -cp app Main = 4||no main in Main~
run -Xshare:auto -XX:SharedArchiveFile=a -cp app p.Main = 4||no main in p/Main~
run -Xshare:auto -XX:SharedArchiveFile=a -cp  Main = 2||usage~
reads = read
put a/b/p/q/Main.class COMPILED
run -Xshare:auto -XX:SharedArchiveFile=a -cp a/b p.q.Main = 0|42~-1~|";

// The compiled class ends in its ninth turn.
static LIMITS: &str = "\
put app/Main.class COMPILED
run -Xshare:auto -XX:SharedArchiveFile=a -cp app --steps=0 Main = 8||stopped after 0 steps~
run -Xshare:auto -XX:SharedArchiveFile=a -cp app --steps=4 Main = 8||stopped after 4 steps~
run -Xshare:auto -XX:SharedArchiveFile=a -cp app --steps=5 Main = 8|42~|stopped after 5 steps~
run -Xshare:auto -XX:SharedArchiveFile=a -cp app --steps=7 Main = 8|42~-1~|stopped after 7 steps~
run -Xshare:auto -XX:SharedArchiveFile=a -cp app --steps=8 Main = 8|42~-1~|stopped after 8 steps~
run -Xshare:auto -XX:SharedArchiveFile=a -cp app --steps=9 Main = 0|42~-1~|
run -Xshare:auto -XX:SharedArchiveFile=a -cp app --steps=10 Main = 0|42~-1~|
run -Xshare:auto -XX:SharedArchiveFile=a -cp app --steps=0x8 Main = 8|42~-1~|stopped after 8 steps~
run -Xshare:auto -XX:SharedArchiveFile=a -cp app --steps=0x9 Main = 0|42~-1~|
run -Xshare:auto -XX:SharedArchiveFile=a -cp app --steps=00000000000000000004 Main = 8||stopped after 4 steps~
run -Xshare:auto -XX:SharedArchiveFile=a -cp app --steps=00000000000000000009 Main = 0|42~-1~|
run -Xshare:auto -XX:SharedArchiveFile=a -cp app --steps=0x0000000000000009 Main = 0|42~-1~|
run -Xshare:auto -XX:SharedArchiveFile=a -cp app --steps=18446744073709551615 Main = 0|42~-1~|
run -Xshare:auto -XX:SharedArchiveFile=a -cp app --steps=0xffffffffffffffff Main = 0|42~-1~|
run -Xshare:auto -XX:SharedArchiveFile=a -cp app --steps=0xFFFFFFFFFFFFFFFF Main = 0|42~-1~|
put app/Main.class SUM
run -Xshare:auto -XX:SharedArchiveFile=a -cp app --steps=8 Main = 8|42~|stopped after 8 steps~
run -Xshare:auto -XX:SharedArchiveFile=a -cp app --steps=9 Main = 0|42~|";

// The line of each end, whole and cut.
static ENDS: &str = "\
line exit whole = 
line exit cut = 
line usage whole = usage~
line usage cut = usa
line bad-text whole = line 4294967295~
line bad-text cut = lin
line no-boot whole = no boot class a/B~
line no-boot cut = no 
line no-main whole = no main in a/B~
line no-main cut = no 
line stopped whole = stopped after 9 steps~
line stopped cut = sto
line unsupported whole = unsupported a/B~
line unsupported cut = uns
line read-fault whole = read fault~
line read-fault cut = rea
line write-fault whole = write fault~
line write-fault cut = wri
line missing whole = missing a/B~
line missing cut = mis
line memory whole = out of memory~
line memory cut = out
line short whole = not shared a/B: short~
line short cut = not
line magic whole = not shared a/B: magic~
line magic cut = not
line version whole = not shared a/B: version 7~
line version cut = not
line digest whole = not shared a/B: digest~
line digest cut = not
line layer whole = not shared a/B: layer~
line layer cut = not
line malformed whole = not shared a/B: malformed~
line malformed cut = not
line path whole = not shared a/B: path 2~
line path cut = not
line base whole = not shared a/B: base~
line base cut = not
line names whole = limit Names 1~
line names cut = lim
line classes whole = limit Classes 2~
line classes cut = lim
line archive-size whole = limit ArchiveSize 3~
line archive-size cut = lim
line loaded whole = limit Loaded 4~
line loaded cut = lim
line file-size whole = limit FileSize 67108864~
line file-size cut = lim";

// Words outside the grammar.
static FAULTY_WORDS: &str = "\
put app/Main.class COMPILED
run & reads = 2||usage~read
run -cp & reads = 2||usage~read
run -cp app & reads = 2||usage~read
run app Main & reads = 2||usage~read
run -cp app Main Main & reads = 2||usage~read
run -cp app Main --steps=9 & reads = 2||usage~read
run -cp --steps=9 app Main & reads = 2||usage~read
run -cp app --steps=9 & reads = 2||usage~read
run -cp app --steps=9 Main Main & reads = 2||usage~read
run -Xshare:auto -XX:SharedArchiveFile=a -cp app --steps=9 --steps=9 Main & reads = 2||usage~read
run -cp app --steps Main & reads = 2||usage~read
run -cp app --steps 9 Main & reads = 2||usage~read
run -cp app --step=9 Main & reads = 2||usage~read
run -cp app -steps=9 Main & reads = 2||usage~read
run -cp app --steps= Main & reads = 2||usage~read
run -cp app --steps=x Main & reads = 2||usage~read
run -cp app --steps=9x Main & reads = 2||usage~read
run -cp app --steps=-9 Main & reads = 2||usage~read
run -cp app --steps=+9 Main & reads = 2||usage~read
run -cp app --steps=9.0 Main & reads = 2||usage~read
run -cp app --steps=1_000 Main & reads = 2||usage~read
run -cp app --steps=\u{661} Main & reads = 2||usage~read
run -cp app --steps=0x Main & reads = 2||usage~read
run -cp app --steps=0X9 Main & reads = 2||usage~read
run -cp app --steps=x9 Main & reads = 2||usage~read
run -cp app --steps=0xg Main & reads = 2||usage~read
run -cp app --steps=0x+9 Main & reads = 2||usage~read
run -cp app --steps=18446744073709551616 Main & reads = 2||usage~read
run -cp app --steps=99999999999999999999 Main & reads = 2||usage~read
run -cp app --steps=000000000000000000009 Main & reads = 2||usage~read
run -cp app --steps=0x10000000000000000 Main & reads = 2||usage~read
run -cp app --steps=0x00000000000000009 Main & reads = 2||usage~read
run -Xshare:auto -XX:SharedArchiveFile=a -cp app -cp app Main & reads = 2||usage~read
run -Xshare:auto -XX:SharedArchiveFile=a -classpath app Main & reads = 2||usage~read
run -Xshare:maybe -cp app Main & reads = 2||usage~read
run -Xshare:auto -XX:SharedArchiveFile=a Main & reads = 2||usage~read
run -Xshare:auto -XX:SharedArchiveFile=a -Xshare:on -cp app Main & reads = 2||usage~read
run -Xshare:on -cp app Main -XX:SharedArchiveFile=a & reads = 2||usage~read
run -XX:SharedArchiveFile= -cp app Main & reads = 2||usage~read
run -XX:SharedArchiveFile=a:b -cp app Main & reads = 2||usage~read
run -XX:SharedArchiveFile=a.class -cp app Main & reads = 2||usage~read
run -XX:SharedArchiveFile=a -XX:SharedArchiveFile=a -cp app Main & reads = 2||usage~read
run -XX:SharedArchiveFile=a -Xshare:on Main & reads = 2||usage~read
run -XX:SharedClassListFile=l -cp app Main & reads = 2||usage~read
run -Xshare:dump -XX:SharedArchiveFile=a -cp app & reads = 2||usage~read
run -Xshare:dump -XX:SharedClassListFile=l -cp app & reads = 2||usage~read
run -Xshare:dump -XX:SharedClassListFile=l -XX:SharedArchiveFile=a & reads = 2||usage~read
run -Xshare:dump -XX:SharedClassListFile=l -XX:SharedArchiveFile=a -cp app Main & reads = 2||usage~read
run -Xshare:dump -XX:SharedClassListFile=l.class -XX:SharedArchiveFile=a -cp app & reads = 2||usage~read
run -Xshare:dump -XX:SharedClassListFile=l -XX:SharedArchiveFile=app/Main.class -cp app & reads = 2||usage~read
run -Xshare:dump -XX:SharedClassListFile=l -XX:SharedArchiveFile=a --steps=9 -cp app & reads = 2||usage~read
run --home= -cp app Main & reads = 2||usage~read
run --home=h -Xshare:auto -XX:SharedArchiveFile=a -cp app Main & reads = 2||usage~read
run -XX:DumpLoadedClassList= -cp app Main & reads = 2||usage~read
run -XX:DumpLoadedClassList=l -Xshare:auto -XX:SharedArchiveFile=a -cp app Main & reads = 2||usage~read
run --make-home & reads = 2||usage~read
run --make-home h Main & reads = 2||usage~read
run -cp * Main & reads = 2||usage~read
run -Xshare:auto -XX:SharedArchiveFile=a -cp a:b Main & reads = 2||usage~read
run -cp app: Main & reads = 2||usage~read
run -cp app.jar Main & reads = 2||usage~read
run -cp .zip Main & reads = 2||usage~read
run -Xshare:auto -XX:SharedArchiveFile=a -cp app Main. & reads = 2||usage~read
run -Xshare:auto -XX:SharedArchiveFile=a -cp app .Main & reads = 2||usage~read
run -Xshare:auto -XX:SharedArchiveFile=a -cp app p..Main & reads = 2||usage~read
run -Xshare:auto -XX:SharedArchiveFile=a -cp app p/Main & reads = 2||usage~read
run -Xshare:auto -XX:SharedArchiveFile=a -cp app Ma-in & reads = 2||usage~read
run -Xshare:auto -XX:SharedArchiveFile=a -cp app Ma\u{e9}n & reads = 2||usage~read";

// Files that are as large as they may be, and larger ones.
static LARGE: &str = "\
large app/Main.class 1
run -Xshare:auto -XX:SharedArchiveFile=a -cp app Main = 13||limit FileSize 67108864~
large app/Main.class 0
run -Xshare:auto -XX:SharedArchiveFile=a -cp app Main = 9||unsupported Main~
new
put app/Main.class SUM
text list.txt # the classes^~Main of the example^~Main~~@other
large list.txt 1
run @dump = 13||limit FileSize 67108864~
new
put app/Main.class SUM
text list.txt # the classes^~Main of the example^~Main~~@other
large app/Other.class 1
run @dump = 13||limit FileSize 67108864~
new
put app/Main.class SUM
text list.txt # the classes^~Main of the example^~Main~~@other
large a.jsa 1
run @from = 13||limit FileSize 67108864~
new
put app/Main.class SUM
text list.txt # the classes^~Main of the example^~Main~~@other
large app/Other.class 1
run @on = 13||limit FileSize 67108864~";

#[test]
fn runs_and_assemblies_answer_as_written(rt: HostRuntime) -> Result<(), Fail> {
    let texts = [RUNS, LIMITS, ENDS, FAULTY_WORDS, FAILURES, ASSEMBLIES];
    assert_eq!(rt; wrong_rows(rt.alloc(), &texts)?.as_str(), "");
    Ok(())
}

#[test]
fn a_file_above_the_limit_is_told(rt: HostRuntime) -> Result<(), Fail> {
    let texts = [LARGE];
    assert_eq!(rt; wrong_rows(rt.alloc(), &texts)?.as_str(), "");
    Ok(())
}
