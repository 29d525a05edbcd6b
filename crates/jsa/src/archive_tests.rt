// Whole commands over archives: dumps, and runs from what they wrote.
use crate::command_rows::wrong_rows;
use std::test::Fail;

static FROM_ARCHIVES: &str = "\
put app/Main.class SUM
text list.txt # the classes^~Main of the example^~Main~~@other
run @dump = 0|archived 1 skipped 0~|
run @on = 0|42~|
run @from = 0|42~|
reads = read list.txt app/Main.class a.jsa a.jsa
new
put app/Main.class SUM
text list.txt # the classes^~Main of the example^~Main~~@other
run @dump = 0|archived 1 skipped 0~|
put app/Main.class SHIFTS
run @from = 0|2147483647~|
run @on = 6||not shared a.jsa: path 2~
reads = read list.txt app/Main.class a.jsa app/Main.class a.jsa
new
put app/Main.class SUM
text list.txt # the classes^~Main of the example^~Main~~@other
put app/Main2.class SHIFTS
run @dump = 0|archived 1 skipped 0~|
run -cp app -Xshare:on -XX:SharedArchiveFile=a.jsa --steps=100 Main2 = 0|2147483647~|
run -Xshare:on -XX:SharedArchiveFile=a.jsa -cp app Main3 = 4||no main in Main3~
run -Xshare:on -XX:SharedArchiveFile=a.jsa --steps=8 -cp app Main = 8|42~|stopped after 8 steps~
reads = read list.txt app/Main.class a.jsa app/Main2.class a.jsa a.jsa";

// Fronts of an archive, and archives with an altered byte, each carried to a new folder.
static REFUSED: &str = "\
new the first 0 bytes of an archive
put app/Main.class SUM
text list.txt # the classes^~Main of the example^~Main~~@other
run @dump = 0|archived 1 skipped 0~|
edit a.jsa 0 508
keep a.jsa
put app/Main.class SUM
text list.txt # the classes^~Main of the example^~Main~~@other
run @on = 6||not shared a.jsa: short~
run @from = 0|42~|
new the first 1 bytes of an archive
put app/Main.class SUM
text list.txt # the classes^~Main of the example^~Main~~@other
run @dump = 0|archived 1 skipped 0~|
edit a.jsa 1 507
keep a.jsa
put app/Main.class SUM
text list.txt # the classes^~Main of the example^~Main~~@other
run @on = 6||not shared a.jsa: short~
run @from = 0|42~|
new the first 255 bytes of an archive
put app/Main.class SUM
text list.txt # the classes^~Main of the example^~Main~~@other
run @dump = 0|archived 1 skipped 0~|
edit a.jsa 255 253
keep a.jsa
put app/Main.class SUM
text list.txt # the classes^~Main of the example^~Main~~@other
run @on = 6||not shared a.jsa: short~
run @from = 0|42~|
new the first 256 bytes of an archive
put app/Main.class SUM
text list.txt # the classes^~Main of the example^~Main~~@other
run @dump = 0|archived 1 skipped 0~|
edit a.jsa 256 252
keep a.jsa
put app/Main.class SUM
text list.txt # the classes^~Main of the example^~Main~~@other
run @on = 6||not shared a.jsa: digest~
run @from = 0|42~|
new the first 257 bytes of an archive
put app/Main.class SUM
text list.txt # the classes^~Main of the example^~Main~~@other
run @dump = 0|archived 1 skipped 0~|
edit a.jsa 257 251
keep a.jsa
put app/Main.class SUM
text list.txt # the classes^~Main of the example^~Main~~@other
run @on = 6||not shared a.jsa: digest~
run @from = 0|42~|
new the first 400 bytes of an archive
put app/Main.class SUM
text list.txt # the classes^~Main of the example^~Main~~@other
run @dump = 0|archived 1 skipped 0~|
edit a.jsa 400 108
keep a.jsa
put app/Main.class SUM
text list.txt # the classes^~Main of the example^~Main~~@other
run @on = 6||not shared a.jsa: digest~
run @from = 0|42~|
new the first 507 bytes of an archive
put app/Main.class SUM
text list.txt # the classes^~Main of the example^~Main~~@other
run @dump = 0|archived 1 skipped 0~|
edit a.jsa 507 1
keep a.jsa
put app/Main.class SUM
text list.txt # the classes^~Main of the example^~Main~~@other
run @on = 6||not shared a.jsa: digest~
run @from = 0|42~|
new byte 0 of an archive is altered
put app/Main.class SUM
text list.txt # the classes^~Main of the example^~Main~~@other
run @dump = 0|archived 1 skipped 0~|
edit a.jsa 0 1 75
keep a.jsa
put app/Main.class SUM
text list.txt # the classes^~Main of the example^~Main~~@other
run @on = 6||not shared a.jsa: magic~
run @from = 0|42~|
new byte 7 of an archive is altered
put app/Main.class SUM
text list.txt # the classes^~Main of the example^~Main~~@other
run @dump = 0|archived 1 skipped 0~|
edit a.jsa 7 1 11
keep a.jsa
put app/Main.class SUM
text list.txt # the classes^~Main of the example^~Main~~@other
run @on = 6||not shared a.jsa: magic~
run @from = 0|42~|
new byte 8 of an archive is altered
put app/Main.class SUM
text list.txt # the classes^~Main of the example^~Main~~@other
run @dump = 0|archived 1 skipped 0~|
edit a.jsa 8 1 1
keep a.jsa
put app/Main.class SUM
text list.txt # the classes^~Main of the example^~Main~~@other
run @on = 6||not shared a.jsa: version 1~
run @from = 0|42~|
new byte 12 of an archive is altered
put app/Main.class SUM
text list.txt # the classes^~Main of the example^~Main~~@other
run @dump = 0|archived 1 skipped 0~|
edit a.jsa 12 1 1
keep a.jsa
put app/Main.class SUM
text list.txt # the classes^~Main of the example^~Main~~@other
run @on = 6||not shared a.jsa: digest~
run @from = 0|42~|
new byte 16 of an archive is altered
put app/Main.class SUM
text list.txt # the classes^~Main of the example^~Main~~@other
run @dump = 0|archived 1 skipped 0~|
edit a.jsa 16 1 1
keep a.jsa
put app/Main.class SUM
text list.txt # the classes^~Main of the example^~Main~~@other
run @on = 6||not shared a.jsa: digest~
run @from = 0|42~|
new byte 72 of an archive is altered
put app/Main.class SUM
text list.txt # the classes^~Main of the example^~Main~~@other
run @dump = 0|archived 1 skipped 0~|
edit a.jsa 72 1 1
keep a.jsa
put app/Main.class SUM
text list.txt # the classes^~Main of the example^~Main~~@other
run @on = 6||not shared a.jsa: digest~
run @from = 0|42~|
new byte 104 of an archive is altered
put app/Main.class SUM
text list.txt # the classes^~Main of the example^~Main~~@other
run @dump = 0|archived 1 skipped 0~|
edit a.jsa 104 1 19
keep a.jsa
put app/Main.class SUM
text list.txt # the classes^~Main of the example^~Main~~@other
run @on = 6||not shared a.jsa: digest~
run @from = 0|42~|
new byte 223 of an archive is altered
put app/Main.class SUM
text list.txt # the classes^~Main of the example^~Main~~@other
run @dump = 0|archived 1 skipped 0~|
edit a.jsa 223 1 1
keep a.jsa
put app/Main.class SUM
text list.txt # the classes^~Main of the example^~Main~~@other
run @on = 6||not shared a.jsa: digest~
run @from = 0|42~|
new byte 224 of an archive is altered
put app/Main.class SUM
text list.txt # the classes^~Main of the example^~Main~~@other
run @dump = 0|archived 1 skipped 0~|
edit a.jsa 224 1 52
keep a.jsa
put app/Main.class SUM
text list.txt # the classes^~Main of the example^~Main~~@other
run @on = 6||not shared a.jsa: digest~
run @from = 0|42~|
new byte 255 of an archive is altered
put app/Main.class SUM
text list.txt # the classes^~Main of the example^~Main~~@other
run @dump = 0|archived 1 skipped 0~|
edit a.jsa 255 1 83
keep a.jsa
put app/Main.class SUM
text list.txt # the classes^~Main of the example^~Main~~@other
run @on = 6||not shared a.jsa: digest~
run @from = 0|42~|
new byte 256 of an archive is altered
put app/Main.class SUM
text list.txt # the classes^~Main of the example^~Main~~@other
run @dump = 0|archived 1 skipped 0~|
edit a.jsa 256 1 5
keep a.jsa
put app/Main.class SUM
text list.txt # the classes^~Main of the example^~Main~~@other
run @on = 6||not shared a.jsa: digest~
run @from = 0|42~|
new byte 300 of an archive is altered
put app/Main.class SUM
text list.txt # the classes^~Main of the example^~Main~~@other
run @dump = 0|archived 1 skipped 0~|
edit a.jsa 300 1 46
keep a.jsa
put app/Main.class SUM
text list.txt # the classes^~Main of the example^~Main~~@other
run @on = 6||not shared a.jsa: digest~
run @from = 0|42~|
new byte 507 of an archive is altered
put app/Main.class SUM
text list.txt # the classes^~Main of the example^~Main~~@other
run @dump = 0|archived 1 skipped 0~|
edit a.jsa 507 1 1
keep a.jsa
put app/Main.class SUM
text list.txt # the classes^~Main of the example^~Main~~@other
run @on = 6||not shared a.jsa: digest~
run @from = 0|42~|";

// An archive is carried whole, and one isn't there. One byte of a class file is another, so that its digest alone is.
static FOLDERS: &str = "\
new
put app/Main.class SUM
text list.txt # the classes^~Main of the example^~Main~~@other
run @dump = 0|archived 1 skipped 0~|
size a.jsa = 508
keep a.jsa
put app/Main.class SUM
text list.txt # the classes^~Main of the example^~Main~~@other
run @on = 0|42~|
run @from = 0|42~|
new
put app/Main.class SUM
text list.txt # the classes^~Main of the example^~Main~~@other
run @on = 6||not shared a.jsa: short~
run @from = 0|42~|
reads = read app/Main.class
new
put app/Main.class SUM
text list.txt # the classes^~Main of the example^~Main~~@other
run @dump = 0|archived 1 skipped 0~|
text app/Other.class 
run @on = 6||not shared a.jsa: path 2~
new
put app/Main.class SUM
text list.txt # the classes^~Main of the example^~Main~~@other
run @dump = 0|archived 1 skipped 0~|
text app/p/Other.class x
run @on = 6||not shared a.jsa: path 2~
new
put app/Main.class SUM
text list.txt # the classes^~Main of the example^~Main~~@other
run @dump = 0|archived 1 skipped 0~|
text app/Main.class 
run @on = 6||not shared a.jsa: path 2~
new
put app/Main.class SUM
text list.txt # the classes^~Main of the example^~Main~~@other
run @dump = 0|archived 1 skipped 0~|
put app/Main.class COMPILED
run @on = 6||not shared a.jsa: path 2~
new
put app/Main.class SUM
text list.txt # the classes^~Main of the example^~Main~~@other
run @dump = 0|archived 1 skipped 0~|
edit app/Main.class 139 1 41
run @on = 6||not shared a.jsa: path 2~
new
put app/Main.class SUM
text list.txt # the classes^~Main of the example^~Main~~@other
run @dump = 0|archived 1 skipped 0~|
text app/Main.java x
put apple/Main.class SUM
run @on = 0|42~|
run -Xshare:on -XX:SharedArchiveFile=a.jsa -cp apple Main = 6||not shared a.jsa: path 2~
new
put app/Main.class SUM
text list.txt # the classes^~Main of the example^~Main~~@other
text app/Other.class 
run @dump = 0|archived 1 skipped 0~|
keep a.jsa
put app/Main.class SUM
text list.txt # the classes^~Main of the example^~Main~~@other
run @on = 6||not shared a.jsa: path 2~
run @from = 0|42~|";

// ---- dumps

static DUMPS: &str = "\
new
put app/Main.class SUM
put app/Divides.class DIVIDES
put app/Other.class SUM
text list.txt 
run @dump = 0|archived 0 skipped 0~|
size a.jsa = 448
new
put app/Main.class SUM
put app/Divides.class DIVIDES
put app/Other.class SUM
text list.txt # Gone~@Gone~~ Gone
run @dump = 0|archived 0 skipped 0~|
size a.jsa = 448
new
put app/Main.class SUM
put app/Divides.class DIVIDES
put app/Other.class SUM
text list.txt Main
run @dump = 0|archived 1 skipped 0~|
size a.jsa = 620
new
put app/Main.class SUM
put app/Divides.class DIVIDES
put app/Other.class SUM
text list.txt Main^~Main x~Main
run @dump = 0|archived 1 skipped 0~|
size a.jsa = 620
new
put app/Main.class SUM
put app/Divides.class DIVIDES
put app/Other.class SUM
text list.txt Main~Gone~Other
run @dump = 9||unsupported Gone~
size a.jsa = none
new
put app/Main.class SUM
put app/Divides.class DIVIDES
put app/Other.class SUM
text list.txt Main~Other~Gone
run @dump = 9||unsupported Other~
size a.jsa = none
new
put app/Main.class SUM
put app/Divides.class DIVIDES
put app/Other.class SUM
text list.txt Divides~Gone
run @dump = 9||unsupported Divides~
size a.jsa = none
new
put app/Main.class SUM
put app/Divides.class DIVIDES
put app/Other.class SUM
text list.txt Main^
run @dump = 9||unsupported Main^~
size a.jsa = none
new
put app/Main.class SUM
put app/Divides.class DIVIDES
put app/Other.class SUM
text list.txt a.b
run @dump = 9||unsupported a.b~
size a.jsa = none
new
put app/Main.class SUM
put app/Divides.class DIVIDES
put app/Other.class SUM
text list.txt p//q
run @dump = 9||unsupported p//q~
size a.jsa = none
new
put app/Main.class SUM
run @dump = 5||missing list.txt~
new
put app/Main.class SUM
text list.txt # the classes^~Main of the example^~Main~~@other
run -Xshare:dump -XX:SharedClassListFile=list.txt -XX:SharedArchiveFile=b.jsa -cp app = 0|archived 1 skipped 0~|
run @dump = 0|archived 1 skipped 0~|
run @dump = 0|archived 1 skipped 0~|
same a.jsa b.jsa = yes";

// ---- failures

// A dump makes five calls of the store, and a run from an archive three.
static FAILING: &str = "\
new & put app/Main.class SUM & text list.txt # the classes^~Main of the example^~Main~~@other & fail 1 0 & run @dump & size a.jsa = 11||read fault~none
new & put app/Main.class SUM & text list.txt # the classes^~Main of the example^~Main~~@other & fail 2 0 & run @dump & size a.jsa = 11||read fault~none
new & put app/Main.class SUM & text list.txt # the classes^~Main of the example^~Main~~@other & fail 3 0 & run @dump & size a.jsa = 11||read fault~none
new & put app/Main.class SUM & text list.txt # the classes^~Main of the example^~Main~~@other & fail 4 0 & run @dump & size a.jsa = 11||read fault~none
new & put app/Main.class SUM & text list.txt # the classes^~Main of the example^~Main~~@other & fail 5 0 & run @dump & size a.jsa = 12||write fault~0
new & put app/Main.class SUM & text list.txt # the classes^~Main of the example^~Main~~@other & fail 6 0 & run @dump = 0|archived 1 skipped 0~|
new & put app/Main.class SUM & text list.txt # the classes^~Main of the example^~Main~~@other & fail 7 0 & run @dump = 0|archived 1 skipped 0~|
new & put app/Main.class SUM & text list.txt # the classes^~Main of the example^~Main~~@other & fail 1 1 & run @dump & size a.jsa = 11||read fault~none
new & put app/Main.class SUM & text list.txt # the classes^~Main of the example^~Main~~@other & fail 2 1 & run @dump & size a.jsa = 11||read fault~none
new & put app/Main.class SUM & text list.txt # the classes^~Main of the example^~Main~~@other & fail 3 1 & run @dump & size a.jsa = 11||read fault~none
new & put app/Main.class SUM & text list.txt # the classes^~Main of the example^~Main~~@other & fail 4 1 & run @dump & size a.jsa = 11||read fault~none
new & put app/Main.class SUM & text list.txt # the classes^~Main of the example^~Main~~@other & fail 5 1 & run @dump & size a.jsa = 12||write fault~1
new & put app/Main.class SUM & text list.txt # the classes^~Main of the example^~Main~~@other & fail 6 1 & run @dump = 0|archived 1 skipped 0~|
new & put app/Main.class SUM & text list.txt # the classes^~Main of the example^~Main~~@other & fail 7 1 & run @dump = 0|archived 1 skipped 0~|
new & put app/Main.class SUM & text list.txt # the classes^~Main of the example^~Main~~@other & fail 1 255 & run @dump & size a.jsa = 11||read fault~none
new & put app/Main.class SUM & text list.txt # the classes^~Main of the example^~Main~~@other & fail 2 255 & run @dump & size a.jsa = 11||read fault~none
new & put app/Main.class SUM & text list.txt # the classes^~Main of the example^~Main~~@other & fail 3 255 & run @dump & size a.jsa = 11||read fault~none
new & put app/Main.class SUM & text list.txt # the classes^~Main of the example^~Main~~@other & fail 4 255 & run @dump & size a.jsa = 11||read fault~none
new & put app/Main.class SUM & text list.txt # the classes^~Main of the example^~Main~~@other & fail 5 255 & run @dump & size a.jsa = 12||write fault~255
new & put app/Main.class SUM & text list.txt # the classes^~Main of the example^~Main~~@other & fail 6 255 & run @dump = 0|archived 1 skipped 0~|
new & put app/Main.class SUM & text list.txt # the classes^~Main of the example^~Main~~@other & fail 7 255 & run @dump = 0|archived 1 skipped 0~|
new & put app/Main.class SUM & text list.txt # the classes^~Main of the example^~Main~~@other & fail 1 256 & run @dump & size a.jsa = 11||read fault~none
new & put app/Main.class SUM & text list.txt # the classes^~Main of the example^~Main~~@other & fail 2 256 & run @dump & size a.jsa = 11||read fault~none
new & put app/Main.class SUM & text list.txt # the classes^~Main of the example^~Main~~@other & fail 3 256 & run @dump & size a.jsa = 11||read fault~none
new & put app/Main.class SUM & text list.txt # the classes^~Main of the example^~Main~~@other & fail 4 256 & run @dump & size a.jsa = 11||read fault~none
new & put app/Main.class SUM & text list.txt # the classes^~Main of the example^~Main~~@other & fail 5 256 & run @dump & size a.jsa = 12||write fault~256
new & put app/Main.class SUM & text list.txt # the classes^~Main of the example^~Main~~@other & fail 6 256 & run @dump = 0|archived 1 skipped 0~|
new & put app/Main.class SUM & text list.txt # the classes^~Main of the example^~Main~~@other & fail 7 256 & run @dump = 0|archived 1 skipped 0~|
new & put app/Main.class SUM & text list.txt # the classes^~Main of the example^~Main~~@other & fail 1 500 & run @dump & size a.jsa = 11||read fault~none
new & put app/Main.class SUM & text list.txt # the classes^~Main of the example^~Main~~@other & fail 2 500 & run @dump & size a.jsa = 11||read fault~none
new & put app/Main.class SUM & text list.txt # the classes^~Main of the example^~Main~~@other & fail 3 500 & run @dump & size a.jsa = 11||read fault~none
new & put app/Main.class SUM & text list.txt # the classes^~Main of the example^~Main~~@other & fail 4 500 & run @dump & size a.jsa = 11||read fault~none
new & put app/Main.class SUM & text list.txt # the classes^~Main of the example^~Main~~@other & fail 5 500 & run @dump & size a.jsa = 12||write fault~500
new & put app/Main.class SUM & text list.txt # the classes^~Main of the example^~Main~~@other & fail 6 500 & run @dump = 0|archived 1 skipped 0~|
new & put app/Main.class SUM & text list.txt # the classes^~Main of the example^~Main~~@other & fail 7 500 & run @dump = 0|archived 1 skipped 0~|
new & put app/Main.class SUM & text list.txt # the classes^~Main of the example^~Main~~@other & run @dump & fail 6 0 & run @from = 0|archived 1 skipped 0~|11||read fault~
new & put app/Main.class SUM & text list.txt # the classes^~Main of the example^~Main~~@other & run @dump & fail 6 0 & run @on = 0|archived 1 skipped 0~|11||read fault~
new & put app/Main.class SUM & text list.txt # the classes^~Main of the example^~Main~~@other & run @dump & fail 7 0 & run @from = 0|archived 1 skipped 0~|11||read fault~
new & put app/Main.class SUM & text list.txt # the classes^~Main of the example^~Main~~@other & run @dump & fail 7 0 & run @on = 0|archived 1 skipped 0~|11||read fault~
new & put app/Main.class SUM & text list.txt # the classes^~Main of the example^~Main~~@other & run @dump & fail 8 0 & run @from = 0|archived 1 skipped 0~|11||read fault~
new & put app/Main.class SUM & text list.txt # the classes^~Main of the example^~Main~~@other & run @dump & fail 8 0 & run @on = 0|archived 1 skipped 0~|11||read fault~
new & put app/Main.class SUM & text list.txt # the classes^~Main of the example^~Main~~@other & run @dump & fail 9 0 & run @from = 0|archived 1 skipped 0~|0|42~|
new & put app/Main.class SUM & text list.txt # the classes^~Main of the example^~Main~~@other & run @dump & fail 9 0 & run @on = 0|archived 1 skipped 0~|0|42~|
new & put app/Main.class SUM & text list.txt # the classes^~Main of the example^~Main~~@other & run @dump & fail 10 0 & run @from = 0|archived 1 skipped 0~|0|42~|
new & put app/Main.class SUM & text list.txt # the classes^~Main of the example^~Main~~@other & run @dump & fail 10 0 & run @on = 0|archived 1 skipped 0~|0|42~|";

// Where the archive is refused the class's file is the fourth call of a run. A line that fails changes no answer.
static FAILURES: &str = "\
put app/Main.class SUM
text list.txt # the classes^~Main of the example^~Main~~@other
out 1 3
run @dump = 12|arc|write fault~
size a.jsa = 508
new
put app/Main.class SUM
text list.txt # the classes^~Main of the example^~Main~~@other
run @dump = 0|archived 1 skipped 0~|
out 1 3
run @from = 12|42~|write fault~
new
put app/Main.class SUM
text list.txt # the classes^~Main of the example^~Main~~@other
run @dump = 0|archived 1 skipped 0~|
put app/Main.class SHIFTS
fail 9 0
run @from = 11||read fault~
new
put app/Main.class SUM
text list.txt # the classes^~Main of the example^~Main~~@other
err 1 3
run @on = 6||not
new
err 1 3
run @dump = 5||mis
new
put app/Main.class DIVIDES
text list.txt # the classes^~Main of the example^~Main~~@other
err 1 3
run @dump = 9||uns
new
put app/Main.class SUM
text list.txt # the classes^~Main of the example^~Main~~@other
fail 1 0
err 1 3
run @dump = 11||rea
run @dump = 0|archived 1 skipped 0~|";

#[test]
fn dumps_and_runs_from_archives_answer_as_written(rt: HostRuntime) -> Result<(), Fail> {
    let texts = [FROM_ARCHIVES, REFUSED, FOLDERS, DUMPS, FAILING, FAILURES];
    assert_eq!(rt; wrong_rows(rt.alloc(), &texts)?.as_str(), "");
    Ok(())
}
