// StackMapTables for the tests, made by hand from the rules (JVMS 4.7.4, 4.10.1.4). A row has the locals of the first frame
// by slot, max_locals and max_stack, the bytes of the table, and behind ` = ` the frames that it declares.
//
// A type is a letter: `.` for Top, I, F, D, J (Long), N (Null), U (UninitializedThis), `@` and a place for an
// Uninitialized, and a name between L and a semicolon. A frame is its place, its locals by slot, a bar, its stack with the
// top first, and an exclamation mark where no constructor was called on `this`. `bad` says that there are none.

/// Tables on both sides of each rule.
pub static TABLES: &str = "table I,1,0,00 00 = 
table I,1,0,00 01 00 = 0 I|
table I,1,0,00 01 3f = 63 I|
table I,1,1,00 01 40 01 = 0 I|I
table I,1,1,00 01 7f 05 = 63 I|N
table I,1,1,00 01 80 01 = bad
table I,1,1,00 01 f6 00 00 01 = bad
table I,1,1,00 01 f7 01 00 02 = 256 I|F
table IFN,3,0,00 01 f8 00 05 = 5 ...|
table IFN,3,0,00 01 f9 00 05 = 5 I..|
table IFN,3,0,00 01 fa 00 05 = 5 IF.|
table I,1,0,00 01 fb ff ff = 65535 I|
table I,2,0,00 01 fc 00 00 02 = 0 IF|
table I,3,0,00 01 fd 00 00 02 05 = 0 IFN|
table I,4,0,00 01 fe 00 00 02 05 01 = 0 IFNI|
table I,2,3,00 01 ff 00 01 00 01 04 00 02 01 03 = 1 J.|DI
table I,3,0,00 01 ff 00 01 00 00 00 00 = 1 ...|
table IF,2,0,00 01 fa 00 00 = 0 I.|
table IF,2,0,00 01 f9 00 00 = 0 ..|
table IF,2,0,00 01 f8 00 00 = bad
table I,3,0,00 01 fc 00 00 04 = 0 IJ.|
table I,2,0,00 01 fc 00 00 04 = bad
table I,3,0,00 02 fc 00 00 04 fa 00 00 = 0 IJ.| 1 I..|
table J.D.,4,0,00 02 fa 00 00 fa 00 00 = 0 J...| 1 ....|
table I..,3,0,00 01 fc 00 00 02 = 0 IF.|
table I,2,0,00 03 fc 00 00 00 fa 00 00 fa 00 00 = 0 I.| 1 I.| 2 ..|
table I,1,0,00 01 fc 00 00 02 = bad
table I,1,2,00 01 40 04 = 0 I|J
table I,1,1,00 01 40 04 = bad
table I,1,1,00 01 ff 00 00 00 00 00 02 01 01 = bad
table I,1,2,00 01 ff 00 00 00 00 00 02 01 02 = 0 .|FI
table I,1,1,00 01 40 08 00 00 = 0 I|@0
table I,1,1,00 01 40 08 00 03 = bad
table I,1,1,00 01 40 08 00 01 = bad
table I,1,1,00 01 40 08 00 64 = bad
table I,1,1,00 01 40 07 00 02 = 0 I|LA;
table I,1,1,00 01 40 07 00 04 = 0 I|L[I;
table I,1,1,00 01 40 07 00 01 = bad
table I,1,1,00 01 40 07 00 00 = bad
table I,1,1,00 01 40 07 00 05 = bad
table I,1,1,00 01 40 07 00 63 = bad
table I,1,1,00 01 40 09 = bad
table I,1,1,00 01 40 ff = bad
table I,1,0,00 03 00 00 05 = 0 I| 1 I| 7 I|
table I,1,1,00 02 43 01 04 = 3 I|I 8 I|
table U,1,0,00 01 00 = 0 U|!
table U,1,1,00 02 40 06 ff 00 00 00 00 00 00 = 0 U|U! 1 .|
table I,1,1,00 01 ff 00 00 00 00 00 01 06 = 0 .|U
table I,1,0,00 01 ff 00 00 00 01 06 00 00 = 0 U|!
";

/// One frame of each kind, with each type.
pub static WHOLE: &str =
    "table I,4,4,00 07 03 43 08 00 00 f7 00 01 07 00 02 fa 00 00 fd 00 00 04 01 ff 00 09 00 03 00 01 03 00 04 02 05 06 07 00 04 fb 00 00 = 3 I...| 7 I...|@0 9 I...|LA; 10 ....| 11 J.I.| 21 .ID.|L[I;UNF 22 .ID.|";
