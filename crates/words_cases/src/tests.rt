// Words, lists and classes.
use crate::rows::wrong_rows;
use crate::word_rows::{FOLDERS, WORDS};
use std::test::Fail;

// Class lists, and their names.
static LISTS: &str = "\
list A~B~ = A,B, all
list  =  all
list A~B = A,B, all
list A^~B^~ = A,B, all
list A^B~C^ = A^B,C^, all
list A^^~ = A^, all
list ^~~~A~~ = A, all
list #A~@B~# ~C#~ = C#, all
list  #A~ A~ ~ =  all
list A B C~D ~ = A,D, all
list A\t#~ = A\t#, all
list java/lang/Object id: 0^~p/Main~ = java/lang/Object,p/Main, all
list A\0~\0 = A\0,\0, all
list \u{ff}\u{c3}~\u{fe} = \u{ff}\u{c3},\u{fe}, all
list B~A~B~C~A~B = B,A,C, all
list A 1^~A 2~A = A, all";

// The class of a compiled program and the class of its text.
static SAID: &str = "\
compiled = class Hello java/lang/Object 33 0 method <init> ()V 1 1 1: 42, 183 java/lang/Object <init> ()V, 177, method main ([Ljava/lang/String;)V 9 2 1: 178 java/lang/System out Ljava/io/PrintStream;, 18 Hello, 182 java/io/PrintStream println (Ljava/lang/String;)V, 177, 
assembled = class Hello java/lang/Object 33 0 method <init> ()V 1 1 1: 42, 183 java/lang/Object <init> ()V, 177, method main ([Ljava/lang/String;)V 9 2 1: 178 java/lang/System out Ljava/io/PrintStream;, 18 Hello, 182 java/io/PrintStream println (Ljava/lang/String;)V, 177, ";

#[test]
fn words_lists_and_classes_are_as_written(rt: HostRuntime) -> Result<(), Fail> {
    let texts = [FOLDERS, WORDS, LISTS, SAID];
    assert_eq!(rt; wrong_rows(rt.alloc(), &texts)?.as_str(), "");
    Ok(())
}
