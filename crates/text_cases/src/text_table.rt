// A table for the tests. A line is the kind of statement, and behind a space the line of assembler text that says it; `none`
// is outside the grammar.

/// Lines on both sides of each rule.
pub static LINES: &str = r#"blank 
blank # a comment
blank #class
blank    #
class class 0x0021 Main java/lang/Object
class class 0x0601 p/I java/lang/Object p/J p/K
class   class   0x0000   java/lang/Object   -  
none class 0x21 Main java/lang/Object
none class 0x002g Main java/lang/Object
none class 0021 Main java/lang/Object
none class 0x0021 Main
none class 0x0021 p//Main java/lang/Object
none class 0x0021 Main [I
none class 0x0021 Main java/lang/Object "p/J"
version version 52
version version 65535
none version 052
none version 65536
none version -1
none version
field field 0x0002 a I
field field 0x0008 a I -2147483648
field field 0x0008 a I 2147483647
field field 0x0008 a I 0
field field 0x0008 a S -32768
field field 0x0008 a B 127
field field 0x0008 a C 65535
field field 0x0008 a Z 1
field field 0x0008 a J -9223372036854775808
field field 0x0008 a J 9223372036854775807
field field 0x0008 a Ljava/lang/String; "a b"
none field 0x0008 a I -2147483649
none field 0x0008 a I 2147483648
none field 0x0008 a I -0
none field 0x0008 a I 007
none field 0x0008 a I +7
none field 0x0008 a S 32768
none field 0x0008 a B -129
none field 0x0008 a C -1
none field 0x0008 a Z 2
none field 0x0008 a J 9223372036854775808
none field 0x0008 a J 18446744073709551616
none field 0x0008 a F 0
none field 0x0008 a I "1"
none field 0x0008 a I 1 2
none field 0x0002 a I 1
none field 0x0008 a V
none field 0x0008 a.b I
none field 0x0008 a Ljava/lang/String; a
none field 0x0008 a Ljava/lang/String; "a
none field 0x0008 a Ljava/lang/String; "a\"
none field 0x0008 a Ljava/lang/String; "a"b
none field 0x0008 a Ljava/lang/String; "\a"
none field 0x0008 a Ljava/lang/String; "\u12"
none field 0x0008 a Ljava/lang/String; "\u123g"
method method 0x0009 main ([Ljava/lang/String;)V
method method 0x0001 <init> ()V
method method 0x0008 <clinit> ()V
none method 0x0009 main I
none method 0x0009 <main> ()V
none method 0x0009 main ()V code
code code 2 65535
none code 2
none code 2 65536
label L:
label class:
none L: nop
none :
none "L:
end end
none end end
catch catch A B C any
catch catch A B C java/lang/Throwable
none catch A B any
none catch A "B" C any
none catch A B C I;
frame frame L |
frame frame L T I F D J N U O:p/K O:[[I @M | @ O:p/K
none frame L
none frame
none frame L I | I |
none frame L II |
none frame L Op/K |
none frame L O: |
none frame L V |
plain nop
plain iload_0
plain iadd
plain lcmp
plain return
plain monitorexit
none nop nop
none Nop
none wide
none invokedynamic 1
byte bipush -128
byte bipush 127
none bipush 128
none bipush -129
short sipush -32768
none sipush 32768
load ldc 7
load ldc_w -2147483648
load ldc "a text"
load ldc class [I
load ldc2_w 2147483648
none ldc 2147483648
none ldc class
none ldc class "A"
none ldc clas A
none ldc2_w "a"
none ldc
local iload 0
local astore 65535
local ret 1
none iload 65536
none iload
iinc iinc 65535 -32768
none iinc 1
none iinc 1 32768
none iinc 1 1 1
branch goto L
branch jsr_w L
branch ifnonnull nop
none goto "L"
none goto
member getstatic p/K a I
member invokevirtual [I clone ()Ljava/lang/Object;
member invokespecial p/K <init> ()V
member invokespecial_i p/I m ()V
member invokestatic_i p/I m ()V
none getstatic p/K a ()V
none invokestatic p/K <clinit> ()V
none invokevirtual p/K a I
none invokespecial p/K <init> ()I
none invokestatic_i p/I m
none invokevirtual_i p/I m ()V
interface invokeinterface p/I m (JD)V
none invokeinterface p/I m
none invokeinterface p/I m (V)V
classof new p/K
classof instanceof [[J
none new
none new p/K p/L
newarray newarray 10
none newarray 256
multiarray multianewarray [[I 2
none multianewarray [[I 256
none multianewarray [[I
table tableswitch -2147483648 D A
table tableswitch 2147483645 D A B C
none tableswitch 2147483645 D A B C E
none tableswitch 2147483647 D A B
none tableswitch 0 D
none tableswitch 0 D "A"
lookup lookupswitch D
lookup lookupswitch D -5 A 0 B 7 A
lookup lookupswitch D 0 A 0 B
lookup lookupswitch D 1 A 0 B
lookup lookupswitch D 2147483647 A -2147483648 B 0 A
none lookupswitch D 0 A 1
none lookupswitch
"#;
