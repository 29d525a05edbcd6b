// Class files for the tests.

/// Hello.class, as a compiler writes it.
pub static HELLO: [u8; 401] = [
    202, 254, 186, 190, 0, 0, 0, 52, 0, 28, 10, 0, 6, 0, 15, 9, 0, 16, 0, 17, 8, 0, 18, 10, 0, 19,
    0, 20, 7, 0, 18, 7, 0, 21, 1, 0, 6, 60, 105, 110, 105, 116, 62, 1, 0, 3, 40, 41, 86, 1, 0, 4,
    67, 111, 100, 101, 1, 0, 15, 76, 105, 110, 101, 78, 117, 109, 98, 101, 114, 84, 97, 98, 108,
    101, 1, 0, 4, 109, 97, 105, 110, 1, 0, 22, 40, 91, 76, 106, 97, 118, 97, 47, 108, 97, 110, 103,
    47, 83, 116, 114, 105, 110, 103, 59, 41, 86, 1, 0, 10, 83, 111, 117, 114, 99, 101, 70, 105,
    108, 101, 1, 0, 10, 72, 101, 108, 108, 111, 46, 106, 97, 118, 97, 12, 0, 7, 0, 8, 7, 0, 22, 12,
    0, 23, 0, 24, 1, 0, 5, 72, 101, 108, 108, 111, 7, 0, 25, 12, 0, 26, 0, 27, 1, 0, 16, 106, 97,
    118, 97, 47, 108, 97, 110, 103, 47, 79, 98, 106, 101, 99, 116, 1, 0, 16, 106, 97, 118, 97, 47,
    108, 97, 110, 103, 47, 83, 121, 115, 116, 101, 109, 1, 0, 3, 111, 117, 116, 1, 0, 21, 76, 106,
    97, 118, 97, 47, 105, 111, 47, 80, 114, 105, 110, 116, 83, 116, 114, 101, 97, 109, 59, 1, 0,
    19, 106, 97, 118, 97, 47, 105, 111, 47, 80, 114, 105, 110, 116, 83, 116, 114, 101, 97, 109, 1,
    0, 7, 112, 114, 105, 110, 116, 108, 110, 1, 0, 21, 40, 76, 106, 97, 118, 97, 47, 108, 97, 110,
    103, 47, 83, 116, 114, 105, 110, 103, 59, 41, 86, 0, 33, 0, 5, 0, 6, 0, 0, 0, 0, 0, 2, 0, 1, 0,
    7, 0, 8, 0, 1, 0, 9, 0, 0, 0, 29, 0, 1, 0, 1, 0, 0, 0, 5, 42, 183, 0, 1, 177, 0, 0, 0, 1, 0,
    10, 0, 0, 0, 6, 0, 1, 0, 0, 0, 1, 0, 9, 0, 11, 0, 12, 0, 1, 0, 9, 0, 0, 0, 37, 0, 2, 0, 1, 0,
    0, 0, 9, 178, 0, 2, 18, 3, 182, 0, 4, 177, 0, 0, 0, 1, 0, 10, 0, 0, 0, 10, 0, 2, 0, 0, 0, 3, 0,
    8, 0, 4, 0, 1, 0, 13, 0, 0, 0, 2, 0, 14,
];

/// The constant pool of each class of the table: a line gives an entry's name for `#NAME`, and its bytes in words as
/// `CLASSES` has them. A line without words is the second index of a Long or a Double.
pub static POOL: &str = "A utf8:A
cA 07 #A
object utf8:java/lang/Object
cObject 07 #object
B utf8:B
cB 07 #B
B' utf8:B
cB' 07 #B'
array utf8:[I
cArray 07 #array
m utf8:m
f utf8:f
()V utf8:()V
()I utf8:()I
(IJ)V utf8:(IJ)V
(DI)V utf8:(DI)V
(254*I)V utf8:(|254*I|)V
(255*I)V utf8:(|255*I|)V
(256*I)V utf8:(|256*I|)V
<init> utf8:<init>
<clinit> utf8:<clinit>
a<b utf8:a<b
a>b utf8:a>b
a.b utf8:a.b
a;b utf8:a;b
a/b utf8:a/b
a[b utf8:a[b
empty utf8:
I utf8:I
S utf8:S
C utf8:C
B- utf8:B
Z utf8:Z
J utf8:J
F utf8:F
D utf8:D
String utf8:Ljava/lang/String;
Object utf8:Ljava/lang/Object;
[255I utf8:255*[|I
[256I utf8:256*[|I
V utf8:V
Code utf8:Code
ConstantValue utf8:ConstantValue
StackMapTable utf8:StackMapTable
Other utf8:Other
int 03 00000007
float 04 3f800000
long 05 00000000 00000007
-
double 06 3ff00000 00000000
--
str 08 #A
m' utf8:m
()V' utf8:()V";

/// Classes on both sides of each rule. A line says `yes`, `no` or the version that is answered, what the class shows, and
/// behind a semicolon its words: the version, and what stands behind the constant pool. A word of two, four or eight
/// hexadecimal digits is as many bytes, `#NAME` an index of the pool in two bytes, and `utf8:` an entry of a text, whose
/// parts stand between bars, a part `N*T` being T so many times.
pub static CLASSES: &str = "yes a class; 00000034 0021 #cA #cObject 0000 0000 0000 0000
yes version 51; 00000033 0021 #cA #cObject 0000 0000 0000 0000
yes version 50; 00000032 0021 #cA #cObject 0000 0000 0000 0000
no a byte behind the attributes; 00000034 0021 #cA #cObject 0000 0000 0000 0000 00
no a count of attributes that is too great; 00000034 0021 #cA #cObject 0000 0000 0000 0001
no this class of index 0; 00000034 0021 0000 #cObject 0000 0000 0000 0000
no this class past the pool; 00000034 0021 ffff #cObject 0000 0000 0000 0000
no this class that is a text; 00000034 0021 #A #cObject 0000 0000 0000 0000
no this class that is an array; 00000034 0021 #cArray #cObject 0000 0000 0000 0000
no this class at the second index of a Long; 00000034 0021 0031 #cObject 0000 0000 0000 0000
yes java/lang/Object without a superclass; 00000034 0021 #cObject 0000 0000 0000 0000 0000
no java/lang/Object with a superclass; 00000034 0021 #cObject #cA 0000 0000 0000 0000
no java/lang/Object under itself; 00000034 0021 #cObject #cObject 0000 0000 0000 0000
no another class without a superclass; 00000034 0021 #cA 0000 0000 0000 0000 0000
yes a class under any class; 00000034 0021 #cA #cB 0000 0000 0000 0000
yes a class under itself; 00000034 0021 #cA #cA 0000 0000 0000 0000
no an array as superclass; 00000034 0021 #cA #cArray 0000 0000 0000 0000
no a text as superclass; 00000034 0021 #cA #object 0000 0000 0000 0000
no a superclass past the pool; 00000034 0021 #cA ffff 0000 0000 0000 0000
yes one interface; 00000034 0021 #cA #cObject 0001 #cB 0000 0000 0000
yes two interfaces; 00000034 0021 #cA #cObject 0002 #cB #cA 0000 0000 0000
yes the class and its superclass as interfaces; 00000034 0021 #cA #cObject 0002 #cA #cObject 0000 0000 0000
no one interface twice; 00000034 0021 #cA #cObject 0002 #cB #cB 0000 0000 0000
no one interface twice, with another between them; 00000034 0021 #cA #cObject 0003 #cB #cA #cB 0000 0000 0000
no one interface at two indices; 00000034 0021 #cA #cObject 0002 #cB #cB' 0000 0000 0000
no an array as interface; 00000034 0021 #cA #cObject 0001 #cArray 0000 0000 0000
no a text as interface; 00000034 0021 #cA #cObject 0001 #B 0000 0000 0000
no index 0 as interface; 00000034 0021 #cA #cObject 0001 0000 0000 0000 0000
yes a class without flags; 00000034 0000 #cA #cObject 0000 0000 0000 0000
yes a final class; 00000034 0010 #cA #cObject 0000 0000 0000 0000
yes an abstract class; 00000034 0400 #cA #cObject 0000 0000 0000 0000
no a class that is final and abstract; 00000034 0410 #cA #cObject 0000 0000 0000 0000
no a class that is an annotation; 00000034 2000 #cA #cObject 0000 0000 0000 0000
yes a class with each other bit; 00000034 d9ef #cA #cObject 0000 0000 0000 0000
yes an interface; 00000034 0601 #cA #cObject 0000 0000 0000 0000
yes an annotation; 00000034 2600 #cA #cObject 0000 0000 0000 0000
no an interface that is not abstract; 00000034 0201 #cA #cObject 0000 0000 0000 0000
no an interface that is final; 00000034 0610 #cA #cObject 0000 0000 0000 0000
no an interface under another class; 00000034 0601 #cA #cB 0000 0000 0000 0000
no java/lang/Object as an interface; 00000034 0601 #cObject 0000 0000 0000 0000 0000
yes a field; 00000034 0021 #cA #cObject 0000 0001 0000 #f #I 0000 0000 0000
yes fields of one name and two types; 00000034 0021 #cA #cObject 0000 0002 0000 #f #I 0000 0000 #f #J 0000 0000 0000
yes fields of two names and one type; 00000034 0021 #cA #cObject 0000 0002 0000 #f #I 0000 0000 #m #I 0000 0000 0000
yes a field and a method of one name; 00000034 0021 #cA #cObject 0000 0001 0000 #m #I 0000 0001 0100 #m #()V 0000 0000
no a field twice; 00000034 0021 #cA #cObject 0000 0002 0000 #f #I 0000 0001 #f #I 0000 0000 0000
no a field twice, with another between them; 00000034 0021 #cA #cObject 0000 0003 0000 #m #I 0000 0000 #f #I 0000 0000 #m #I 0000 0000 0000
no a field twice, its name at two indices; 00000034 0021 #cA #cObject 0000 0002 0000 #m #I 0000 0000 #m' #I 0000 0000 0000
no a field twice, its type at two indices; 00000034 0021 #cA #cObject 0000 0002 0000 #f #B 0000 0000 #f #B- 0000 0000 0000
yes a field that is public; 00000034 0021 #cA #cObject 0000 0001 0001 #f #I 0000 0000 0000
yes a field that is private; 00000034 0021 #cA #cObject 0000 0001 0002 #f #I 0000 0000 0000
yes a field that is protected; 00000034 0021 #cA #cObject 0000 0001 0004 #f #I 0000 0000 0000
no a field that is public and private; 00000034 0021 #cA #cObject 0000 0001 0003 #f #I 0000 0000 0000
no a field that is public and protected; 00000034 0021 #cA #cObject 0000 0001 0005 #f #I 0000 0000 0000
no a field that is private and protected; 00000034 0021 #cA #cObject 0000 0001 0006 #f #I 0000 0000 0000
no a field that is public, private and protected; 00000034 0021 #cA #cObject 0000 0001 0007 #f #I 0000 0000 0000
no a field that is final and volatile; 00000034 0021 #cA #cObject 0000 0001 0050 #f #I 0000 0000 0000
yes a field with each other bit; 00000034 0021 #cA #cObject 0000 0001 ffb8 #f #I 0000 0000 0000
yes a volatile field; 00000034 0021 #cA #cObject 0000 0001 0040 #f #I 0000 0000 0000
yes a field of an interface; 00000034 0601 #cA #cObject 0000 0001 0019 #f #I 0000 0000 0000
no a field of an interface that is not public; 00000034 0601 #cA #cObject 0000 0001 0018 #f #I 0000 0000 0000
no a field of an interface that is not static; 00000034 0601 #cA #cObject 0000 0001 0011 #f #I 0000 0000 0000
no a field of an interface that is not final; 00000034 0601 #cA #cObject 0000 0001 0009 #f #I 0000 0000 0000
no a field of an interface that is private too; 00000034 0601 #cA #cObject 0000 0001 001b #f #I 0000 0000 0000
no a field of an interface that is volatile; 00000034 0601 #cA #cObject 0000 0001 0059 #f #I 0000 0000 0000
no a name of a field empty; 00000034 0021 #cA #cObject 0000 0001 0000 #empty #I 0000 0000 0000
no a name of a method empty; 00000034 0021 #cA #cObject 0000 0000 0001 0100 #empty #()V 0000 0000
no a name of a field with a dot; 00000034 0021 #cA #cObject 0000 0001 0000 #a.b #I 0000 0000 0000
no a name of a method with a dot; 00000034 0021 #cA #cObject 0000 0000 0001 0100 #a.b #()V 0000 0000
no a name of a field with a semicolon; 00000034 0021 #cA #cObject 0000 0001 0000 #a;b #I 0000 0000 0000
no a name of a method with a semicolon; 00000034 0021 #cA #cObject 0000 0000 0001 0100 #a;b #()V 0000 0000
no a name of a field with a slash; 00000034 0021 #cA #cObject 0000 0001 0000 #a/b #I 0000 0000 0000
no a name of a method with a slash; 00000034 0021 #cA #cObject 0000 0000 0001 0100 #a/b #()V 0000 0000
no a name of a field with a bracket; 00000034 0021 #cA #cObject 0000 0001 0000 #a[b #I 0000 0000 0000
no a name of a method with a bracket; 00000034 0021 #cA #cObject 0000 0000 0001 0100 #a[b #()V 0000 0000
yes a name of a field with a less-than sign; 00000034 0021 #cA #cObject 0000 0001 0000 #a<b #I 0000 0000 0000
yes a field named as a constructor; 00000034 0021 #cA #cObject 0000 0001 0000 #<init> #I 0000 0000 0000
no a name of a field that is a Class; 00000034 0021 #cA #cObject 0000 0001 0000 #cA #I 0000 0000 0000
no a name of a field of index 0; 00000034 0021 #cA #cObject 0000 0001 0000 0000 #I 0000 0000 0000
no a name of a field past the pool; 00000034 0021 #cA #cObject 0000 0001 0000 ffff #I 0000 0000 0000
no a descriptor of a field: V; 00000034 0021 #cA #cObject 0000 0001 0000 #f #V 0000 0000 0000
no a descriptor of a field: of a method; 00000034 0021 #cA #cObject 0000 0001 0000 #f #()V 0000 0000 0000
no a descriptor of a field: of no form; 00000034 0021 #cA #cObject 0000 0001 0000 #f #a.b 0000 0000 0000
no a descriptor of a field: empty; 00000034 0021 #cA #cObject 0000 0001 0000 #f #empty 0000 0000 0000
no a descriptor of a field: of 256 dimensions; 00000034 0021 #cA #cObject 0000 0001 0000 #f #[256I 0000 0000 0000
no a descriptor of a field: a Class; 00000034 0021 #cA #cObject 0000 0001 0000 #f #cA 0000 0000 0000
no a descriptor of a field: of index 0; 00000034 0021 #cA #cObject 0000 0001 0000 #f 0000 0000 0000 0000
yes a descriptor of 255 dimensions; 00000034 0021 #cA #cObject 0000 0001 0000 #f #[255I 0000 0000 0000
yes a descriptor of a class; 00000034 0021 #cA #cObject 0000 0001 0000 #f #String 0000 0000 0000
yes a constant of I; 00000034 0021 #cA #cObject 0000 0001 0008 #f #I 0001 #ConstantValue 00000002 #int 0000 0000
yes a constant of S; 00000034 0021 #cA #cObject 0000 0001 0008 #f #S 0001 #ConstantValue 00000002 #int 0000 0000
yes a constant of C; 00000034 0021 #cA #cObject 0000 0001 0008 #f #C 0001 #ConstantValue 00000002 #int 0000 0000
yes a constant of B; 00000034 0021 #cA #cObject 0000 0001 0008 #f #B 0001 #ConstantValue 00000002 #int 0000 0000
yes a constant of Z; 00000034 0021 #cA #cObject 0000 0001 0008 #f #Z 0001 #ConstantValue 00000002 #int 0000 0000
yes a constant of J; 00000034 0021 #cA #cObject 0000 0001 0008 #f #J 0001 #ConstantValue 00000002 #long 0000 0000
yes a constant of F; 00000034 0021 #cA #cObject 0000 0001 0008 #f #F 0001 #ConstantValue 00000002 #float 0000 0000
yes a constant of D; 00000034 0021 #cA #cObject 0000 0001 0008 #f #D 0001 #ConstantValue 00000002 #double 0000 0000
yes a constant of String; 00000034 0021 #cA #cObject 0000 0001 0008 #f #String 0001 #ConstantValue 00000002 #str 0000 0000
no a constant of I at long; 00000034 0021 #cA #cObject 0000 0001 0008 #f #I 0001 #ConstantValue 00000002 #long 0000 0000
no a constant of I at float; 00000034 0021 #cA #cObject 0000 0001 0008 #f #I 0001 #ConstantValue 00000002 #float 0000 0000
no a constant of I at str; 00000034 0021 #cA #cObject 0000 0001 0008 #f #I 0001 #ConstantValue 00000002 #str 0000 0000
no a constant of J at int; 00000034 0021 #cA #cObject 0000 0001 0008 #f #J 0001 #ConstantValue 00000002 #int 0000 0000
no a constant of J at double; 00000034 0021 #cA #cObject 0000 0001 0008 #f #J 0001 #ConstantValue 00000002 #double 0000 0000
no a constant of F at int; 00000034 0021 #cA #cObject 0000 0001 0008 #f #F 0001 #ConstantValue 00000002 #int 0000 0000
no a constant of F at double; 00000034 0021 #cA #cObject 0000 0001 0008 #f #F 0001 #ConstantValue 00000002 #double 0000 0000
no a constant of D at float; 00000034 0021 #cA #cObject 0000 0001 0008 #f #D 0001 #ConstantValue 00000002 #float 0000 0000
no a constant of D at long; 00000034 0021 #cA #cObject 0000 0001 0008 #f #D 0001 #ConstantValue 00000002 #long 0000 0000
no a constant of String at int; 00000034 0021 #cA #cObject 0000 0001 0008 #f #String 0001 #ConstantValue 00000002 #int 0000 0000
no a constant of String at A; 00000034 0021 #cA #cObject 0000 0001 0008 #f #String 0001 #ConstantValue 00000002 #A 0000 0000
no a constant of String at cA; 00000034 0021 #cA #cObject 0000 0001 0008 #f #String 0001 #ConstantValue 00000002 #cA 0000 0000
no a constant of Object at str; 00000034 0021 #cA #cObject 0000 0001 0008 #f #Object 0001 #ConstantValue 00000002 #str 0000 0000
no a constant of array at int; 00000034 0021 #cA #cObject 0000 0001 0008 #f #array 0001 #ConstantValue 00000002 #int 0000 0000
no a constant of Z at long; 00000034 0021 #cA #cObject 0000 0001 0008 #f #Z 0001 #ConstantValue 00000002 #long 0000 0000
no a constant of index 0; 00000034 0021 #cA #cObject 0000 0001 0008 #f #I 0001 #ConstantValue 00000002 0000 0000 0000
no a constant past the pool; 00000034 0021 #cA #cObject 0000 0001 0008 #f #I 0001 #ConstantValue 00000002 ffff 0000 0000
no a constant at the second index of a Long; 00000034 0021 #cA #cObject 0000 0001 0008 #f #J 0001 #ConstantValue 00000002 0031 0000 0000
no a constant of one byte; 00000034 0021 #cA #cObject 0000 0001 0008 #f #I 0001 #ConstantValue 00000001 00 0000 0000
no a constant of three bytes; 00000034 0021 #cA #cObject 0000 0001 0008 #f #I 0001 #ConstantValue 00000003 #int 00 0000 0000
no a constant of no bytes; 00000034 0021 #cA #cObject 0000 0001 0008 #f #I 0001 #ConstantValue 00000000 0000 0000
no two constants; 00000034 0021 #cA #cObject 0000 0001 0008 #f #I 0002 #ConstantValue 00000002 #int #ConstantValue 00000002 #int 0000 0000
no two constants, of which the second is none; 00000034 0021 #cA #cObject 0000 0001 0008 #f #I 0002 #ConstantValue 00000002 #int #ConstantValue 00000001 00 0000 0000
yes a constant that is skipped, of another kind; 00000034 0021 #cA #cObject 0000 0001 0000 #f #I 0001 #ConstantValue 00000002 #str 0000 0000
yes constants that are skipped, of any bytes; 00000034 0021 #cA #cObject 0000 0001 0000 #f #I 0002 #ConstantValue 00000001 ff #ConstantValue 00000000 0000 0000
yes a constant of a method, which is skipped; 00000034 0021 #cA #cObject 0000 0000 0001 0100 #m #()V 0001 #ConstantValue 00000001 ff 0000
yes a constant of a class, which is skipped; 00000034 0021 #cA #cObject 0000 0000 0000 0002 #ConstantValue 00000001 ff #ConstantValue 00000001 ff
yes an attribute of any bytes; 00000034 0021 #cA #cObject 0000 0001 0000 #f #I 0001 #Other 00000003 00 01 ff 0000 0001 #Other 00000000
yes one attribute twice, which is skipped; 00000034 0021 #cA #cObject 0000 0000 0000 0002 #Other 00000000 #Other 00000000
no an attribute of a class whose name is a Class; 00000034 0021 #cA #cObject 0000 0000 0000 0001 #cA 00000000
no an attribute of a class whose name is at index 0; 00000034 0021 #cA #cObject 0000 0000 0000 0001 0000 00000000
no an attribute of a class whose name is past the pool; 00000034 0021 #cA #cObject 0000 0000 0000 0001 ffff 00000000
no an attribute of a field whose name is a Class; 00000034 0021 #cA #cObject 0000 0001 0000 #f #I 0001 #cA 00000000 0000 0000
no an attribute of a method whose name is a Class; 00000034 0021 #cA #cObject 0000 0000 0001 0100 #m #()V 0001 #cA 00000000 0000
no an attribute of a Code whose name is a Class; 00000034 0021 #cA #cObject 0000 0000 0001 0008 #m #()V 0001 #Code 00000013 0001 0001 00000001 b1 0000 0001 #cA 00000000 0000
no an attribute that is longer than the file; 00000034 0021 #cA #cObject 0000 0000 0000 0001 #Other 00000001
yes a Code of a class and of a field, which are skipped; 00000034 0021 #cA #cObject 0000 0001 0000 #f #I 0002 #Code 00000001 00 #Code 00000000 0000 0001 #Code 00000001 ff
yes a StackMapTable of a method, which is skipped; 00000034 0021 #cA #cObject 0000 0000 0001 0100 #m #()V 0002 #StackMapTable 00000000 #StackMapTable 00000000 0000
yes a method; 00000034 0021 #cA #cObject 0000 0000 0001 0001 #m #()V 0001 #Code 0000000d 0001 0001 00000001 b1 0000 0000 0000
yes a static method without locals; 00000034 0021 #cA #cObject 0000 0000 0001 0009 #m #()V 0001 #Code 0000000d 0000 0000 00000001 b1 0000 0000 0000
yes methods of one name and two types; 00000034 0021 #cA #cObject 0000 0000 0002 0100 #m #()V 0000 0100 #m #()I 0000 0000
no a method twice; 00000034 0021 #cA #cObject 0000 0000 0002 0100 #m #()V 0000 0100 #m #()V 0000 0000
no a method twice, one static; 00000034 0021 #cA #cObject 0000 0000 0002 0100 #m #()V 0000 0108 #m #()V 0000 0000
no a method twice, its name at two indices; 00000034 0021 #cA #cObject 0000 0000 0002 0100 #m #()V 0000 0100 #m' #()V 0000 0000
no a method twice, its type at two indices; 00000034 0021 #cA #cObject 0000 0000 0002 0100 #m #()V 0000 0100 #m #()V' 0000 0000
no a method that is public and private; 00000034 0021 #cA #cObject 0000 0000 0001 0103 #m #()V 0000 0000
no a method that is public and protected; 00000034 0021 #cA #cObject 0000 0000 0001 0105 #m #()V 0000 0000
no a method that is private and protected; 00000034 0021 #cA #cObject 0000 0000 0001 0106 #m #()V 0000 0000
yes an abstract method; 00000034 0021 #cA #cObject 0000 0000 0001 0400 #m #()V 0000 0000
yes an abstract method with each other bit; 00000034 0021 #cA #cObject 0000 0000 0001 f6c1 #m #()V 0000 0000
no an abstract method that is private; 00000034 0021 #cA #cObject 0000 0000 0001 0402 #m #()V 0000 0000
no an abstract method that is static; 00000034 0021 #cA #cObject 0000 0000 0001 0408 #m #()V 0000 0000
no an abstract method that is final; 00000034 0021 #cA #cObject 0000 0000 0001 0410 #m #()V 0000 0000
no an abstract method that is synchronized; 00000034 0021 #cA #cObject 0000 0000 0001 0420 #m #()V 0000 0000
no an abstract method that is native; 00000034 0021 #cA #cObject 0000 0000 0001 0500 #m #()V 0000 0000
no an abstract method that is strict; 00000034 0021 #cA #cObject 0000 0000 0001 0c00 #m #()V 0000 0000
yes a native method with each other bit; 00000034 0021 #cA #cObject 0000 0000 0001 f9f9 #m #()V 0000 0000
no a name of a method with a less-than sign; 00000034 0021 #cA #cObject 0000 0000 0001 0100 #a<b #()V 0000 0000
no a name of a method that is a Class; 00000034 0021 #cA #cObject 0000 0000 0001 0100 #cA #()V 0000 0000
no a name of a method of index 0; 00000034 0021 #cA #cObject 0000 0000 0001 0100 0000 #()V 0000 0000
no a descriptor of a method: of a field; 00000034 0021 #cA #cObject 0000 0000 0001 0108 #m #I 0000 0000
no a descriptor of a method: V; 00000034 0021 #cA #cObject 0000 0000 0001 0108 #m #V 0000 0000
no a descriptor of a method: of no form; 00000034 0021 #cA #cObject 0000 0000 0001 0108 #m #a.b 0000 0000
no a descriptor of a method: of 256 slots; 00000034 0021 #cA #cObject 0000 0000 0001 0108 #m #(256*I)V 0000 0000
no a descriptor of a method: a Class; 00000034 0021 #cA #cObject 0000 0000 0001 0108 #m #cA 0000 0000
no a descriptor of a method: of index 0; 00000034 0021 #cA #cObject 0000 0000 0001 0108 #m 0000 0000 0000
yes 255 slots of a static method; 00000034 0021 #cA #cObject 0000 0000 0001 0108 #m #(255*I)V 0000 0000
no 255 slots and this; 00000034 0021 #cA #cObject 0000 0000 0001 0100 #m #(255*I)V 0000 0000
yes 254 slots and this; 00000034 0021 #cA #cObject 0000 0000 0001 0100 #m #(254*I)V 0000 0000
yes an abstract method of an interface at 52; 00000034 0601 #cA #cObject 0000 0000 0001 0401 #m #()V 0000 0000
yes a default method at 52; 00000034 0601 #cA #cObject 0000 0000 0001 0001 #m #()V 0001 #Code 0000000d 0001 0001 00000001 b1 0000 0000 0000
yes a private method of an interface at 52; 00000034 0601 #cA #cObject 0000 0000 0001 0002 #m #()V 0001 #Code 0000000d 0001 0001 00000001 b1 0000 0000 0000
yes a static method of an interface at 52; 00000034 0601 #cA #cObject 0000 0000 0001 0009 #m #()V 0001 #Code 0000000d 0001 0001 00000001 b1 0000 0000 0000
yes a strict method of an interface at 52; 00000034 0601 #cA #cObject 0000 0000 0001 0801 #m #()V 0001 #Code 0000000d 0001 0001 00000001 b1 0000 0000 0000
no a method of an interface at 52 that is neither public nor private; 00000034 0601 #cA #cObject 0000 0000 0001 0000 #m #()V 0001 #Code 0000000d 0001 0001 00000001 b1 0000 0000 0000
no a method of an interface at 52 that is public and private; 00000034 0601 #cA #cObject 0000 0000 0001 0003 #m #()V 0001 #Code 0000000d 0001 0001 00000001 b1 0000 0000 0000
no a method of an interface at 52 that is protected; 00000034 0601 #cA #cObject 0000 0000 0001 0004 #m #()V 0001 #Code 0000000d 0001 0001 00000001 b1 0000 0000 0000
no a method of an interface at 52 that is public and protected; 00000034 0601 #cA #cObject 0000 0000 0001 0005 #m #()V 0001 #Code 0000000d 0001 0001 00000001 b1 0000 0000 0000
no a method of an interface at 52 that is final; 00000034 0601 #cA #cObject 0000 0000 0001 0011 #m #()V 0001 #Code 0000000d 0001 0001 00000001 b1 0000 0000 0000
no a method of an interface at 52 that is synchronized; 00000034 0601 #cA #cObject 0000 0000 0001 0021 #m #()V 0001 #Code 0000000d 0001 0001 00000001 b1 0000 0000 0000
no a method of an interface at 52 that is native; 00000034 0601 #cA #cObject 0000 0000 0001 0101 #m #()V 0000 0000
no an abstract method of an interface that is package-private; 00000034 0601 #cA #cObject 0000 0000 0001 0400 #m #()V 0000 0000
yes an abstract method of an interface at 51; 00000033 0601 #cA #cObject 0000 0000 0001 0401 #m #()V 0000 0000
yes an abstract method of an interface at 50; 00000032 0601 #cA #cObject 0000 0000 0001 0401 #m #()V 0000 0000
no a default method at 51; 00000033 0601 #cA #cObject 0000 0000 0001 0001 #m #()V 0001 #Code 0000000d 0001 0001 00000001 b1 0000 0000 0000
no a static method of an interface at 51; 00000033 0601 #cA #cObject 0000 0000 0001 0009 #m #()V 0001 #Code 0000000d 0001 0001 00000001 b1 0000 0000 0000
no a private method of an interface at 51; 00000033 0601 #cA #cObject 0000 0000 0001 0002 #m #()V 0001 #Code 0000000d 0001 0001 00000001 b1 0000 0000 0000
no a method of an interface at 51 that is not public; 00000033 0601 #cA #cObject 0000 0000 0001 0400 #m #()V 0000 0000
no a default method at 50; 00000032 0601 #cA #cObject 0000 0000 0001 0001 #m #()V 0001 #Code 0000000d 0001 0001 00000001 b1 0000 0000 0000
yes a constructor; 00000034 0021 #cA #cObject 0000 0000 0001 0001 #<init> #()V 0001 #Code 0000000d 0001 0001 00000001 b1 0000 0000 0000
yes a constructor with parameters; 00000034 0021 #cA #cObject 0000 0000 0001 0001 #<init> #(IJ)V 0001 #Code 0000000d 0001 0004 00000001 b1 0000 0000 0000
yes constructors of two types; 00000034 0021 #cA #cObject 0000 0000 0002 0001 #<init> #()V 0001 #Code 0000000d 0001 0001 00000001 b1 0000 0000 0001 #<init> #(IJ)V 0001 #Code 0000000d 0001 0004 00000001 b1 0000 0000 0000
yes a strict constructor; 00000034 0021 #cA #cObject 0000 0000 0001 0800 #<init> #()V 0001 #Code 0000000d 0001 0001 00000001 b1 0000 0000 0000
no a constructor that returns; 00000034 0021 #cA #cObject 0000 0000 0001 0001 #<init> #()I 0001 #Code 0000000d 0001 0001 00000001 b1 0000 0000 0000
no a constructor that is static; 00000034 0021 #cA #cObject 0000 0000 0001 0008 #<init> #()V 0001 #Code 0000000d 0001 0001 00000001 b1 0000 0000 0000
no a constructor that is final; 00000034 0021 #cA #cObject 0000 0000 0001 0010 #<init> #()V 0001 #Code 0000000d 0001 0001 00000001 b1 0000 0000 0000
no a constructor that is synchronized; 00000034 0021 #cA #cObject 0000 0000 0001 0020 #<init> #()V 0001 #Code 0000000d 0001 0001 00000001 b1 0000 0000 0000
no a constructor that is native; 00000034 0021 #cA #cObject 0000 0000 0001 0100 #<init> #()V 0000 0000
no a constructor that is abstract; 00000034 0021 #cA #cObject 0000 0000 0001 0400 #<init> #()V 0000 0000
no a constructor of an interface; 00000034 0601 #cA #cObject 0000 0000 0001 0001 #<init> #()V 0001 #Code 0000000d 0001 0001 00000001 b1 0000 0000 0000
no an abstract constructor of an interface at 51; 00000033 0601 #cA #cObject 0000 0000 0001 0401 #<init> #()V 0000 0000
no a constructor with two access flags; 00000034 0021 #cA #cObject 0000 0000 0001 0003 #<init> #()V 0001 #Code 0000000d 0001 0001 00000001 b1 0000 0000 0000
yes a class initializer; 00000034 0021 #cA #cObject 0000 0000 0001 0008 #<clinit> #()V 0001 #Code 0000000d 0000 0000 00000001 b1 0000 0000 0000
yes a class initializer of an interface; 00000034 0601 #cA #cObject 0000 0000 0001 0008 #<clinit> #()V 0001 #Code 0000000d 0000 0000 00000001 b1 0000 0000 0000
yes a class initializer of an interface at 51; 00000033 0601 #cA #cObject 0000 0000 0001 0008 #<clinit> #()V 0001 #Code 0000000d 0000 0000 00000001 b1 0000 0000 0000
yes a class initializer with each flag; 00000034 0021 #cA #cObject 0000 0000 0001 ffff #<clinit> #()V 0001 #Code 0000000d 0000 0000 00000001 b1 0000 0000 0000
yes a class initializer that is abstract and native, with code; 00000034 0021 #cA #cObject 0000 0000 0001 0508 #<clinit> #()V 0001 #Code 0000000d 0000 0000 00000001 b1 0000 0000 0000
no a class initializer that is not static; 00000034 0021 #cA #cObject 0000 0000 0001 0000 #<clinit> #()V 0001 #Code 0000000d 0001 0001 00000001 b1 0000 0000 0000
no a class initializer that returns; 00000034 0021 #cA #cObject 0000 0000 0001 0008 #<clinit> #()I 0001 #Code 0000000d 0001 0001 00000001 b1 0000 0000 0000
no a class initializer with parameters; 00000034 0021 #cA #cObject 0000 0000 0001 0008 #<clinit> #(IJ)V 0001 #Code 0000000d 0001 0004 00000001 b1 0000 0000 0000
no a class initializer without code; 00000034 0021 #cA #cObject 0000 0000 0001 0008 #<clinit> #()V 0000 0000
no a native class initializer without code; 00000034 0021 #cA #cObject 0000 0000 0001 0108 #<clinit> #()V 0000 0000
no two class initializers; 00000034 0021 #cA #cObject 0000 0000 0002 0008 #<clinit> #()V 0001 #Code 0000000d 0000 0000 00000001 b1 0000 0000 0008 #<clinit> #()V 0001 #Code 0000000d 0000 0000 00000001 b1 0000 0000 0000
no a class initializer at version 50 that is not static; 00000032 0021 #cA #cObject 0000 0000 0001 0000 #<clinit> #()V 0001 #Code 0000000d 0001 0001 00000001 b1 0000 0000 0000
no a method without code; 00000034 0021 #cA #cObject 0000 0000 0001 0001 #m #()V 0000 0000
no a native method with code; 00000034 0021 #cA #cObject 0000 0000 0001 0100 #m #()V 0001 #Code 0000000d 0001 0001 00000001 b1 0000 0000 0000
no an abstract method with code; 00000034 0021 #cA #cObject 0000 0000 0001 0400 #m #()V 0001 #Code 0000000d 0001 0001 00000001 b1 0000 0000 0000
no two codes; 00000034 0021 #cA #cObject 0000 0000 0001 0001 #m #()V 0002 #Code 0000000d 0001 0001 00000001 b1 0000 0000 #Code 0000000d 0001 0001 00000001 b1 0000 0000 0000
no two codes of a native method; 00000034 0021 #cA #cObject 0000 0000 0001 0100 #m #()V 0002 #Code 0000000d 0001 0001 00000001 b1 0000 0000 #Code 0000000d 0001 0001 00000001 b1 0000 0000 0000
no a code of no bytes; 00000034 0021 #cA #cObject 0000 0000 0001 0001 #m #()V 0001 #Code 0000000c 0001 0001 00000000 0000 0000 0000
no a code that is longer than its attribute; 00000034 0021 #cA #cObject 0000 0000 0001 0001 #m #()V 0001 #Code 0000000d 0001 0001 000000c8 b1 0000 0000 0000
no a byte behind the attributes of a code; 00000034 0021 #cA #cObject 0000 0000 0001 0001 #m #()V 0001 #Code 0000000e 0001 0001 00000001 b1 0000 0000 00 0000
no a code without its attributes; 00000034 0021 #cA #cObject 0000 0000 0001 0001 #m #()V 0001 #Code 0000000b 0001 0001 00000001 b1 0000 0000
no an empty Code; 00000034 0021 #cA #cObject 0000 0000 0001 0001 #m #()V 0001 #Code 00000000 0000
yes any bytes as code; 00000034 0021 #cA #cObject 0000 0000 0001 0001 #m #()V 0001 #Code 0000000f 0001 0001 00000003 ff fe fd 0000 0000 0000
no no local for this; 00000034 0021 #cA #cObject 0000 0000 0001 0001 #m #()V 0001 #Code 0000000d 0001 0000 00000001 b1 0000 0000 0000
no three locals for this, an int and a long; 00000034 0021 #cA #cObject 0000 0000 0001 0001 #m #(IJ)V 0001 #Code 0000000d 0001 0003 00000001 b1 0000 0000 0000
yes four locals for this, an int and a long; 00000034 0021 #cA #cObject 0000 0000 0001 0001 #m #(IJ)V 0001 #Code 0000000d 0001 0004 00000001 b1 0000 0000 0000
yes three locals for an int and a long of a static method; 00000034 0021 #cA #cObject 0000 0000 0001 0009 #m #(IJ)V 0001 #Code 0000000d 0001 0003 00000001 b1 0000 0000 0000
no two locals for an int and a long of a static method; 00000034 0021 #cA #cObject 0000 0000 0001 0009 #m #(IJ)V 0001 #Code 0000000d 0001 0002 00000001 b1 0000 0000 0000
yes a handler of everything; 00000034 0021 #cA #cObject 0000 0000 0001 0001 #m #()V 0001 #Code 00000017 0001 0001 00000003 00 00 b1 0001 0000 0001 0002 0000 0000 0000
yes a handler of a class, up to the end; 00000034 0021 #cA #cObject 0000 0000 0001 0001 #m #()V 0001 #Code 00000017 0001 0001 00000003 00 00 b1 0001 0002 0003 0000 #cA 0000 0000
yes a handler of an array; 00000034 0021 #cA #cObject 0000 0000 0001 0001 #m #()V 0001 #Code 00000017 0001 0001 00000003 00 00 b1 0001 0000 0003 0001 #cArray 0000 0000
yes two handlers alike; 00000034 0021 #cA #cObject 0000 0000 0001 0001 #m #()V 0001 #Code 0000001f 0001 0001 00000003 00 00 b1 0002 0000 0003 0001 0000 0000 0003 0001 0000 0000 0000
no a handler of an empty range; 00000034 0021 #cA #cObject 0000 0000 0001 0001 #m #()V 0001 #Code 00000017 0001 0001 00000003 00 00 b1 0001 0001 0001 0002 0000 0000 0000
no a handler whose range ends before it starts; 00000034 0021 #cA #cObject 0000 0000 0001 0001 #m #()V 0001 #Code 00000017 0001 0001 00000003 00 00 b1 0001 0002 0001 0002 0000 0000 0000
no a handler whose range ends past the code; 00000034 0021 #cA #cObject 0000 0000 0001 0001 #m #()V 0001 #Code 00000017 0001 0001 00000003 00 00 b1 0001 0000 0004 0002 0000 0000 0000
no a handler at the end of the code; 00000034 0021 #cA #cObject 0000 0000 0001 0001 #m #()V 0001 #Code 00000017 0001 0001 00000003 00 00 b1 0001 0000 0001 0003 0000 0000 0000
no a handler of a text; 00000034 0021 #cA #cObject 0000 0000 0001 0001 #m #()V 0001 #Code 00000017 0001 0001 00000003 00 00 b1 0001 0000 0001 0002 #A 0000 0000
no a handler of a class past the pool; 00000034 0021 #cA #cObject 0000 0000 0001 0001 #m #()V 0001 #Code 00000017 0001 0001 00000003 00 00 b1 0001 0000 0001 0002 ffff 0000 0000
no a second handler that is none; 00000034 0021 #cA #cObject 0000 0000 0001 0001 #m #()V 0001 #Code 0000001f 0001 0001 00000003 00 00 b1 0002 0000 0001 0002 0000 0003 0003 0002 0000 0000 0000
yes a StackMapTable of any bytes; 00000034 0021 #cA #cObject 0000 0000 0001 0001 #m #()V 0001 #Code 00000014 0001 0001 00000001 b1 0000 0001 #StackMapTable 00000001 ff 0000
no two StackMapTables; 00000034 0021 #cA #cObject 0000 0000 0001 0001 #m #()V 0001 #Code 0000001d 0001 0001 00000001 b1 0000 0002 #StackMapTable 00000002 0000 #StackMapTable 00000002 0000 0000
yes other attributes of a code; 00000034 0021 #cA #cObject 0000 0000 0001 0001 #m #()V 0001 #Code 00000026 0001 0001 00000001 b1 0000 0004 #Other 00000001 00 #Other 00000000 #Code 00000000 #ConstantValue 00000000 0000
yes a protected method; 00000034 0021 #cA #cObject 0000 0000 0001 0004 #m #()V 0001 #Code 0000000d 0001 0001 00000001 b1 0000 0000 0000
yes a private method; 00000034 0021 #cA #cObject 0000 0000 0001 0002 #m #()V 0001 #Code 0000000d 0001 0001 00000001 b1 0000 0000 0000
no a method of an interface at 50 that is static, with code; 00000032 0601 #cA #cObject 0000 0000 0001 0009 #m #()V 0001 #Code 0000000d 0001 0001 00000001 b1 0000 0000 0000
no a method of an interface at 50 that is private, with code; 00000032 0601 #cA #cObject 0000 0000 0001 0002 #m #()V 0001 #Code 0000000d 0001 0001 00000001 b1 0000 0000 0000
no a method of an interface at 50 that is native; 00000032 0601 #cA #cObject 0000 0000 0001 0101 #m #()V 0000 0000
no a method of an interface at 50 that is protected; 00000032 0601 #cA #cObject 0000 0000 0001 0404 #m #()V 0000 0000
no a method of an interface at 51 that is native; 00000033 0601 #cA #cObject 0000 0000 0001 0101 #m #()V 0000 0000
no a method of an interface at 51 that is protected; 00000033 0601 #cA #cObject 0000 0000 0001 0404 #m #()V 0000 0000
no a method of an interface at 50 that is not public; 00000032 0601 #cA #cObject 0000 0000 0001 0400 #m #()V 0000 0000
yes an abstract method of an interface at 51 with each other bit; 00000033 0601 #cA #cObject 0000 0000 0001 f6c1 #m #()V 0000 0000
yes a method of an interface at 52 with each other bit; 00000034 0601 #cA #cObject 0000 0000 0001 fac1 #m #()V 0001 #Code 0000000d 0001 0001 00000001 b1 0000 0000 0000
yes a private static method of an interface at 52; 00000034 0601 #cA #cObject 0000 0000 0001 000a #m #()V 0001 #Code 0000000d 0001 0001 00000001 b1 0000 0000 0000
yes a class initializer of a class at 50; 00000032 0021 #cA #cObject 0000 0000 0001 0008 #<clinit> #()V 0001 #Code 0000000d 0000 0000 00000001 b1 0000 0000 0000
no a class initializer at 50 with another type; 00000032 0021 #cA #cObject 0000 0000 0001 0008 #<clinit> #()I 0001 #Code 0000000d 0001 0001 00000001 b1 0000 0000 0000
yes a class initializer of a class at 51; 00000033 0021 #cA #cObject 0000 0000 0001 0008 #<clinit> #()V 0001 #Code 0000000d 0000 0000 00000001 b1 0000 0000 0000
no a class initializer at 51 with another type; 00000033 0021 #cA #cObject 0000 0000 0001 0008 #<clinit> #()I 0001 #Code 0000000d 0001 0001 00000001 b1 0000 0000 0000
no a class initializer at 51 that is not static; 00000033 0021 #cA #cObject 0000 0000 0001 0000 #<clinit> #()V 0001 #Code 0000000d 0001 0001 00000001 b1 0000 0000 0000
no a class initializer of an interface that is not static; 00000034 0601 #cA #cObject 0000 0000 0001 0000 #<clinit> #()V 0001 #Code 0000000d 0001 0001 00000001 b1 0000 0000 0000
no a name of a method with a greater-than sign; 00000034 0021 #cA #cObject 0000 0000 0001 0100 #a>b #()V 0000 0000
yes a name of a field with a greater-than sign; 00000034 0021 #cA #cObject 0000 0001 0000 #a>b #I 0000 0000 0000
no a constant of I at double; 00000034 0021 #cA #cObject 0000 0001 0008 #f #I 0001 #ConstantValue 00000002 #double 0000 0000
no a constant of S at float; 00000034 0021 #cA #cObject 0000 0001 0008 #f #S 0001 #ConstantValue 00000002 #float 0000 0000
no a constant of S at long; 00000034 0021 #cA #cObject 0000 0001 0008 #f #S 0001 #ConstantValue 00000002 #long 0000 0000
no a constant of S at double; 00000034 0021 #cA #cObject 0000 0001 0008 #f #S 0001 #ConstantValue 00000002 #double 0000 0000
no a constant of S at str; 00000034 0021 #cA #cObject 0000 0001 0008 #f #S 0001 #ConstantValue 00000002 #str 0000 0000
no a constant of C at float; 00000034 0021 #cA #cObject 0000 0001 0008 #f #C 0001 #ConstantValue 00000002 #float 0000 0000
no a constant of C at long; 00000034 0021 #cA #cObject 0000 0001 0008 #f #C 0001 #ConstantValue 00000002 #long 0000 0000
no a constant of C at double; 00000034 0021 #cA #cObject 0000 0001 0008 #f #C 0001 #ConstantValue 00000002 #double 0000 0000
no a constant of C at str; 00000034 0021 #cA #cObject 0000 0001 0008 #f #C 0001 #ConstantValue 00000002 #str 0000 0000
no a constant of B at float; 00000034 0021 #cA #cObject 0000 0001 0008 #f #B 0001 #ConstantValue 00000002 #float 0000 0000
no a constant of B at long; 00000034 0021 #cA #cObject 0000 0001 0008 #f #B 0001 #ConstantValue 00000002 #long 0000 0000
no a constant of B at double; 00000034 0021 #cA #cObject 0000 0001 0008 #f #B 0001 #ConstantValue 00000002 #double 0000 0000
no a constant of B at str; 00000034 0021 #cA #cObject 0000 0001 0008 #f #B 0001 #ConstantValue 00000002 #str 0000 0000
no a constant of Z at float; 00000034 0021 #cA #cObject 0000 0001 0008 #f #Z 0001 #ConstantValue 00000002 #float 0000 0000
no a constant of Z at double; 00000034 0021 #cA #cObject 0000 0001 0008 #f #Z 0001 #ConstantValue 00000002 #double 0000 0000
no a constant of Z at str; 00000034 0021 #cA #cObject 0000 0001 0008 #f #Z 0001 #ConstantValue 00000002 #str 0000 0000
no a constant of J at float; 00000034 0021 #cA #cObject 0000 0001 0008 #f #J 0001 #ConstantValue 00000002 #float 0000 0000
no a constant of J at str; 00000034 0021 #cA #cObject 0000 0001 0008 #f #J 0001 #ConstantValue 00000002 #str 0000 0000
no a constant of F at long; 00000034 0021 #cA #cObject 0000 0001 0008 #f #F 0001 #ConstantValue 00000002 #long 0000 0000
no a constant of F at str; 00000034 0021 #cA #cObject 0000 0001 0008 #f #F 0001 #ConstantValue 00000002 #str 0000 0000
no a constant of D at int; 00000034 0021 #cA #cObject 0000 0001 0008 #f #D 0001 #ConstantValue 00000002 #int 0000 0000
no a constant of D at str; 00000034 0021 #cA #cObject 0000 0001 0008 #f #D 0001 #ConstantValue 00000002 #str 0000 0000
no a constant of String at float; 00000034 0021 #cA #cObject 0000 0001 0008 #f #String 0001 #ConstantValue 00000002 #float 0000 0000
no a constant of String at long; 00000034 0021 #cA #cObject 0000 0001 0008 #f #String 0001 #ConstantValue 00000002 #long 0000 0000
no a constant of String at double; 00000034 0021 #cA #cObject 0000 0001 0008 #f #String 0001 #ConstantValue 00000002 #double 0000 0000
no three constants; 00000034 0021 #cA #cObject 0000 0001 0008 #f #I 0003 #ConstantValue 00000002 #int #ConstantValue 00000002 #int #ConstantValue 00000002 #int 0000 0000
no three codes; 00000034 0021 #cA #cObject 0000 0000 0001 0001 #m #()V 0003 #Code 0000000d 0001 0001 00000001 b1 0000 0000 #Code 0000000d 0001 0001 00000001 b1 0000 0000 #Code 0000000d 0001 0001 00000001 b1 0000 0000 0000
yes a field of an interface with each other bit; 00000034 0601 #cA #cObject 0000 0001 ffb9 #f #I 0000 0000 0000
no a field of an interface at 50 that is not final; 00000032 0601 #cA #cObject 0000 0001 0009 #f #I 0000 0000 0000
no a field of an interface at 51 that is not final; 00000033 0601 #cA #cObject 0000 0001 0009 #f #I 0000 0000 0000
yes an interface with each other bit; 00000034 ffef #cA #cObject 0000 0000 0000 0000
yes four locals for a double of a static method, one to spare; 00000034 0021 #cA #cObject 0000 0000 0001 0009 #m #(DI)V 0001 #Code 0000000d 0001 0004 00000001 b1 0000 0000 0000
yes three locals for a double and an int of a static method; 00000034 0021 #cA #cObject 0000 0000 0001 0009 #m #(DI)V 0001 #Code 0000000d 0001 0003 00000001 b1 0000 0000 0000
no two locals for a double and an int of a static method; 00000034 0021 #cA #cObject 0000 0000 0001 0009 #m #(DI)V 0001 #Code 0000000d 0001 0002 00000001 b1 0000 0000 0000
1.50 a minor version of 50; 00010032 0021 #cA #cObject 0000 0000 0000 0000
0.53 a later version; 00000035 0021 #cA #cObject 0000 0000 0000 0000
0.49 an earlier version; 00000031 0021 #cA #cObject 0000 0000 0000 0000
0.61 a later version, and nothing of a class behind it; 0000003d
0.55 a later version, and a byte behind the class; 00000037 0021 #cA #cObject 0000 0000 0000 0000 00
0.0 version 0; 00000000
0.65535 the greatest version; 0000ffff
1.52 a minor version; 00010034 0021 #cA #cObject 0000 0000 0000 0000
3.51 version 51 with a minor version; 00030033 0021 #cA #cObject 0000 0000 0000 0000
3.45 version 45.3; 0003002d 0021 #cA #cObject 0000 0000 0000 0000
52.0 versions 52 and 0 in the other order; 00340000 0021 #cA #cObject 0000 0000 0000 0000";

/// What is read of HELLO where one byte is another: a line each for 0, 1, 255 and one more than it was, with a letter for
/// each byte, which is `y` for a class, `n` for none and `v` for another version.
pub static CHANGED: &str =
    "bytes that are 0 = nnnnyyyvynnynynnynynnynnynynnynnynnynnnnnnnnynnnnnynnnnnnynnnnnnnnnnnnnnnnnynnnnnnynnnnnnnnnnnnnnnnnnnnnnnnynnnnnnnnnnnnynnnnnnnnnnnnynynnynnynynnynnnnnnnynnynynnynnnnnnnnnnnnnnnnnnynnnnnnnnnnnnnnnnnnynnnnnynnnnnnnnnnnnnnnnnnnnnnnynnnnnnnnnnnnnnnnnnnnnynnnnnnnnnynnnnnnnnnnnnnnnnnnnnnnyyynynyyyyynyyynynynynyyynyyynyyynyyyyyyyynynyyynyyyyyyynynynynynyyynyyynyyynyyyyyyyyyyyynynyyynyyyyyyyyyyynynyyynyy
bytes that are 1 = nnnnvvvvnnnnnnnnnnnnnnnnnnnnnnnnnnynnnnnnnnynnnnnynnnnnnynnyyyyyyyyyyyyyyyynnyyyyynnnnnyyyyyyyyyyyyyyyynnnynnyyyyyyyyyyynnyyyyyyyyyynnnnnnnnnnnnnynnyyyyynnnnnnnnynnyyyyyyyyyyyyyyyyynnyyyyyyyyyyyyyyyyynnyyyynnnyyyyyyyyyyyyyyyyyyynynnyyyyyyyyyyyyyyyyyyyynnyyyyyyyynnnnyyyyyyyyyyyyyyyynnnyynnnnnnnnnnnynnnnnynnnnnnyyyynnnnyyyyynnnynnnnnnyyyyyynnnnnnnynnnnnnyyyynnnnyyyyyyyyynnnynnnnnnyyyyyyyyyynynnnnnnyy
bytes that are 255 = nnnnvvvvnnnnnnnnnnnnnnnnnnnnnnnnnnnnnnnnnnnnnnnnnnnnnnnnnnnnnnnnnnnnnnnnnnnnnnnnnnnnnnnnnnnnnnnnnnnnnnnnnnnnnnnnnnnnnnnnnnnnnnnnnnnnnnnnnnnnnnnnnnnnnnnnnnnnnnnnnnnnnnnnnnnnnnnnnnnnnnnnnnnnnnnnnnnnnnnnnnnnnnnnnnnnnnnnnnnnnnnnnnnnnnnnnnnnnnnnnnnnnnnnnnnnnnnnnnnnnnnnnnnnnnnnnnnnnnnnnnnnnnynnnnnnnnnnnnnnnnnnnnnnnnyyyynnnnyyyyynnnnnnnnnnyyyyyynnnnnnnnnnnnnnyyyynnnnyyyyyyyyynnnnnnnnnnyyyyyyyyyynnnnnnnnyy
bytes that are one more = nnnnvvvvnnynnnnnnnnnnnnynnnnnnnnnynnnnnnnnnnnnnnnnnnnnnnnnnyyyyyyyyyyyyyyynnnyyyynnnnnnyyyyyyyyyyyyyyyynnnnnnyyyyyyyyyynnnyyyyyyyyyynnynnnnynnnnnnnnyyyyynnynnnnnnnnyyyyyyyyyyyyyyyynnnyyyyyyyyyyyyyyyynnnyyynnnnyyyyyyyyyyyyyyyyyyynnnnyyyyyyyyyyyyyyyyyyynnnyyyyyyynnnnnyyyyyyyyyyyyyyyynnnyynnnnnnnnnnnynynnnnnnnnnnyyyynnnnyyyyynnnnnynnnnyyyyyynynnnnnnnnnnnnyyyynnnnyyyyyyyyynnnnnynnnnyyyyyyyyyynnnynnnnyy";
