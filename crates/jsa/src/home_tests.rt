// Whole runs over homes, and the making of homes.
use crate::command_rows::wrong_rows;
use std::test::Fail;

// Each listed name has a class file with a byte at least.
static HOME: &str = "\
run --make-home h = 0||
reads = read
count h = 54
same h/boot/java/lang/Object.class h/boot/java/lang/Object.class = yes
same h/boot/java/io/Serializable.class h/boot/java/io/Serializable.class = yes
same h/boot/java/lang/Cloneable.class h/boot/java/lang/Cloneable.class = yes
same h/boot/java/lang/Comparable.class h/boot/java/lang/Comparable.class = yes
same h/boot/java/lang/CharSequence.class h/boot/java/lang/CharSequence.class = yes
same h/boot/java/lang/String.class h/boot/java/lang/String.class = yes
same h/boot/java/lang/Class.class h/boot/java/lang/Class.class = yes
same h/boot/java/lang/Throwable.class h/boot/java/lang/Throwable.class = yes
same h/boot/java/lang/Error.class h/boot/java/lang/Error.class = yes
same h/boot/java/lang/Exception.class h/boot/java/lang/Exception.class = yes
same h/boot/java/lang/RuntimeException.class h/boot/java/lang/RuntimeException.class = yes
same h/boot/java/lang/LinkageError.class h/boot/java/lang/LinkageError.class = yes
same h/boot/java/lang/NoClassDefFoundError.class h/boot/java/lang/NoClassDefFoundError.class = yes
same h/boot/java/lang/ClassFormatError.class h/boot/java/lang/ClassFormatError.class = yes
same h/boot/java/lang/UnsupportedClassVersionError.class h/boot/java/lang/UnsupportedClassVersionError.class = yes
same h/boot/java/lang/ClassCircularityError.class h/boot/java/lang/ClassCircularityError.class = yes
same h/boot/java/lang/IncompatibleClassChangeError.class h/boot/java/lang/IncompatibleClassChangeError.class = yes
same h/boot/java/lang/AbstractMethodError.class h/boot/java/lang/AbstractMethodError.class = yes
same h/boot/java/lang/IllegalAccessError.class h/boot/java/lang/IllegalAccessError.class = yes
same h/boot/java/lang/InstantiationError.class h/boot/java/lang/InstantiationError.class = yes
same h/boot/java/lang/NoSuchFieldError.class h/boot/java/lang/NoSuchFieldError.class = yes
same h/boot/java/lang/NoSuchMethodError.class h/boot/java/lang/NoSuchMethodError.class = yes
same h/boot/java/lang/UnsatisfiedLinkError.class h/boot/java/lang/UnsatisfiedLinkError.class = yes
same h/boot/java/lang/VerifyError.class h/boot/java/lang/VerifyError.class = yes
same h/boot/java/lang/ExceptionInInitializerError.class h/boot/java/lang/ExceptionInInitializerError.class = yes
same h/boot/java/lang/VirtualMachineError.class h/boot/java/lang/VirtualMachineError.class = yes
same h/boot/java/lang/OutOfMemoryError.class h/boot/java/lang/OutOfMemoryError.class = yes
same h/boot/java/lang/StackOverflowError.class h/boot/java/lang/StackOverflowError.class = yes
same h/boot/java/lang/ArithmeticException.class h/boot/java/lang/ArithmeticException.class = yes
same h/boot/java/lang/IndexOutOfBoundsException.class h/boot/java/lang/IndexOutOfBoundsException.class = yes
same h/boot/java/lang/ArrayIndexOutOfBoundsException.class h/boot/java/lang/ArrayIndexOutOfBoundsException.class = yes
same h/boot/java/lang/StringIndexOutOfBoundsException.class h/boot/java/lang/StringIndexOutOfBoundsException.class = yes
same h/boot/java/lang/ArrayStoreException.class h/boot/java/lang/ArrayStoreException.class = yes
same h/boot/java/lang/ClassCastException.class h/boot/java/lang/ClassCastException.class = yes
same h/boot/java/lang/NegativeArraySizeException.class h/boot/java/lang/NegativeArraySizeException.class = yes
same h/boot/java/lang/NullPointerException.class h/boot/java/lang/NullPointerException.class = yes
same h/boot/java/lang/IllegalMonitorStateException.class h/boot/java/lang/IllegalMonitorStateException.class = yes
same h/boot/java/lang/CloneNotSupportedException.class h/boot/java/lang/CloneNotSupportedException.class = yes
same h/boot/java/lang/System.class h/boot/java/lang/System.class = yes
same h/boot/java/io/PrintStream.class h/boot/java/io/PrintStream.class = yes
same h/boot/java/lang/StringBuilder.class h/boot/java/lang/StringBuilder.class = yes
same h/boot/java/lang/Number.class h/boot/java/lang/Number.class = yes
same h/boot/java/lang/Integer.class h/boot/java/lang/Integer.class = yes
same h/boot/java/lang/Long.class h/boot/java/lang/Long.class = yes
same h/boot/java/lang/Character.class h/boot/java/lang/Character.class = yes
same h/boot/java/lang/Boolean.class h/boot/java/lang/Boolean.class = yes
same h/boot/java/lang/Math.class h/boot/java/lang/Math.class = yes
same h/boot/java/lang/Enum.class h/boot/java/lang/Enum.class = yes
same h/boot/java/lang/Runnable.class h/boot/java/lang/Runnable.class = yes
same h/boot/java/lang/IllegalArgumentException.class h/boot/java/lang/IllegalArgumentException.class = yes
same h/boot/java/lang/NumberFormatException.class h/boot/java/lang/NumberFormatException.class = yes
same h/boot/java/lang/IllegalStateException.class h/boot/java/lang/IllegalStateException.class = yes
same h/boot/java/lang/UnsupportedOperationException.class h/boot/java/lang/UnsupportedOperationException.class = yes
same h/boot/jsa/Out.class h/boot/jsa/Out.class = yes
file h/classlist = java/lang/Object~java/io/Serializable~java/lang/Cloneable~java/lang/Comparable~java/lang/CharSequence~java/lang/String~java/lang/Class~java/lang/Throwable~java/lang/Error~java/lang/Exception~java/lang/RuntimeException~java/lang/LinkageError~java/lang/NoClassDefFoundError~java/lang/ClassFormatError~java/lang/UnsupportedClassVersionError~java/lang/ClassCircularityError~java/lang/IncompatibleClassChangeError~java/lang/AbstractMethodError~java/lang/IllegalAccessError~java/lang/InstantiationError~java/lang/NoSuchFieldError~java/lang/NoSuchMethodError~java/lang/UnsatisfiedLinkError~java/lang/VerifyError~java/lang/ExceptionInInitializerError~java/lang/VirtualMachineError~java/lang/OutOfMemoryError~java/lang/StackOverflowError~java/lang/ArithmeticException~java/lang/IndexOutOfBoundsException~java/lang/ArrayIndexOutOfBoundsException~java/lang/StringIndexOutOfBoundsException~java/lang/ArrayStoreException~java/lang/ClassCastException~java/lang/NegativeArraySizeException~java/lang/NullPointerException~java/lang/IllegalMonitorStateException~java/lang/CloneNotSupportedException~java/lang/System~java/io/PrintStream~java/lang/StringBuilder~java/lang/Number~java/lang/Integer~java/lang/Long~java/lang/Character~java/lang/Boolean~java/lang/Math~java/lang/Enum~java/lang/Runnable~java/lang/IllegalArgumentException~java/lang/NumberFormatException~java/lang/IllegalStateException~java/lang/UnsupportedOperationException~jsa/Out~
run --home=h -XX:DumpLoadedClassList=l.txt -cp app E = 4||no main in E~
size l.txt = none
new
run --home=none -cp app E = 3||no boot class java/lang/Object~
reads = read";

// A call of the making of a home fails: how many class files and which bytes of the list it leaves. The classes before the
// call are those of a home that is made after it.
static UNMADE: &str = "\
new
fail 1 0
run --make-home h = 12||write fault~
count h = 1
file h/classlist = none
new
fail 2 3
run --make-home h = 12||write fault~
count h = 2
file h/classlist = none
run --make-home g = 0||
same h/boot/java/lang/Object.class g/boot/java/lang/Object.class = yes
new
fail 55 10
run --make-home h = 12||write fault~
count h = 54
file h/classlist = java/lang/
run --make-home g = 0||
same h/boot/java/lang/Object.class g/boot/java/lang/Object.class = yes
same h/boot/java/io/Serializable.class g/boot/java/io/Serializable.class = yes
same h/boot/java/lang/Cloneable.class g/boot/java/lang/Cloneable.class = yes
same h/boot/java/lang/Comparable.class g/boot/java/lang/Comparable.class = yes
same h/boot/java/lang/CharSequence.class g/boot/java/lang/CharSequence.class = yes
same h/boot/java/lang/String.class g/boot/java/lang/String.class = yes
same h/boot/java/lang/Class.class g/boot/java/lang/Class.class = yes
same h/boot/java/lang/Throwable.class g/boot/java/lang/Throwable.class = yes
same h/boot/java/lang/Error.class g/boot/java/lang/Error.class = yes
same h/boot/java/lang/Exception.class g/boot/java/lang/Exception.class = yes
same h/boot/java/lang/RuntimeException.class g/boot/java/lang/RuntimeException.class = yes
same h/boot/java/lang/LinkageError.class g/boot/java/lang/LinkageError.class = yes
same h/boot/java/lang/NoClassDefFoundError.class g/boot/java/lang/NoClassDefFoundError.class = yes
same h/boot/java/lang/ClassFormatError.class g/boot/java/lang/ClassFormatError.class = yes
same h/boot/java/lang/UnsupportedClassVersionError.class g/boot/java/lang/UnsupportedClassVersionError.class = yes
same h/boot/java/lang/ClassCircularityError.class g/boot/java/lang/ClassCircularityError.class = yes
same h/boot/java/lang/IncompatibleClassChangeError.class g/boot/java/lang/IncompatibleClassChangeError.class = yes
same h/boot/java/lang/AbstractMethodError.class g/boot/java/lang/AbstractMethodError.class = yes
same h/boot/java/lang/IllegalAccessError.class g/boot/java/lang/IllegalAccessError.class = yes
same h/boot/java/lang/InstantiationError.class g/boot/java/lang/InstantiationError.class = yes
same h/boot/java/lang/NoSuchFieldError.class g/boot/java/lang/NoSuchFieldError.class = yes
same h/boot/java/lang/NoSuchMethodError.class g/boot/java/lang/NoSuchMethodError.class = yes
same h/boot/java/lang/UnsatisfiedLinkError.class g/boot/java/lang/UnsatisfiedLinkError.class = yes
same h/boot/java/lang/VerifyError.class g/boot/java/lang/VerifyError.class = yes
same h/boot/java/lang/ExceptionInInitializerError.class g/boot/java/lang/ExceptionInInitializerError.class = yes
same h/boot/java/lang/VirtualMachineError.class g/boot/java/lang/VirtualMachineError.class = yes
same h/boot/java/lang/OutOfMemoryError.class g/boot/java/lang/OutOfMemoryError.class = yes
same h/boot/java/lang/StackOverflowError.class g/boot/java/lang/StackOverflowError.class = yes
same h/boot/java/lang/ArithmeticException.class g/boot/java/lang/ArithmeticException.class = yes
same h/boot/java/lang/IndexOutOfBoundsException.class g/boot/java/lang/IndexOutOfBoundsException.class = yes
same h/boot/java/lang/ArrayIndexOutOfBoundsException.class g/boot/java/lang/ArrayIndexOutOfBoundsException.class = yes
same h/boot/java/lang/StringIndexOutOfBoundsException.class g/boot/java/lang/StringIndexOutOfBoundsException.class = yes
same h/boot/java/lang/ArrayStoreException.class g/boot/java/lang/ArrayStoreException.class = yes
same h/boot/java/lang/ClassCastException.class g/boot/java/lang/ClassCastException.class = yes
same h/boot/java/lang/NegativeArraySizeException.class g/boot/java/lang/NegativeArraySizeException.class = yes
same h/boot/java/lang/NullPointerException.class g/boot/java/lang/NullPointerException.class = yes
same h/boot/java/lang/IllegalMonitorStateException.class g/boot/java/lang/IllegalMonitorStateException.class = yes
same h/boot/java/lang/CloneNotSupportedException.class g/boot/java/lang/CloneNotSupportedException.class = yes
same h/boot/java/lang/System.class g/boot/java/lang/System.class = yes
same h/boot/java/io/PrintStream.class g/boot/java/io/PrintStream.class = yes
same h/boot/java/lang/StringBuilder.class g/boot/java/lang/StringBuilder.class = yes
same h/boot/java/lang/Number.class g/boot/java/lang/Number.class = yes
same h/boot/java/lang/Integer.class g/boot/java/lang/Integer.class = yes
same h/boot/java/lang/Long.class g/boot/java/lang/Long.class = yes
same h/boot/java/lang/Character.class g/boot/java/lang/Character.class = yes
same h/boot/java/lang/Boolean.class g/boot/java/lang/Boolean.class = yes
same h/boot/java/lang/Math.class g/boot/java/lang/Math.class = yes
same h/boot/java/lang/Enum.class g/boot/java/lang/Enum.class = yes
same h/boot/java/lang/Runnable.class g/boot/java/lang/Runnable.class = yes
same h/boot/java/lang/IllegalArgumentException.class g/boot/java/lang/IllegalArgumentException.class = yes
same h/boot/java/lang/NumberFormatException.class g/boot/java/lang/NumberFormatException.class = yes
same h/boot/java/lang/IllegalStateException.class g/boot/java/lang/IllegalStateException.class = yes
same h/boot/java/lang/UnsupportedOperationException.class g/boot/java/lang/UnsupportedOperationException.class = yes
same h/boot/jsa/Out.class g/boot/jsa/Out.class = yes";

// ---- runs and their lists

static LISTS: &str = "\
run --make-home h = 0||
put app/Main.class SUM
run --home=h -XX:DumpLoadedClassList=l.txt -cp app Main = 0|42~|
reads = read 1 2 3 4 5 6 7 8 9 10 11 12 13 14 15 16 17 18 19 20 21 22 23 24 25 26 27 28 29 30 31 32 33 34 35 36 37 38 app/Main.class
file l.txt = java/lang/Object~java/io/Serializable~java/lang/Cloneable~java/lang/Comparable~java/lang/CharSequence~java/lang/String~java/lang/Class~java/lang/Throwable~java/lang/Error~java/lang/Exception~java/lang/RuntimeException~java/lang/LinkageError~java/lang/NoClassDefFoundError~java/lang/ClassFormatError~java/lang/UnsupportedClassVersionError~java/lang/ClassCircularityError~java/lang/IncompatibleClassChangeError~java/lang/AbstractMethodError~java/lang/IllegalAccessError~java/lang/InstantiationError~java/lang/NoSuchFieldError~java/lang/NoSuchMethodError~java/lang/UnsatisfiedLinkError~java/lang/VerifyError~java/lang/ExceptionInInitializerError~java/lang/VirtualMachineError~java/lang/OutOfMemoryError~java/lang/StackOverflowError~java/lang/ArithmeticException~java/lang/IndexOutOfBoundsException~java/lang/ArrayIndexOutOfBoundsException~java/lang/StringIndexOutOfBoundsException~java/lang/ArrayStoreException~java/lang/ClassCastException~java/lang/NegativeArraySizeException~java/lang/NullPointerException~java/lang/IllegalMonitorStateException~java/lang/CloneNotSupportedException~Main~
new
run --make-home h = 0||
put app/Main.class SUM
run -XX:DumpLoadedClassList=l.txt -cp app --home=h --steps=8 Main = 8|42~|stopped after 8 steps~
size l.txt = none
run -XX:DumpLoadedClassList=l.txt -cp app --home=h --steps=9 Main = 0|42~|
size l.txt = 1086
new
run --make-home h = 0||
put app/Main.class SHIFTS
run -XX:DumpLoadedClassList=l.txt -cp app --home=h Main = 0|2147483647~|
size l.txt = 1086
new
run --make-home h = 0||
put app/Main.class DIVIDES
run -XX:DumpLoadedClassList=l.txt -cp app --home=h Main = 9||unsupported Main~
size l.txt = none
new
run --make-home h = 0||
run -XX:DumpLoadedClassList=l.txt -cp app --home=h Main = 4||no main in Main~
size l.txt = none
put app/Main.class SUM
run -XX:DumpLoadedClassList=l.txt -cp app --home=none Main = 3||no boot class java/lang/Object~
size l.txt = none
new
run --make-home jsa-home = 0||
put ./Main.class SUM
run Main = 0|42~|
reads = read jsa-home/boot/java/lang/Object.class jsa-home/boot/java/io/Serializable.class jsa-home/boot/java/lang/Cloneable.class jsa-home/boot/java/lang/Comparable.class jsa-home/boot/java/lang/CharSequence.class jsa-home/boot/java/lang/String.class jsa-home/boot/java/lang/Class.class jsa-home/boot/java/lang/Throwable.class jsa-home/boot/java/lang/Error.class jsa-home/boot/java/lang/Exception.class jsa-home/boot/java/lang/RuntimeException.class jsa-home/boot/java/lang/LinkageError.class jsa-home/boot/java/lang/NoClassDefFoundError.class jsa-home/boot/java/lang/ClassFormatError.class jsa-home/boot/java/lang/UnsupportedClassVersionError.class jsa-home/boot/java/lang/ClassCircularityError.class jsa-home/boot/java/lang/IncompatibleClassChangeError.class jsa-home/boot/java/lang/AbstractMethodError.class jsa-home/boot/java/lang/IllegalAccessError.class jsa-home/boot/java/lang/InstantiationError.class jsa-home/boot/java/lang/NoSuchFieldError.class jsa-home/boot/java/lang/NoSuchMethodError.class jsa-home/boot/java/lang/UnsatisfiedLinkError.class jsa-home/boot/java/lang/VerifyError.class jsa-home/boot/java/lang/ExceptionInInitializerError.class jsa-home/boot/java/lang/VirtualMachineError.class jsa-home/boot/java/lang/OutOfMemoryError.class jsa-home/boot/java/lang/StackOverflowError.class jsa-home/boot/java/lang/ArithmeticException.class jsa-home/boot/java/lang/IndexOutOfBoundsException.class jsa-home/boot/java/lang/ArrayIndexOutOfBoundsException.class jsa-home/boot/java/lang/StringIndexOutOfBoundsException.class jsa-home/boot/java/lang/ArrayStoreException.class jsa-home/boot/java/lang/ClassCastException.class jsa-home/boot/java/lang/NegativeArraySizeException.class jsa-home/boot/java/lang/NullPointerException.class jsa-home/boot/java/lang/IllegalMonitorStateException.class jsa-home/boot/java/lang/CloneNotSupportedException.class ./Main.class";

// ---- the words of runs

// Without an archive a run goes over the home, whatever -Xshare says, and so does one with -Xshare:off beside an archive:
// a.jsa is none, and the runs that use it say so.
static SHARING: &str = "\
run --make-home h = 0||
put app/Main.class SUM
text a.jsa none
run --home=h -Xshare:auto -cp app Main = 0|42~|
reads = read 1 2 3 4 5 6 7 8 9 10 11 12 13 14 15 16 17 18 19 20 21 22 23 24 25 26 27 28 29 30 31 32 33 34 35 36 37 38 app/Main.class
run --home=h -Xshare:on -cp app Main = 0|42~|
run --home=h -Xshare:off -cp app Main = 0|42~|
run -cp app -Xshare:auto --home=none Main = 3||no boot class java/lang/Object~
run -Xshare:on -cp app Main = 3||no boot class java/lang/Object~
run -Xshare:off -cp app Main = 3||no boot class java/lang/Object~
run --home=h -Xshare:off -XX:SharedArchiveFile=a.jsa -cp none:app Main = 0|42~|
run -XX:SharedArchiveFile=a.jsa -Xshare:off --home=h -cp app Main = 0|42~|
run -XX:SharedArchiveFile=a.jsa -Xshare:on -cp app Main = 6||not shared a.jsa: short~
run -XX:SharedArchiveFile=a.jsa -cp app Main = 0|42~|
run -XX:SharedArchiveFile=a.jsa -Xshare:on --home=h -cp app Main = 2||usage~
run -XX:SharedArchiveFile=a.jsa --home=h -cp app Main = 2||usage~";

// A class whose name has characters above U+FFFF: its file's path is in UTF-8, and what it is called inside in modified
// UTF-8.
static WIDE_NAMES: &str = "\
run --make-home h = 0||
text t.txt class 0x0021 p/\u{1f600} java/lang/Object~method 0x0108 put (I)V~method 0x0009 main ([Ljava/lang/String;)V~code 1 1~bipush 6~invokestatic p/\u{1f600} put (I)V~return~end
run --asm t.txt app = 0||
size app/p/\u{1f600}.class = 162
run --home=h -XX:DumpLoadedClassList=l.txt -cp app p.\u{1f600} = 0|6~|
run --home=h -cp app p/\u{1f600} = 0|6~|
run --home=h -cp app p.\u{1f601} = 4||no main in p/\u{ed}\u{a0}\u{bd}\u{ed}\u{b8}\u{81}~";

// ---- what is found

// Classes that put their numbers, and a run.
static FOUND: &str = "\
new app Main 6
run --make-home h = 0||
text t.txt class 0x0021 Main java/lang/Object~method 0x0108 put (I)V~method 0x0009 main ([Ljava/lang/String;)V~code 1 1~bipush 6~invokestatic Main put (I)V~return~end
run --asm t.txt app = 0||
run --home=h -cp app Main = 0|6~|
new app Main 6
run --make-home h = 0||
text t.txt class 0x0021 Main java/lang/Object~method 0x0108 put (I)V~method 0x0009 main ([Ljava/lang/String;)V~code 1 1~bipush 6~invokestatic Main put (I)V~return~end
run --asm t.txt app = 0||
run --home=h -classpath app Main = 0|6~|
new app java/lang/Mine 6
run --make-home h = 0||
text t.txt class 0x0021 java/lang/Mine java/lang/Object~method 0x0108 put (I)V~method 0x0009 main ([Ljava/lang/String;)V~code 1 1~bipush 6~invokestatic java/lang/Mine put (I)V~return~end
run --asm t.txt app = 0||
run --home=h -cp app java.lang.Mine = 4||no main in java/lang/Mine~
new h/platform java/lang/Mine 6
run --make-home h = 0||
text t.txt class 0x0021 java/lang/Mine java/lang/Object~method 0x0108 put (I)V~method 0x0009 main ([Ljava/lang/String;)V~code 1 1~bipush 6~invokestatic java/lang/Mine put (I)V~return~end
run --asm t.txt h/platform = 0||
run --home=h -cp app java.lang.Mine = 4||no main in java/lang/Mine~
new h/boot java/lang/Mine 6
run --make-home h = 0||
text t.txt class 0x0021 java/lang/Mine java/lang/Object~method 0x0108 put (I)V~method 0x0009 main ([Ljava/lang/String;)V~code 1 1~bipush 6~invokestatic java/lang/Mine put (I)V~return~end
run --asm t.txt h/boot = 0||
run --home=h -cp app java.lang.Mine = 0|6~|
new a Other 1, b Main 2
run --make-home h = 0||
text t.txt class 0x0021 Other java/lang/Object~method 0x0108 put (I)V~method 0x0009 main ([Ljava/lang/String;)V~code 1 1~bipush 1~invokestatic Other put (I)V~return~end
run --asm t.txt a = 0||
text t.txt class 0x0021 Main java/lang/Object~method 0x0108 put (I)V~method 0x0009 main ([Ljava/lang/String;)V~code 1 1~bipush 2~invokestatic Main put (I)V~return~end
run --asm t.txt b = 0||
run --home=h -cp a:b Main = 0|2~|
new a Main 1, b Main 2
run --make-home h = 0||
text t.txt class 0x0021 Main java/lang/Object~method 0x0108 put (I)V~method 0x0009 main ([Ljava/lang/String;)V~code 1 1~bipush 1~invokestatic Main put (I)V~return~end
run --asm t.txt a = 0||
text t.txt class 0x0021 Main java/lang/Object~method 0x0108 put (I)V~method 0x0009 main ([Ljava/lang/String;)V~code 1 1~bipush 2~invokestatic Main put (I)V~return~end
run --asm t.txt b = 0||
run --home=h -cp a:b Main = 0|1~|
new a Main 1, b Main 2
run --make-home h = 0||
text t.txt class 0x0021 Main java/lang/Object~method 0x0108 put (I)V~method 0x0009 main ([Ljava/lang/String;)V~code 1 1~bipush 1~invokestatic Main put (I)V~return~end
run --asm t.txt a = 0||
text t.txt class 0x0021 Main java/lang/Object~method 0x0108 put (I)V~method 0x0009 main ([Ljava/lang/String;)V~code 1 1~bipush 2~invokestatic Main put (I)V~return~end
run --asm t.txt b = 0||
run --home=h -cp b:a Main = 0|2~|
new a Main 1, b Main 2
run --make-home h = 0||
text t.txt class 0x0021 Main java/lang/Object~method 0x0108 put (I)V~method 0x0009 main ([Ljava/lang/String;)V~code 1 1~bipush 1~invokestatic Main put (I)V~return~end
run --asm t.txt a = 0||
text t.txt class 0x0021 Main java/lang/Object~method 0x0108 put (I)V~method 0x0009 main ([Ljava/lang/String;)V~code 1 1~bipush 2~invokestatic Main put (I)V~return~end
run --asm t.txt b = 0||
run --home=h -cp a -cp b Main = 0|2~|
new h/platform Main 5, app Main 6
run --make-home h = 0||
text t.txt class 0x0021 Main java/lang/Object~method 0x0108 put (I)V~method 0x0009 main ([Ljava/lang/String;)V~code 1 1~bipush 5~invokestatic Main put (I)V~return~end
run --asm t.txt h/platform = 0||
text t.txt class 0x0021 Main java/lang/Object~method 0x0108 put (I)V~method 0x0009 main ([Ljava/lang/String;)V~code 1 1~bipush 6~invokestatic Main put (I)V~return~end
run --asm t.txt app = 0||
run --home=h -cp app Main = 0|5~|
new h/boot Main 4, app Main 6
run --make-home h = 0||
text t.txt class 0x0021 Main java/lang/Object~method 0x0108 put (I)V~method 0x0009 main ([Ljava/lang/String;)V~code 1 1~bipush 4~invokestatic Main put (I)V~return~end
run --asm t.txt h/boot = 0||
text t.txt class 0x0021 Main java/lang/Object~method 0x0108 put (I)V~method 0x0009 main ([Ljava/lang/String;)V~code 1 1~bipush 6~invokestatic Main put (I)V~return~end
run --asm t.txt app = 0||
run --home=h -cp app Main = 0|4~|
new h/boot Main 4, h/platform Main 5, app Main 6
run --make-home h = 0||
text t.txt class 0x0021 Main java/lang/Object~method 0x0108 put (I)V~method 0x0009 main ([Ljava/lang/String;)V~code 1 1~bipush 4~invokestatic Main put (I)V~return~end
run --asm t.txt h/boot = 0||
text t.txt class 0x0021 Main java/lang/Object~method 0x0108 put (I)V~method 0x0009 main ([Ljava/lang/String;)V~code 1 1~bipush 5~invokestatic Main put (I)V~return~end
run --asm t.txt h/platform = 0||
text t.txt class 0x0021 Main java/lang/Object~method 0x0108 put (I)V~method 0x0009 main ([Ljava/lang/String;)V~code 1 1~bipush 6~invokestatic Main put (I)V~return~end
run --asm t.txt app = 0||
run --home=h -cp app Main = 0|4~|
new h/boot Main 4
run --make-home h = 0||
text t.txt class 0x0021 Main java/lang/Object~method 0x0108 put (I)V~method 0x0009 main ([Ljava/lang/String;)V~code 1 1~bipush 4~invokestatic Main put (I)V~return~end
run --asm t.txt h/boot = 0||
run --home=h -cp  Main = 0|4~|
new . Main 7
run --make-home h = 0||
text t.txt class 0x0021 Main java/lang/Object~method 0x0108 put (I)V~method 0x0009 main ([Ljava/lang/String;)V~code 1 1~bipush 7~invokestatic Main put (I)V~return~end
run --asm t.txt . = 0||
run --home=h -cp  Main = 4||no main in Main~
new . Main 7
run --make-home h = 0||
text t.txt class 0x0021 Main java/lang/Object~method 0x0108 put (I)V~method 0x0009 main ([Ljava/lang/String;)V~code 1 1~bipush 7~invokestatic Main put (I)V~return~end
run --asm t.txt . = 0||
run --home=h Main = 0|7~|
new app p/q/Main 8
run --make-home h = 0||
text t.txt class 0x0021 p/q/Main java/lang/Object~method 0x0108 put (I)V~method 0x0009 main ([Ljava/lang/String;)V~code 1 1~bipush 8~invokestatic p/q/Main put (I)V~return~end
run --asm t.txt app = 0||
run --home=h -cp app p.q.Main = 0|8~|
new app p/q/Main 8
run --make-home h = 0||
text t.txt class 0x0021 p/q/Main java/lang/Object~method 0x0108 put (I)V~method 0x0009 main ([Ljava/lang/String;)V~code 1 1~bipush 8~invokestatic p/q/Main put (I)V~return~end
run --asm t.txt app = 0||
run --home=h -cp app p/q/Main = 0|8~|
new app/p/q Main 8
run --make-home h = 0||
text t.txt class 0x0021 Main java/lang/Object~method 0x0108 put (I)V~method 0x0009 main ([Ljava/lang/String;)V~code 1 1~bipush 8~invokestatic Main put (I)V~return~end
run --asm t.txt app/p/q = 0||
run --home=h -cp app p.q.Main = 4||no main in p/q/Main~
new app/p/q Main 8
run --make-home h = 0||
text t.txt class 0x0021 Main java/lang/Object~method 0x0108 put (I)V~method 0x0009 main ([Ljava/lang/String;)V~code 1 1~bipush 8~invokestatic Main put (I)V~return~end
run --asm t.txt app/p/q = 0||
run --home=h -cp app/p/q Main = 0|8~|
new app Main 6
run --make-home h = 0||
text t.txt class 0x0021 Main java/lang/Object~method 0x0108 put (I)V~method 0x0009 main ([Ljava/lang/String;)V~code 1 1~bipush 6~invokestatic Main put (I)V~return~end
run --asm t.txt app = 0||
run --home=h -cp app  = 4||no main in ~
new app Main 6
run --make-home h = 0||
text t.txt class 0x0021 Main java/lang/Object~method 0x0108 put (I)V~method 0x0009 main ([Ljava/lang/String;)V~code 1 1~bipush 6~invokestatic Main put (I)V~return~end
run --asm t.txt app = 0||
run --home=h -cp app .Main = 4||no main in /Main~
new app Main 6
run --make-home h = 0||
text t.txt class 0x0021 Main java/lang/Object~method 0x0108 put (I)V~method 0x0009 main ([Ljava/lang/String;)V~code 1 1~bipush 6~invokestatic Main put (I)V~return~end
run --asm t.txt app = 0||
run --home=h -cp app Main. = 4||no main in Main/~
new app Main 6
run --make-home h = 0||
text t.txt class 0x0021 Main java/lang/Object~method 0x0108 put (I)V~method 0x0009 main ([Ljava/lang/String;)V~code 1 1~bipush 6~invokestatic Main put (I)V~return~end
run --asm t.txt app = 0||
run Main = 3||no boot class java/lang/Object~";

// ---- classes that don't load or don't run, and homes that are wanting

// A class A is run that does not load, or has no main.
static UNLOADED: &str = "\
new
run --make-home h = 0||
text t.txt class 0x0021 A B~class 0x0021 B A
run --asm t.txt app = 0||
run --home=h -XX:DumpLoadedClassList=l.txt -cp app A = 4||no main in A~
reads = read t.txt 1 2 3 4 5 6 7 8 9 10 11 12 13 14 15 16 17 18 19 20 21 22 23 24 25 26 27 28 29 30 31 32 33 34 35 36 37 38 app/A.class app/B.class
size l.txt = none
new
run --make-home h = 0||
text t.txt class 0x0021 A A
run --asm t.txt app = 0||
run --home=h -XX:DumpLoadedClassList=l.txt -cp app A = 4||no main in A~
reads = read t.txt 1 2 3 4 5 6 7 8 9 10 11 12 13 14 15 16 17 18 19 20 21 22 23 24 25 26 27 28 29 30 31 32 33 34 35 36 37 38 app/A.class
size l.txt = none
new
run --make-home h = 0||
text t.txt class 0x0021 A B~class 0x0021 B C~class 0x0021 C A
run --asm t.txt app = 0||
run --home=h -XX:DumpLoadedClassList=l.txt -cp app A = 4||no main in A~
reads = read t.txt 1 2 3 4 5 6 7 8 9 10 11 12 13 14 15 16 17 18 19 20 21 22 23 24 25 26 27 28 29 30 31 32 33 34 35 36 37 38 app/A.class app/B.class app/C.class
size l.txt = none
new
run --make-home h = 0||
text t.txt class 0x0021 A B
run --asm t.txt app = 0||
run --home=h -XX:DumpLoadedClassList=l.txt -cp app A = 4||no main in A~
reads = read t.txt 1 2 3 4 5 6 7 8 9 10 11 12 13 14 15 16 17 18 19 20 21 22 23 24 25 26 27 28 29 30 31 32 33 34 35 36 37 38 app/A.class
size l.txt = none
new
run --make-home h = 0||
text t.txt class 0x0021 A B~class 0x0601 B java/lang/Object
run --asm t.txt app = 0||
run --home=h -XX:DumpLoadedClassList=l.txt -cp app A = 4||no main in A~
reads = read t.txt 1 2 3 4 5 6 7 8 9 10 11 12 13 14 15 16 17 18 19 20 21 22 23 24 25 26 27 28 29 30 31 32 33 34 35 36 37 38 app/A.class app/B.class
size l.txt = none
new
run --make-home h = 0||
text t.txt class 0x0021 A java/lang/Object B~class 0x0021 B java/lang/Object
run --asm t.txt app = 0||
run --home=h -XX:DumpLoadedClassList=l.txt -cp app A = 4||no main in A~
reads = read t.txt 1 2 3 4 5 6 7 8 9 10 11 12 13 14 15 16 17 18 19 20 21 22 23 24 25 26 27 28 29 30 31 32 33 34 35 36 37 38 app/A.class app/B.class
size l.txt = none
new
run --make-home h = 0||
text t.txt class 0x0021 A p/B~class 0x0020 p/B java/lang/Object
run --asm t.txt app = 0||
run --home=h -XX:DumpLoadedClassList=l.txt -cp app A = 4||no main in A~
reads = read t.txt 1 2 3 4 5 6 7 8 9 10 11 12 13 14 15 16 17 18 19 20 21 22 23 24 25 26 27 28 29 30 31 32 33 34 35 36 37 38 app/A.class app/p/B.class
size l.txt = none
new
run --make-home h = 0||
text t.txt class 0x0021 A java/lang/Object~version 53
run --asm t.txt app = 0||
run --home=h -XX:DumpLoadedClassList=l.txt -cp app A = 4||no main in A~
reads = read t.txt 1 2 3 4 5 6 7 8 9 10 11 12 13 14 15 16 17 18 19 20 21 22 23 24 25 26 27 28 29 30 31 32 33 34 35 36 37 38 app/A.class
size l.txt = none
new
run --make-home h = 0||
text t.txt class 0x0021 A B~class 0x0021 B java/lang/Object
run --asm t.txt app = 0||
run --home=h -XX:DumpLoadedClassList=l.txt -cp app A = 9||unsupported A~
reads = read t.txt 1 2 3 4 5 6 7 8 9 10 11 12 13 14 15 16 17 18 19 20 21 22 23 24 25 26 27 28 29 30 31 32 33 34 35 36 37 38 app/A.class app/B.class
size l.txt = none
new
run --make-home h = 0||
text t.txt class 0x0021 A java/lang/Object
run --asm t.txt app = 0||
run --home=h -XX:DumpLoadedClassList=l.txt -cp app A = 9||unsupported A~
reads = read t.txt 1 2 3 4 5 6 7 8 9 10 11 12 13 14 15 16 17 18 19 20 21 22 23 24 25 26 27 28 29 30 31 32 33 34 35 36 37 38 app/A.class
size l.txt = none";

// Homes in which a class is another one.
static WANTING: &str = "\
new
run --make-home h = 0||
text t.txt class 0x0021 java/lang/Object java/lang/Object
run --asm t.txt h/boot = 0||
run --home=h -XX:DumpLoadedClassList=l.txt -cp app A = 3||no boot class java/lang/Object~
reads = read t.txt 1
size l.txt = none
new
run --make-home h = 0||
text t.txt class 0x0021 Object -
run --asm t.txt h/boot/java/lang = 0||
run --home=h -XX:DumpLoadedClassList=l.txt -cp app A = 3||no boot class java/lang/Object~
reads = read t.txt 1
size l.txt = none
new
run --make-home h = 0||
text t.txt class 0x0601 java/lang/Object -
run --asm t.txt h/boot = 0||
run --home=h -XX:DumpLoadedClassList=l.txt -cp app A = 3||no boot class java/lang/Object~
reads = read t.txt 1
size l.txt = none
new
run --make-home h = 0||
text t.txt class 0x0021 java/lang/Object -~method 0x0008 <clinit> ()V~code 0 0~return~end
run --asm t.txt h/boot = 0||
run --home=h -XX:DumpLoadedClassList=l.txt -cp app A = 3||no boot class java/lang/Object~
reads = read t.txt 1
size l.txt = none
new
run --make-home h = 0||
text t.txt class 0x0021 java/io/Serializable java/lang/Object
run --asm t.txt h/boot = 0||
run --home=h -XX:DumpLoadedClassList=l.txt -cp app A = 3||no boot class java/io/Serializable~
reads = read t.txt 1 2
size l.txt = none
new
run --make-home h = 0||
text t.txt class 0x0601 java/lang/Cloneable java/lang/Object java/io/Serializable
run --asm t.txt h/boot = 0||
run --home=h -XX:DumpLoadedClassList=l.txt -cp app A = 3||no boot class java/lang/Cloneable~
reads = read t.txt 1 2 3
size l.txt = none
new
run --make-home h = 0||
text t.txt class 0x0601 java/lang/Comparable java/lang/Object~method 0x0008 <clinit> ()V~code 0 0~return~end
run --asm t.txt h/boot = 0||
run --home=h -XX:DumpLoadedClassList=l.txt -cp app A = 3||no boot class java/lang/Comparable~
reads = read t.txt 1 2 3 4
size l.txt = none
new
run --make-home h = 0||
text t.txt class 0x0031 java/lang/String java/lang/Object java/io/Serializable java/lang/CharSequence java/lang/Comparable~field 0x0012 value [C
run --asm t.txt h/boot = 0||
run --home=h -XX:DumpLoadedClassList=l.txt -cp app A = 3||no boot class java/lang/String~
reads = read t.txt 1 2 3 4 5 6
size l.txt = none
new
run --make-home h = 0||
text t.txt class 0x0031 java/lang/String java/lang/Object java/io/Serializable java/lang/Comparable~field 0x0012 value [C
run --asm t.txt h/boot = 0||
run --home=h -XX:DumpLoadedClassList=l.txt -cp app A = 3||no boot class java/lang/String~
reads = read t.txt 1 2 3 4 5 6
size l.txt = none
new
run --make-home h = 0||
text t.txt class 0x0031 java/lang/String java/lang/Object java/io/Serializable java/lang/Comparable java/lang/CharSequence
run --asm t.txt h/boot = 0||
run --home=h -XX:DumpLoadedClassList=l.txt -cp app A = 3||no boot class java/lang/String~
reads = read t.txt 1 2 3 4 5 6
size l.txt = none
new
run --make-home h = 0||
text t.txt class 0x0031 java/lang/String java/lang/Object java/io/Serializable java/lang/Comparable java/lang/CharSequence~field 0x001a value [C
run --asm t.txt h/boot = 0||
run --home=h -XX:DumpLoadedClassList=l.txt -cp app A = 3||no boot class java/lang/String~
reads = read t.txt 1 2 3 4 5 6
size l.txt = none
new
run --make-home h = 0||
text t.txt class 0x0031 java/lang/String java/lang/Object java/io/Serializable java/lang/Comparable java/lang/CharSequence~field 0x0012 value [B
run --asm t.txt h/boot = 0||
run --home=h -XX:DumpLoadedClassList=l.txt -cp app A = 3||no boot class java/lang/String~
reads = read t.txt 1 2 3 4 5 6
size l.txt = none
new
run --make-home h = 0||
text t.txt class 0x0031 java/lang/String java/lang/Object java/io/Serializable java/lang/Comparable java/lang/CharSequence~field 0x0012 values [C
run --asm t.txt h/boot = 0||
run --home=h -XX:DumpLoadedClassList=l.txt -cp app A = 3||no boot class java/lang/String~
reads = read t.txt 1 2 3 4 5 6
size l.txt = none
new
run --make-home h = 0||
text t.txt class 0x0601 java/lang/Class java/lang/Object
run --asm t.txt h/boot = 0||
run --home=h -XX:DumpLoadedClassList=l.txt -cp app A = 3||no boot class java/lang/Class~
reads = read t.txt 1 2 3 4 5 6 7
size l.txt = none
new
run --make-home h = 0||
text t.txt class 0x0021 java/lang/Throwable java/lang/Object java/io/Serializable~field 0x0002 detailMessage Ljava/lang/String;
run --asm t.txt h/boot = 0||
run --home=h -XX:DumpLoadedClassList=l.txt -cp app A = 3||no boot class java/lang/Throwable~
reads = read t.txt 1 2 3 4 5 6 7 8
size l.txt = none
new
run --make-home h = 0||
text t.txt class 0x0021 java/lang/Throwable java/lang/Object~field 0x0002 cause Ljava/lang/Throwable;
run --asm t.txt h/boot = 0||
run --home=h -XX:DumpLoadedClassList=l.txt -cp app A = 3||no boot class java/lang/Throwable~
reads = read t.txt 1 2 3 4 5 6 7 8
size l.txt = none
new
run --make-home h = 0||
text t.txt class 0x0021 java/lang/Error java/lang/Object
run --asm t.txt h/boot = 0||
run --home=h -XX:DumpLoadedClassList=l.txt -cp app A = 3||no boot class java/lang/Error~
reads = read t.txt 1 2 3 4 5 6 7 8 9
size l.txt = none
new
run --make-home h = 0||
text t.txt class 0x0021 java/lang/Error java/lang/Exception
run --asm t.txt h/boot = 0||
run --home=h -XX:DumpLoadedClassList=l.txt -cp app A = 3||no boot class java/lang/Error~
reads = read t.txt 1 2 3 4 5 6 7 8 9 10
size l.txt = none
new
run --make-home h = 0||
text t.txt class 0x0021 java/lang/Error java/lang/Throwable java/io/Serializable
run --asm t.txt h/boot = 0||
run --home=h -XX:DumpLoadedClassList=l.txt -cp app A = 3||no boot class java/lang/Error~
reads = read t.txt 1 2 3 4 5 6 7 8 9
size l.txt = none
new
run --make-home h = 0||
text t.txt class 0x0021 java/lang/Error java/lang/Throwable~version 53
run --asm t.txt h/boot = 0||
run --home=h -XX:DumpLoadedClassList=l.txt -cp app A = 3||no boot class java/lang/Error~
reads = read t.txt 1 2 3 4 5 6 7 8 9
size l.txt = none
new
run --make-home h = 0||
text t.txt class 0x0021 Error java/lang/Throwable
run --asm t.txt h/boot/java/lang = 0||
run --home=h -XX:DumpLoadedClassList=l.txt -cp app A = 3||no boot class java/lang/Error~
reads = read t.txt 1 2 3 4 5 6 7 8 9
size l.txt = none
new
run --make-home h = 0||
text t.txt class 0x0021 java/lang/CloneNotSupportedException java/lang/Exception~method 0x0008 <clinit> ()V~code 0 0~return~end
run --asm t.txt h/boot = 0||
run --home=h -XX:DumpLoadedClassList=l.txt -cp app A = 3||no boot class java/lang/CloneNotSupportedException~
reads = read t.txt 1 2 3 4 5 6 7 8 9 10 11 12 13 14 15 16 17 18 19 20 21 22 23 24 25 26 27 28 29 30 31 32 33 34 35 36 37 38
size l.txt = none
new
run --make-home h = 0||
text t.txt class 0x0031 java/lang/String java/lang/Object java/io/Serializable java/lang/Comparable java/lang/CharSequence~field 0x0012 value [B~field 0x0012 values [C~field 0x0002 value [C
run --asm t.txt h/boot = 0||
run --home=h -XX:DumpLoadedClassList=l.txt -cp app A = 4||no main in A~
reads = read t.txt 1 2 3 4 5 6 7 8 9 10 11 12 13 14 15 16 17 18 19 20 21 22 23 24 25 26 27 28 29 30 31 32 33 34 35 36 37 38
size l.txt = none
new
run --make-home h = 0||
text t.txt class 0x0021 java/lang/Throwable java/lang/Object java/io/Serializable~field 0x0002 cause Ljava/lang/Throwable;
run --asm t.txt h/boot = 0||
run --home=h -XX:DumpLoadedClassList=l.txt -cp app A = 4||no main in A~
reads = read t.txt 1 2 3 4 5 6 7 8 9 10 11 12 13 14 15 16 17 18 19 20 21 22 23 24 25 26 27 28 29 30 31 32 33 34 35 36 37 38
size l.txt = none
new
run --make-home h = 0||
text t.txt class 0x0421 java/lang/Object -
run --asm t.txt h/boot = 0||
run --home=h -XX:DumpLoadedClassList=l.txt -cp app A = 4||no main in A~
reads = read t.txt 1 2 3 4 5 6 7 8 9 10 11 12 13 14 15 16 17 18 19 20 21 22 23 24 25 26 27 28 29 30 31 32 33 34 35 36 37 38
size l.txt = none";

// A path at which no class is, but a byte or none, and what a run tells.
static NOT_CLASSES: &str = "\
new
run --make-home h = 0||
put app/Main.class SUM
text h/boot/java/lang/Object.class x
run --home=h -XX:DumpLoadedClassList=l.txt -cp app Main = 3||no boot class java/lang/Object~
new
run --make-home h = 0||
put app/Main.class SUM
text h/boot/java/lang/Object.class 
run --home=h -XX:DumpLoadedClassList=l.txt -cp app Main = 3||no boot class java/lang/Object~
new
run --make-home h = 0||
put app/Main.class SUM
text h/boot/java/lang/Error.class x
run --home=h -XX:DumpLoadedClassList=l.txt -cp app Main = 3||no boot class java/lang/Error~
new
run --make-home h = 0||
put app/Main.class SUM
text h/boot/java/lang/Error.class 
run --home=h -XX:DumpLoadedClassList=l.txt -cp app Main = 3||no boot class java/lang/Error~
new
run --make-home h = 0||
put app/Main.class SUM
text h/boot/java/lang/System.class x
run --home=h -XX:DumpLoadedClassList=l.txt -cp app Main = 0|42~|
new
run --make-home h = 0||
put app/Main.class SUM
text h/boot/java/lang/System.class 
run --home=h -XX:DumpLoadedClassList=l.txt -cp app Main = 0|42~|
new
run --make-home h = 0||
put app/Main.class SUM
text h/classlist x
run --home=h -XX:DumpLoadedClassList=l.txt -cp app Main = 0|42~|
new
run --make-home h = 0||
put app/Main.class SUM
text h/classlist 
run --home=h -XX:DumpLoadedClassList=l.txt -cp app Main = 0|42~|
new
run --make-home h = 0||
put app/Main.class SUM
text h/boot/Main.class x
run --home=h -XX:DumpLoadedClassList=l.txt -cp app Main = 4||no main in Main~
new
run --make-home h = 0||
put app/Main.class SUM
text h/boot/Main.class 
run --home=h -XX:DumpLoadedClassList=l.txt -cp app Main = 4||no main in Main~
new
run --make-home h = 0||
put app/Main.class SUM
text h/platform/Main.class x
run --home=h -XX:DumpLoadedClassList=l.txt -cp app Main = 4||no main in Main~
new
run --make-home h = 0||
put app/Main.class SUM
text h/platform/Main.class 
run --home=h -XX:DumpLoadedClassList=l.txt -cp app Main = 4||no main in Main~
new
run --make-home h = 0||
put app/Main.class SUM
text app/Main.class x
run --home=h -XX:DumpLoadedClassList=l.txt -cp app Main = 4||no main in Main~
new
run --make-home h = 0||
put app/Main.class SUM
text app/Main.class 
run --home=h -XX:DumpLoadedClassList=l.txt -cp app Main = 4||no main in Main~";

// ---- faults

// A call of the store fails behind five bytes, counted behind the 55 of the home. A run makes 42 calls, so that of the last
// call the look at the list fails. The last run's put fails, and it lists nothing.
static FAILING: &str = "\
new
run --make-home h = 0||
put app/Main.class SUM
fail 56 5
run --home=h -XX:DumpLoadedClassList=l.txt -cp app Main = 11||read fault~
size l.txt = none
new
run --make-home h = 0||
put app/Main.class SUM
fail 57 5
run --home=h -XX:DumpLoadedClassList=l.txt -cp app Main = 11||read fault~
size l.txt = none
new
run --make-home h = 0||
put app/Main.class SUM
fail 93 5
run --home=h -XX:DumpLoadedClassList=l.txt -cp app Main = 11||read fault~
size l.txt = none
new
run --make-home h = 0||
put app/Main.class SUM
fail 94 5
run --home=h -XX:DumpLoadedClassList=l.txt -cp app Main = 11||read fault~
size l.txt = none
new
run --make-home h = 0||
put app/Main.class SUM
fail 95 5
run --home=h -XX:DumpLoadedClassList=l.txt -cp app Main = 11||read fault~
size l.txt = none
new
run --make-home h = 0||
put app/Main.class SUM
fail 96 5
run --home=h -XX:DumpLoadedClassList=l.txt -cp app Main = 11||read fault~
size l.txt = none
new
run --make-home h = 0||
put app/Main.class SUM
fail 97 5
run --home=h -XX:DumpLoadedClassList=l.txt -cp app Main = 12|42~|write fault~
size l.txt = 5
new
run --make-home h = 0||
put app/Main.class SUM
fail 98 5
run --home=h -XX:DumpLoadedClassList=l.txt -cp app Main = 0|42~|
size l.txt = none
new
run --make-home h = 0||
put app/Main.class SUM
out 1 3
run --home=h -XX:DumpLoadedClassList=l.txt -cp app Main = 12|42~|write fault~
size l.txt = none";

#[test]
fn homes_and_the_lists_of_their_runs(rt: HostRuntime) -> Result<(), Fail> {
    let texts = [HOME, UNMADE, LISTS, SHARING, WIDE_NAMES];
    assert_eq!(rt; wrong_rows(rt.alloc(), &texts)?.as_str(), "");
    Ok(())
}

#[test]
fn where_classes_are_found_and_what_is_told_of_wanting_ones(rt: HostRuntime) -> Result<(), Fail> {
    let texts = [FOUND, UNLOADED, WANTING, NOT_CLASSES, FAILING];
    assert_eq!(rt; wrong_rows(rt.alloc(), &texts)?.as_str(), "");
    Ok(())
}
