//! String.

macro_rules! strings {
    ([$next:ident $($more:ident)*] $($text:literal)*) => {
        $next!([$($more)*] $($text)* r#"
# A text that never changes: units of UTF-16, in an array that nothing else holds.
class 0x0031 java/lang/String java/lang/Object java/io/Serializable java/lang/Comparable java/lang/CharSequence
version 52

field 0x0012 value [C

# The empty text.
method 0x0001 <init> ()V
code 2 1
aload_0
invokespecial java/lang/Object <init> ()V
aload_0
iconst_0
newarray 5
putfield java/lang/String value [C
return
end

# The text of all units of an array, which is copied.
method 0x0001 <init> ([C)V
code 2 2
aload_0
invokespecial java/lang/Object <init> ()V
aload_0
aload_1
invokevirtual [C clone ()Ljava/lang/Object;
checkcast [C
putfield java/lang/String value [C
return
end

# The text of some units of an array, by their first index and their number.
method 0x0001 <init> ([CII)V
code 5 4
aload_0
invokespecial java/lang/Object <init> ()V
iload_2
ifge FromStart
iload_2
invokestatic java/lang/String outOfRange (I)Ljava/lang/StringIndexOutOfBoundsException;
athrow
FromStart:
frame FromStart O:java/lang/String O:[C I I |
iload_3
ifge Counted
iload_3
invokestatic java/lang/String outOfRange (I)Ljava/lang/StringIndexOutOfBoundsException;
athrow
Counted:
frame Counted O:java/lang/String O:[C I I |
iload_2
aload_1
arraylength
iload_3
isub
if_icmple Inside
iload_2
iload_3
iadd
invokestatic java/lang/String outOfRange (I)Ljava/lang/StringIndexOutOfBoundsException;
athrow
Inside:
frame Inside O:java/lang/String O:[C I I |
aload_0
iload_3
newarray 5
putfield java/lang/String value [C
aload_1
iload_2
aload_0
getfield java/lang/String value [C
iconst_0
iload_3
invokestatic java/lang/System arraycopy (Ljava/lang/Object;ILjava/lang/Object;II)V
return
end

# A helper of the package: the text of an array that nothing else holds, which is not copied. The flag only tells the
# descriptors apart.
method 0x0000 <init> ([CZ)V
code 2 3
aload_0
invokespecial java/lang/Object <init> ()V
aload_0
aload_1
putfield java/lang/String value [C
return
end

# The number of units.
method 0x0001 length ()I
code 1 1
aload_0
getfield java/lang/String value [C
arraylength
ireturn
end

# The unit at an index.
method 0x0001 charAt (I)C
code 2 2
iload_1
iflt Outside
iload_1
aload_0
getfield java/lang/String value [C
arraylength
if_icmpge Outside
aload_0
getfield java/lang/String value [C
iload_1
caload
ireturn
Outside:
frame Outside O:java/lang/String I |
iload_1
invokestatic java/lang/String outOfRange (I)Ljava/lang/StringIndexOutOfBoundsException;
athrow
end

# Whether there is no unit.
method 0x0001 isEmpty ()Z
code 1 1
aload_0
getfield java/lang/String value [C
arraylength
ifne Some
iconst_1
ireturn
Some:
frame Some O:java/lang/String |
iconst_0
ireturn
end

# Whether the other one is a string with the same units.
method 0x0001 equals (Ljava/lang/Object;)Z
code 3 5
aload_0
aload_1
if_acmpeq Same
aload_1
instanceof java/lang/String
ifeq Different
aload_0
getfield java/lang/String value [C
astore_2
aload_1
checkcast java/lang/String
getfield java/lang/String value [C
astore_3
aload_2
arraylength
aload_3
arraylength
if_icmpne Different
iconst_0
istore 4
Unit:
frame Unit O:java/lang/String O:java/lang/Object O:[C O:[C I |
iload 4
aload_2
arraylength
if_icmpge Same
aload_2
iload 4
caload
aload_3
iload 4
caload
if_icmpne Different
iinc 4 1
goto Unit
Same:
frame Same O:java/lang/String O:java/lang/Object |
iconst_1
ireturn
Different:
frame Different O:java/lang/String O:java/lang/Object |
iconst_0
ireturn
end

# The sum of the units, each times 31 as often as units follow it.
method 0x0001 hashCode ()I
code 3 3
iconst_0
istore_1
iconst_0
istore_2
Unit:
frame Unit O:java/lang/String I I |
iload_2
aload_0
getfield java/lang/String value [C
arraylength
if_icmpge Summed
bipush 31
iload_1
imul
aload_0
getfield java/lang/String value [C
iload_2
caload
iadd
istore_1
iinc 2 1
goto Unit
Summed:
frame Summed O:java/lang/String I I |
iload_1
ireturn
end

# The difference of the first units that differ, or that of the lengths.
method 0x0001 compareTo (Ljava/lang/String;)I
code 3 5
aload_0
getfield java/lang/String value [C
astore_2
aload_1
getfield java/lang/String value [C
astore_3
iconst_0
istore 4
Unit:
frame Unit O:java/lang/String O:java/lang/String O:[C O:[C I |
iload 4
aload_2
arraylength
if_icmpge Ended
iload 4
aload_3
arraylength
if_icmpge Ended
aload_2
iload 4
caload
aload_3
iload 4
caload
if_icmpne Differ
iinc 4 1
goto Unit
Differ:
frame Differ O:java/lang/String O:java/lang/String O:[C O:[C I |
aload_2
iload 4
caload
aload_3
iload 4
caload
isub
ireturn
Ended:
frame Ended O:java/lang/String O:java/lang/String O:[C O:[C I |
aload_2
arraylength
aload_3
arraylength
isub
ireturn
end

# The same, as Comparable has it.
method 0x1041 compareTo (Ljava/lang/Object;)I
code 2 2
aload_0
aload_1
checkcast java/lang/String
invokevirtual java/lang/String compareTo (Ljava/lang/String;)I
ireturn
end

# The units of both, and this string where the other one is empty.
method 0x0001 concat (Ljava/lang/String;)Ljava/lang/String;
code 4 3
aload_1
invokevirtual java/lang/String isEmpty ()Z
ifeq Longer
aload_0
areturn
Longer:
frame Longer O:java/lang/String O:java/lang/String |
aload_0
getfield java/lang/String value [C
arraylength
aload_1
getfield java/lang/String value [C
arraylength
iadd
newarray 5
astore_2
aload_0
aload_2
iconst_0
invokevirtual java/lang/String getChars ([CI)V
aload_1
aload_2
aload_0
getfield java/lang/String value [C
arraylength
invokevirtual java/lang/String getChars ([CI)V
new java/lang/String
dup
aload_2
iconst_1
invokespecial java/lang/String <init> ([CZ)V
areturn
end

# The units from an index on.
method 0x0001 substring (I)Ljava/lang/String;
code 3 2
aload_0
iload_1
aload_0
getfield java/lang/String value [C
arraylength
invokevirtual java/lang/String substring (II)Ljava/lang/String;
areturn
end

# The units from an index on up to another, and this string where these are all.
method 0x0001 substring (II)Ljava/lang/String;
code 6 3
iload_1
ifge FromStart
iload_1
invokestatic java/lang/String outOfRange (I)Ljava/lang/StringIndexOutOfBoundsException;
athrow
FromStart:
frame FromStart O:java/lang/String I I |
iload_2
aload_0
getfield java/lang/String value [C
arraylength
if_icmple ToEnd
iload_2
invokestatic java/lang/String outOfRange (I)Ljava/lang/StringIndexOutOfBoundsException;
athrow
ToEnd:
frame ToEnd O:java/lang/String I I |
iload_1
iload_2
if_icmple Ordered
iload_2
iload_1
isub
invokestatic java/lang/String outOfRange (I)Ljava/lang/StringIndexOutOfBoundsException;
athrow
Ordered:
frame Ordered O:java/lang/String I I |
iload_1
ifne Part
iload_2
aload_0
getfield java/lang/String value [C
arraylength
if_icmpne Part
aload_0
areturn
Part:
frame Part O:java/lang/String I I |
new java/lang/String
dup
aload_0
getfield java/lang/String value [C
iload_1
iload_2
iload_1
isub
invokespecial java/lang/String <init> ([CII)V
areturn
end

# The first index of a code point, or -1.
method 0x0001 indexOf (I)I
code 2 3
iload_1
ldc 65536
if_icmplt OneUnit
aload_0
iload_1
invokespecial java/lang/String indexOfPair (I)I
ireturn
OneUnit:
frame OneUnit O:java/lang/String I |
iconst_0
istore_2
Unit:
frame Unit O:java/lang/String I I |
iload_2
aload_0
getfield java/lang/String value [C
arraylength
if_icmpge Nowhere
aload_0
getfield java/lang/String value [C
iload_2
caload
iload_1
if_icmpeq Here
iinc 2 1
goto Unit
Here:
frame Here O:java/lang/String I I |
iload_2
ireturn
Nowhere:
frame Nowhere O:java/lang/String I I |
iconst_m1
ireturn
end

# A helper: the first index of a code point from 65536 on, which is a pair of surrogates, or -1. None is above 1114111.
method 0x0002 indexOfPair (I)I
code 3 5
iload_1
ldc 1114111
if_icmpgt NoPair
iload_1
bipush 10
iushr
ldc 55232
iadd
istore_2
iload_1
sipush 1023
iand
ldc 56320
iadd
istore_3
iconst_1
istore 4
Unit:
frame Unit O:java/lang/String I I I I |
iload 4
aload_0
getfield java/lang/String value [C
arraylength
if_icmpge NoPair
aload_0
getfield java/lang/String value [C
iload 4
iconst_1
isub
caload
iload_2
if_icmpne Next
aload_0
getfield java/lang/String value [C
iload 4
caload
iload_3
if_icmpne Next
iload 4
iconst_1
isub
ireturn
Next:
frame Next O:java/lang/String I I I I |
iinc 4 1
goto Unit
NoPair:
frame NoPair O:java/lang/String I |
iconst_m1
ireturn
end

# Whether the text begins with the units of another.
method 0x0001 startsWith (Ljava/lang/String;)Z
code 3 5
aload_0
getfield java/lang/String value [C
astore_2
aload_1
getfield java/lang/String value [C
astore_3
aload_3
arraylength
aload_2
arraylength
if_icmpgt Otherwise
iconst_0
istore 4
Unit:
frame Unit O:java/lang/String O:java/lang/String O:[C O:[C I |
iload 4
aload_3
arraylength
if_icmpge Begins
aload_2
iload 4
caload
aload_3
iload 4
caload
if_icmpne Otherwise
iinc 4 1
goto Unit
Begins:
frame Begins O:java/lang/String O:java/lang/String |
iconst_1
ireturn
Otherwise:
frame Otherwise O:java/lang/String O:java/lang/String |
iconst_0
ireturn
end

# The units in a new array.
method 0x0001 toCharArray ()[C
code 1 1
aload_0
getfield java/lang/String value [C
invokevirtual [C clone ()Ljava/lang/Object;
checkcast [C
areturn
end

# A helper of the package: copies all units into an array, from an index on.
method 0x0000 getChars ([CI)V
code 5 3
aload_0
getfield java/lang/String value [C
iconst_0
aload_1
iload_2
aload_0
getfield java/lang/String value [C
arraylength
invokestatic java/lang/System arraycopy (Ljava/lang/Object;ILjava/lang/Object;II)V
return
end

# This string.
method 0x0001 toString ()Ljava/lang/String;
code 1 1
aload_0
areturn
end

# An int in decimal.
method 0x0009 valueOf (I)Ljava/lang/String;
code 2 1
iload_0
i2l
invokestatic java/lang/String valueOf (J)Ljava/lang/String;
areturn
end

# A long in decimal. The digits are those of a number that isn't positive, since the least long has no negative.
# Locals: 0 long, 2 index, 3 rest, 5 units.
method 0x0009 valueOf (J)Ljava/lang/String;
code 7 6
lload_0
invokestatic java/lang/String digits (J)I
istore_2
lload_0
lstore_3
lload_0
lconst_0
lcmp
ifge Unsigned
iinc 2 1
goto Sized
Unsigned:
frame Unsigned J I J |
lload_0
lneg
lstore_3
Sized:
frame Sized J I J |
iload_2
newarray 5
astore 5
Digit:
frame Digit J I J O:[C |
iinc 2 -1
aload 5
iload_2
bipush 48
lload_3
ldc2_w 10
lrem
l2i
isub
i2c
castore
lload_3
ldc2_w 10
ldiv
lstore_3
lload_3
lconst_0
lcmp
ifne Digit
lload_0
lconst_0
lcmp
ifge Done
aload 5
iconst_0
bipush 45
castore
Done:
frame Done J I J O:[C |
new java/lang/String
dup
aload 5
iconst_1
invokespecial java/lang/String <init> ([CZ)V
areturn
end

# A helper: the number of decimal digits of a long.
method 0x000a digits (J)I
code 4 3
iconst_1
istore_2
Digit:
frame Digit J I |
lload_0
ldc2_w 10
ldiv
lstore_0
lload_0
lconst_0
lcmp
ifeq Counted
iinc 2 1
goto Digit
Counted:
frame Counted J I |
iload_2
ireturn
end

# A unit alone.
method 0x0009 valueOf (C)Ljava/lang/String;
code 4 2
iconst_1
newarray 5
astore_1
aload_1
iconst_0
iload_0
castore
new java/lang/String
dup
aload_1
iconst_1
invokespecial java/lang/String <init> ([CZ)V
areturn
end

# The word for a boolean.
method 0x0009 valueOf (Z)Ljava/lang/String;
code 1 1
iload_0
ifeq False
ldc "true"
areturn
False:
frame False I |
ldc "false"
areturn
end

# What the object's toString says, or a word for null.
method 0x0009 valueOf (Ljava/lang/Object;)Ljava/lang/String;
code 1 1
aload_0
ifnonnull Present
ldc "null"
areturn
Present:
frame Present O:java/lang/Object |
aload_0
invokevirtual java/lang/Object toString ()Ljava/lang/String;
areturn
end

# The one string of equal text that literals stand for.
method 0x0101 intern ()Ljava/lang/String;

# A helper: what is thrown for an index or a number of units that doesn't fit.
method 0x000a outOfRange (I)Ljava/lang/StringIndexOutOfBoundsException;
code 4 1
new java/lang/StringIndexOutOfBoundsException
dup
ldc "String index out of range: "
iload_0
invokestatic java/lang/String valueOf (I)Ljava/lang/String;
invokevirtual java/lang/String concat (Ljava/lang/String;)Ljava/lang/String;
invokespecial java/lang/StringIndexOutOfBoundsException <init> (Ljava/lang/String;)V
areturn
end
"#)
    };
}

pub(crate) use strings;
