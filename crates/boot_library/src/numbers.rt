//! Number, Integer and Long.

macro_rules! numbers {
    ([$next:ident $($more:ident)*] $($text:literal)*) => {
        $next!([$($more)*] $($text)* r#"
# A number that can be had as an int and as a long.
class 0x0421 java/lang/Number java/lang/Object
version 52

# A number of a subclass.
method 0x0001 <init> ()V
code 1 1
aload_0
invokespecial java/lang/Object <init> ()V
return
end

# The number as an int.
method 0x0401 intValue ()I

# The number as a long.
method 0x0401 longValue ()J

# An int as an object.
class 0x0031 java/lang/Integer java/lang/Number
version 52

field 0x0019 MIN_VALUE I -2147483648
field 0x0019 MAX_VALUE I 2147483647
field 0x0012 value I

# A helper: makes one.
method 0x0002 <init> (I)V
code 2 2
aload_0
invokespecial java/lang/Number <init> ()V
aload_0
iload_1
putfield java/lang/Integer value I
return
end

# Makes one, a new one each time.
method 0x0009 valueOf (I)Ljava/lang/Integer;
code 3 1
new java/lang/Integer
dup
iload_0
invokespecial java/lang/Integer <init> (I)V
areturn
end

# The int.
method 0x0001 intValue ()I
code 1 1
aload_0
getfield java/lang/Integer value I
ireturn
end

# The int as a long.
method 0x0001 longValue ()J
code 2 1
aload_0
getfield java/lang/Integer value I
i2l
lreturn
end

# The int that stands in a text: decimal digits, behind a sign or not. It is read as a long, which has to fit.
method 0x0009 parseInt (Ljava/lang/String;)I
code 4 3
aload_0
invokestatic java/lang/Long parseLong (Ljava/lang/String;)J
lstore_1
lload_1
l2i
i2l
lload_1
lcmp
ifeq Fits
aload_0
invokestatic java/lang/Integer noInt (Ljava/lang/String;)Ljava/lang/NumberFormatException;
athrow
Fits:
frame Fits O:java/lang/String J |
lload_1
l2i
ireturn
end

# An int in decimal.
method 0x0009 toString (I)Ljava/lang/String;
code 1 1
iload_0
invokestatic java/lang/String valueOf (I)Ljava/lang/String;
areturn
end

# The int in decimal.
method 0x0001 toString ()Ljava/lang/String;
code 1 1
aload_0
getfield java/lang/Integer value I
invokestatic java/lang/String valueOf (I)Ljava/lang/String;
areturn
end

# Whether the other one is an Integer of the same int.
method 0x0001 equals (Ljava/lang/Object;)Z
code 2 2
aload_1
instanceof java/lang/Integer
ifeq Different
aload_0
getfield java/lang/Integer value I
aload_1
checkcast java/lang/Integer
getfield java/lang/Integer value I
if_icmpne Different
iconst_1
ireturn
Different:
frame Different O:java/lang/Integer O:java/lang/Object |
iconst_0
ireturn
end

# The int.
method 0x0001 hashCode ()I
code 1 1
aload_0
getfield java/lang/Integer value I
ireturn
end

# An int without its sign in hexadecimal, in lower case, four bits a digit. The digits are counted first, so that their array
# becomes that of the string.
# Locals: 0 int, 1 number of digits and then index, 2 rest and then units.
method 0x0009 toHexString (I)Ljava/lang/String;
code 5 3
iconst_1
istore_1
iload_0
istore_2
Count:
frame Count I I I |
iload_2
iconst_4
iushr
istore_2
iload_2
ifeq Counted
iinc 1 1
goto Count
Counted:
frame Counted I I I |
iload_1
newarray 5
astore_2
Digit:
frame Digit I I O:[C |
iinc 1 -1
aload_2
iload_1
ldc "0123456789abcdef"
iload_0
bipush 15
iand
invokevirtual java/lang/String charAt (I)C
castore
iload_0
iconst_4
iushr
istore_0
iload_0
ifne Digit
new java/lang/String
dup
aload_2
iconst_1
invokespecial java/lang/String <init> ([CZ)V
areturn
end

# A helper: what is thrown for a text in which no int stands.
method 0x000a noInt (Ljava/lang/String;)Ljava/lang/NumberFormatException;
code 4 1
new java/lang/NumberFormatException
dup
ldc "For input string: \""
aload_0
invokevirtual java/lang/String concat (Ljava/lang/String;)Ljava/lang/String;
ldc "\""
invokevirtual java/lang/String concat (Ljava/lang/String;)Ljava/lang/String;
invokespecial java/lang/NumberFormatException <init> (Ljava/lang/String;)V
areturn
end

# A long as an object.
class 0x0031 java/lang/Long java/lang/Number
version 52

field 0x0019 MIN_VALUE J -9223372036854775808
field 0x0019 MAX_VALUE J 9223372036854775807
field 0x0012 value J

# A helper: makes one.
method 0x0002 <init> (J)V
code 3 3
aload_0
invokespecial java/lang/Number <init> ()V
aload_0
lload_1
putfield java/lang/Long value J
return
end

# Makes one, a new one each time.
method 0x0009 valueOf (J)Ljava/lang/Long;
code 4 2
new java/lang/Long
dup
lload_0
invokespecial java/lang/Long <init> (J)V
areturn
end

# The low 32 bits of the long.
method 0x0001 intValue ()I
code 2 1
aload_0
getfield java/lang/Long value J
l2i
ireturn
end

# The long.
method 0x0001 longValue ()J
code 2 1
aload_0
getfield java/lang/Long value J
lreturn
end

# The long that stands in a text: decimal digits, behind a sign or not. The sum is that of the negative number, since the
# least long has no negative, and no sum is made that would pass the limit.
# Locals: 0 text, 1 index, 2 negative, 3 limit, 5 sum, 7 digit.
method 0x0009 parseLong (Ljava/lang/String;)J
code 6 8
aload_0
ifnonnull Present
new java/lang/NumberFormatException
dup
ldc "null"
invokespecial java/lang/NumberFormatException <init> (Ljava/lang/String;)V
athrow
Present:
frame Present O:java/lang/String |
iconst_0
istore_1
iconst_0
istore_2
ldc2_w -9223372036854775807
lstore_3
lconst_0
lstore 5
aload_0
invokevirtual java/lang/String isEmpty ()Z
ifne NoLong
aload_0
iconst_0
invokevirtual java/lang/String charAt (I)C
lookupswitch Digits 43 Plus 45 Minus
Minus:
frame Minus O:java/lang/String I I J J |
iconst_1
istore_2
ldc2_w -9223372036854775808
lstore_3
Plus:
frame Plus O:java/lang/String I I J J |
iconst_1
istore_1
Digits:
frame Digits O:java/lang/String I I J J |
iload_1
aload_0
invokevirtual java/lang/String length ()I
if_icmpge NoLong
Digit:
frame Digit O:java/lang/String I I J J |
aload_0
iload_1
invokevirtual java/lang/String charAt (I)C
invokestatic java/lang/Long digit (C)I
istore 7
iload 7
iflt NoLong
lload 5
lload_3
ldc2_w 10
ldiv
lcmp
iflt NoLong
lload 5
ldc2_w 10
lmul
lstore 5
lload 5
lload_3
iload 7
i2l
ladd
lcmp
iflt NoLong
lload 5
iload 7
i2l
lsub
lstore 5
iinc 1 1
iload_1
aload_0
invokevirtual java/lang/String length ()I
if_icmplt Digit
iload_2
ifne Negative
lload 5
lneg
lreturn
Negative:
frame Negative O:java/lang/String I I J J |
lload 5
lreturn
NoLong:
frame NoLong O:java/lang/String |
aload_0
invokestatic java/lang/Long noLong (Ljava/lang/String;)Ljava/lang/NumberFormatException;
athrow
end

# A long in decimal.
method 0x0009 toString (J)Ljava/lang/String;
code 2 2
lload_0
invokestatic java/lang/String valueOf (J)Ljava/lang/String;
areturn
end

# The long in decimal.
method 0x0001 toString ()Ljava/lang/String;
code 2 1
aload_0
getfield java/lang/Long value J
invokestatic java/lang/String valueOf (J)Ljava/lang/String;
areturn
end

# Whether the other one is a Long of the same long.
method 0x0001 equals (Ljava/lang/Object;)Z
code 4 2
aload_1
instanceof java/lang/Long
ifeq Different
aload_0
getfield java/lang/Long value J
aload_1
checkcast java/lang/Long
getfield java/lang/Long value J
lcmp
ifne Different
iconst_1
ireturn
Different:
frame Different O:java/lang/Long O:java/lang/Object |
iconst_0
ireturn
end

# The exclusive or of the halves of the long.
method 0x0001 hashCode ()I
code 5 1
aload_0
getfield java/lang/Long value J
dup2
bipush 32
lushr
lxor
l2i
ireturn
end

# A helper: the value of a decimal digit, or -1. The digits of each script stand in a row from their zero on; these are the
# zeros of Unicode 6.2, as far as a unit reaches.
# Locals: 0 unit, 1 zeros, 2 index, 3 value.
method 0x000a digit (C)I
code 3 4
ldc "0\u0660\u06f0\u07c0\u0966\u09e6\u0a66\u0ae6\u0b66\u0be6\u0c66\u0ce6\u0d66\u0e50\u0ed0\u0f20\u1040\u1090\u17e0\u1810\u1946\u19d0\u1a80\u1a90\u1b50\u1bb0\u1c40\u1c50\ua620\ua8d0\ua900\ua9d0\uaa50\uabf0\uff10"
astore_1
iconst_0
istore_2
Script:
frame Script I O:java/lang/String I |
iload_0
aload_1
iload_2
invokevirtual java/lang/String charAt (I)C
isub
istore_3
iload_3
iflt Next
iload_3
bipush 10
if_icmpge Next
iload_3
ireturn
Next:
frame Next I O:java/lang/String I |
iinc 2 1
iload_2
aload_1
invokevirtual java/lang/String length ()I
if_icmplt Script
iconst_m1
ireturn
end

# A helper: what is thrown for a text in which no long stands.
method 0x000a noLong (Ljava/lang/String;)Ljava/lang/NumberFormatException;
code 4 1
new java/lang/NumberFormatException
dup
ldc "For input string: \""
aload_0
invokevirtual java/lang/String concat (Ljava/lang/String;)Ljava/lang/String;
ldc "\""
invokevirtual java/lang/String concat (Ljava/lang/String;)Ljava/lang/String;
invokespecial java/lang/NumberFormatException <init> (Ljava/lang/String;)V
areturn
end
"#)
    };
}

pub(crate) use numbers;
