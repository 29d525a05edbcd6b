//! Character, Boolean, Math, Enum and Runnable.

macro_rules! values {
    ([$next:ident $($more:ident)*] $($text:literal)*) => {
        $next!([$($more)*] $($text)* r#"
# A unit of UTF-16 as an object.
class 0x0031 java/lang/Character java/lang/Object
version 52

field 0x0012 value C

# A helper: makes one.
method 0x0002 <init> (C)V
code 2 2
aload_0
invokespecial java/lang/Object <init> ()V
aload_0
iload_1
putfield java/lang/Character value C
return
end

# Makes one, a new one each time.
method 0x0009 valueOf (C)Ljava/lang/Character;
code 3 1
new java/lang/Character
dup
iload_0
invokespecial java/lang/Character <init> (C)V
areturn
end

# The unit.
method 0x0001 charValue ()C
code 1 1
aload_0
getfield java/lang/Character value C
ireturn
end

# Whether the other one is a Character of the same unit.
method 0x0001 equals (Ljava/lang/Object;)Z
code 2 2
aload_1
instanceof java/lang/Character
ifeq Different
aload_0
getfield java/lang/Character value C
aload_1
checkcast java/lang/Character
getfield java/lang/Character value C
if_icmpne Different
iconst_1
ireturn
Different:
frame Different O:java/lang/Character O:java/lang/Object |
iconst_0
ireturn
end

# The unit.
method 0x0001 hashCode ()I
code 1 1
aload_0
getfield java/lang/Character value C
ireturn
end

# The unit alone.
method 0x0001 toString ()Ljava/lang/String;
code 1 1
aload_0
getfield java/lang/Character value C
invokestatic java/lang/String valueOf (C)Ljava/lang/String;
areturn
end

# A boolean as an object.
class 0x0031 java/lang/Boolean java/lang/Object
version 52

field 0x0012 value Z

# A helper: makes one.
method 0x0002 <init> (Z)V
code 2 2
aload_0
invokespecial java/lang/Object <init> ()V
aload_0
iload_1
putfield java/lang/Boolean value Z
return
end

# Makes one, a new one each time.
method 0x0009 valueOf (Z)Ljava/lang/Boolean;
code 3 1
new java/lang/Boolean
dup
iload_0
invokespecial java/lang/Boolean <init> (Z)V
areturn
end

# The boolean.
method 0x0001 booleanValue ()Z
code 1 1
aload_0
getfield java/lang/Boolean value Z
ireturn
end

# Whether the other one is a Boolean of the same boolean.
method 0x0001 equals (Ljava/lang/Object;)Z
code 2 2
aload_1
instanceof java/lang/Boolean
ifeq Different
aload_0
getfield java/lang/Boolean value Z
aload_1
checkcast java/lang/Boolean
getfield java/lang/Boolean value Z
if_icmpne Different
iconst_1
ireturn
Different:
frame Different O:java/lang/Boolean O:java/lang/Object |
iconst_0
ireturn
end

# 1231 for true, 1237 for false.
method 0x0001 hashCode ()I
code 1 1
aload_0
getfield java/lang/Boolean value Z
ifeq False
sipush 1231
ireturn
False:
frame False O:java/lang/Boolean |
sipush 1237
ireturn
end

# The word for the boolean.
method 0x0001 toString ()Ljava/lang/String;
code 1 1
aload_0
getfield java/lang/Boolean value Z
invokestatic java/lang/String valueOf (Z)Ljava/lang/String;
areturn
end

# Functions of whole numbers.
class 0x0031 java/lang/Math java/lang/Object
version 52

# An int without its sign. The least int has none without, and stays.
method 0x0009 abs (I)I
code 1 1
iload_0
iflt Negative
iload_0
ireturn
Negative:
frame Negative I |
iload_0
ineg
ireturn
end

# A long without its sign. The least long has none without, and stays.
method 0x0009 abs (J)J
code 4 2
lload_0
lconst_0
lcmp
iflt Negative
lload_0
lreturn
Negative:
frame Negative J |
lload_0
lneg
lreturn
end

# The lesser of two ints.
method 0x0009 min (II)I
code 2 2
iload_0
iload_1
if_icmpgt Second
iload_0
ireturn
Second:
frame Second I I |
iload_1
ireturn
end

# The lesser of two longs.
method 0x0009 min (JJ)J
code 4 4
lload_0
lload_2
lcmp
ifgt Second
lload_0
lreturn
Second:
frame Second J J |
lload_2
lreturn
end

# The greater of two ints.
method 0x0009 max (II)I
code 2 2
iload_0
iload_1
if_icmplt Second
iload_0
ireturn
Second:
frame Second I I |
iload_1
ireturn
end

# The greater of two longs.
method 0x0009 max (JJ)J
code 4 4
lload_0
lload_2
lcmp
iflt Second
lload_0
lreturn
Second:
frame Second J J |
lload_2
lreturn
end

# A constant of an enum: a name, and a number in the order in which the constants are declared.
class 0x0421 java/lang/Enum java/lang/Object java/lang/Comparable java/io/Serializable
version 52

field 0x0012 name Ljava/lang/String;
field 0x0012 ordinal I

# A constant of a subclass.
method 0x0004 <init> (Ljava/lang/String;I)V
code 2 3
aload_0
invokespecial java/lang/Object <init> ()V
aload_0
aload_1
putfield java/lang/Enum name Ljava/lang/String;
aload_0
iload_2
putfield java/lang/Enum ordinal I
return
end

# The name.
method 0x0011 name ()Ljava/lang/String;
code 1 1
aload_0
getfield java/lang/Enum name Ljava/lang/String;
areturn
end

# The number.
method 0x0011 ordinal ()I
code 1 1
aload_0
getfield java/lang/Enum ordinal I
ireturn
end

# The name, unless a subclass says something else.
method 0x0001 toString ()Ljava/lang/String;
code 1 1
aload_0
getfield java/lang/Enum name Ljava/lang/String;
areturn
end

# Whether the other one is this very constant.
method 0x0011 equals (Ljava/lang/Object;)Z
code 2 2
aload_0
aload_1
if_acmpne Another
iconst_1
ireturn
Another:
frame Another O:java/lang/Enum O:java/lang/Object |
iconst_0
ireturn
end

# The hash code that any object has.
method 0x0011 hashCode ()I
code 1 1
aload_0
invokespecial java/lang/Object hashCode ()I
ireturn
end

# The difference of the numbers. Constants of two enums have no order.
method 0x0011 compareTo (Ljava/lang/Enum;)I
code 2 2
aload_0
invokevirtual java/lang/Object getClass ()Ljava/lang/Class;
aload_1
invokevirtual java/lang/Object getClass ()Ljava/lang/Class;
if_acmpeq SameEnum
aload_0
invokespecial java/lang/Enum declaringClass ()Ljava/lang/Class;
aload_1
invokespecial java/lang/Enum declaringClass ()Ljava/lang/Class;
if_acmpeq SameEnum
new java/lang/ClassCastException
dup
invokespecial java/lang/ClassCastException <init> ()V
athrow
SameEnum:
frame SameEnum O:java/lang/Enum O:java/lang/Enum |
aload_0
getfield java/lang/Enum ordinal I
aload_1
getfield java/lang/Enum ordinal I
isub
ireturn
end

# The same, as Comparable has it.
method 0x1041 compareTo (Ljava/lang/Object;)I
code 2 2
aload_0
aload_1
checkcast java/lang/Enum
invokevirtual java/lang/Enum compareTo (Ljava/lang/Enum;)I
ireturn
end

# A helper: the enum, whose direct superclass is Enum. A constant with a body has a class of its own below it.
method 0x0002 declaringClass ()Ljava/lang/Class;
code 2 3
aload_0
invokevirtual java/lang/Object getClass ()Ljava/lang/Class;
astore_1
aload_1
invokevirtual java/lang/Class getSuperclass ()Ljava/lang/Class;
astore_2
aload_2
ldc class java/lang/Enum
if_acmpne WithBody
aload_1
areturn
WithBody:
frame WithBody O:java/lang/Enum O:java/lang/Class O:java/lang/Class |
aload_2
areturn
end

# Something to be done.
class 0x0601 java/lang/Runnable java/lang/Object
version 52

# Does it.
method 0x0401 run ()V
"#)
    };
}

pub(crate) use values;
