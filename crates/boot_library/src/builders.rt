//! StringBuilder.

macro_rules! builders {
    ([$next:ident $($more:ident)*] $($text:literal)*) => {
        $next!([$($more)*] $($text)* r#"
# A text that grows: the first units of an array that is replaced by a larger one where it is full.
class 0x0031 java/lang/StringBuilder java/lang/Object
version 52

field 0x0002 value [C
field 0x0002 count I

# The empty text.
method 0x0001 <init> ()V
code 2 1
aload_0
invokespecial java/lang/Object <init> ()V
aload_0
bipush 16
newarray 5
putfield java/lang/StringBuilder value [C
return
end

# A text to begin with.
method 0x0001 <init> (Ljava/lang/String;)V
code 3 2
aload_0
invokespecial java/lang/Object <init> ()V
aload_0
aload_1
invokevirtual java/lang/String length ()I
bipush 16
iadd
newarray 5
putfield java/lang/StringBuilder value [C
aload_1
aload_0
getfield java/lang/StringBuilder value [C
iconst_0
invokevirtual java/lang/String getChars ([CI)V
aload_0
aload_1
invokevirtual java/lang/String length ()I
putfield java/lang/StringBuilder count I
return
end

# Adds a text, or a word for null.
method 0x0001 append (Ljava/lang/String;)Ljava/lang/StringBuilder;
code 3 2
aload_1
ifnonnull Present
ldc "null"
astore_1
Present:
frame Present O:java/lang/StringBuilder O:java/lang/String |
aload_0
aload_1
invokevirtual java/lang/String length ()I
invokespecial java/lang/StringBuilder makeRoom (I)V
aload_1
aload_0
getfield java/lang/StringBuilder value [C
aload_0
getfield java/lang/StringBuilder count I
invokevirtual java/lang/String getChars ([CI)V
aload_0
dup
getfield java/lang/StringBuilder count I
aload_1
invokevirtual java/lang/String length ()I
iadd
putfield java/lang/StringBuilder count I
aload_0
areturn
end

# Adds what the object's toString says, or a word for null.
method 0x0001 append (Ljava/lang/Object;)Ljava/lang/StringBuilder;
code 2 2
aload_0
aload_1
invokestatic java/lang/String valueOf (Ljava/lang/Object;)Ljava/lang/String;
invokevirtual java/lang/StringBuilder append (Ljava/lang/String;)Ljava/lang/StringBuilder;
areturn
end

# Adds an int in decimal.
method 0x0001 append (I)Ljava/lang/StringBuilder;
code 2 2
aload_0
iload_1
invokestatic java/lang/String valueOf (I)Ljava/lang/String;
invokevirtual java/lang/StringBuilder append (Ljava/lang/String;)Ljava/lang/StringBuilder;
areturn
end

# Adds a long in decimal.
method 0x0001 append (J)Ljava/lang/StringBuilder;
code 3 3
aload_0
lload_1
invokestatic java/lang/String valueOf (J)Ljava/lang/String;
invokevirtual java/lang/StringBuilder append (Ljava/lang/String;)Ljava/lang/StringBuilder;
areturn
end

# Adds a unit.
method 0x0001 append (C)Ljava/lang/StringBuilder;
code 3 2
aload_0
iconst_1
invokespecial java/lang/StringBuilder makeRoom (I)V
aload_0
getfield java/lang/StringBuilder value [C
aload_0
getfield java/lang/StringBuilder count I
iload_1
castore
aload_0
dup
getfield java/lang/StringBuilder count I
iconst_1
iadd
putfield java/lang/StringBuilder count I
aload_0
areturn
end

# Adds the word for a boolean.
method 0x0001 append (Z)Ljava/lang/StringBuilder;
code 2 2
aload_0
iload_1
invokestatic java/lang/String valueOf (Z)Ljava/lang/String;
invokevirtual java/lang/StringBuilder append (Ljava/lang/String;)Ljava/lang/StringBuilder;
areturn
end

# The number of units.
method 0x0001 length ()I
code 1 1
aload_0
getfield java/lang/StringBuilder count I
ireturn
end

# The text so far.
method 0x0001 toString ()Ljava/lang/String;
code 5 1
new java/lang/String
dup
aload_0
getfield java/lang/StringBuilder value [C
iconst_0
aload_0
getfield java/lang/StringBuilder count I
invokespecial java/lang/String <init> ([CII)V
areturn
end

# A helper: has the array hold so many units more. No array holds more than 2147483647, and the sum is then below 0. The
# array grows to twice its length and 2, so that the copies of many additions cost no more than the additions.
method 0x0002 makeRoom (I)V
code 5 5
aload_0
getfield java/lang/StringBuilder count I
iload_1
iadd
istore_2
iload_2
ifge Possible
new java/lang/OutOfMemoryError
dup
invokespecial java/lang/OutOfMemoryError <init> ()V
athrow
Possible:
frame Possible O:java/lang/StringBuilder I I |
iload_2
aload_0
getfield java/lang/StringBuilder value [C
arraylength
if_icmpgt Grow
return
Grow:
frame Grow O:java/lang/StringBuilder I I |
aload_0
getfield java/lang/StringBuilder value [C
arraylength
iconst_2
imul
iconst_2
iadd
istore_3
iload_3
iload_2
if_icmpge Copy
iload_2
istore_3
Copy:
frame Copy O:java/lang/StringBuilder I I I |
iload_3
newarray 5
astore 4
aload_0
getfield java/lang/StringBuilder value [C
iconst_0
aload 4
iconst_0
aload_0
getfield java/lang/StringBuilder count I
invokestatic java/lang/System arraycopy (Ljava/lang/Object;ILjava/lang/Object;II)V
aload_0
aload 4
putfield java/lang/StringBuilder value [C
return
end
"#)
    };
}

pub(crate) use builders;
