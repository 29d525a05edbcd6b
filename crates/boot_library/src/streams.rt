//! System and PrintStream.

macro_rules! streams {
    ([$next:ident $($more:ident)*] $($text:literal)*) => {
        $next!([$($more)*] $($text)* r#"
# The two streams of a run, and what reaches the machine.
class 0x0031 java/lang/System java/lang/Object
version 52

field 0x0019 out Ljava/io/PrintStream;
field 0x0019 err Ljava/io/PrintStream;

# Makes the streams: 1 is standard output, 2 standard error.
method 0x0008 <clinit> ()V
code 3 0
new java/io/PrintStream
dup
iconst_1
invokespecial java/io/PrintStream <init> (I)V
putstatic java/lang/System out Ljava/io/PrintStream;
new java/io/PrintStream
dup
iconst_2
invokespecial java/io/PrintStream <init> (I)V
putstatic java/lang/System err Ljava/io/PrintStream;
return
end

# Copies elements of an array, from an index on, into an array, from an index on: so many.
method 0x0109 arraycopy (Ljava/lang/Object;ILjava/lang/Object;II)V

# Ends the run with the low 8 bits of a status.
method 0x0109 exit (I)V

# The number of an object, whatever its hashCode says, and 0 for null.
method 0x0109 identityHashCode (Ljava/lang/Object;)I

# Prints texts to a stream of the run.
class 0x0021 java/io/PrintStream java/lang/Object
version 52

field 0x0012 stream I
field 0x0012 lineFeed [C

# Makes one for a stream: 1 is standard output, 2 standard error.
method 0x0001 <init> (I)V
code 3 2
aload_0
invokespecial java/lang/Object <init> ()V
aload_0
iload_1
putfield java/io/PrintStream stream I
aload_0
iconst_1
newarray 5
putfield java/io/PrintStream lineFeed [C
aload_0
getfield java/io/PrintStream lineFeed [C
iconst_0
bipush 10
castore
return
end

# Prints a text, or a word for null.
method 0x0001 print (Ljava/lang/String;)V
code 2 2
aload_1
ifnonnull Present
ldc "null"
astore_1
Present:
frame Present O:java/io/PrintStream O:java/lang/String |
aload_0
aload_1
invokevirtual java/lang/String toCharArray ()[C
invokespecial java/io/PrintStream write ([C)V
return
end

# Prints what the object's toString says, or a word for null.
method 0x0001 print (Ljava/lang/Object;)V
code 2 2
aload_0
aload_1
invokestatic java/lang/String valueOf (Ljava/lang/Object;)Ljava/lang/String;
invokevirtual java/lang/String toCharArray ()[C
invokespecial java/io/PrintStream write ([C)V
return
end

# Prints an int in decimal.
method 0x0001 print (I)V
code 2 2
aload_0
iload_1
invokestatic java/lang/String valueOf (I)Ljava/lang/String;
invokevirtual java/lang/String toCharArray ()[C
invokespecial java/io/PrintStream write ([C)V
return
end

# Prints a long in decimal.
method 0x0001 print (J)V
code 3 3
aload_0
lload_1
invokestatic java/lang/String valueOf (J)Ljava/lang/String;
invokevirtual java/lang/String toCharArray ()[C
invokespecial java/io/PrintStream write ([C)V
return
end

# Prints a unit.
method 0x0001 print (C)V
code 3 3
iconst_1
newarray 5
astore_2
aload_2
iconst_0
iload_1
castore
aload_0
aload_2
invokespecial java/io/PrintStream write ([C)V
return
end

# Prints the word for a boolean.
method 0x0001 print (Z)V
code 2 2
aload_0
iload_1
invokestatic java/lang/String valueOf (Z)Ljava/lang/String;
invokevirtual java/lang/String toCharArray ()[C
invokespecial java/io/PrintStream write ([C)V
return
end

# Ends the line.
method 0x0001 println ()V
code 1 1
aload_0
invokespecial java/io/PrintStream newLine ()V
return
end

# Prints a text, and ends the line.
method 0x0001 println (Ljava/lang/String;)V
code 2 2
aload_0
aload_1
invokevirtual java/io/PrintStream print (Ljava/lang/String;)V
aload_0
invokespecial java/io/PrintStream newLine ()V
return
end

# Prints an object, and ends the line.
method 0x0001 println (Ljava/lang/Object;)V
code 2 2
aload_0
aload_1
invokestatic java/lang/String valueOf (Ljava/lang/Object;)Ljava/lang/String;
invokevirtual java/io/PrintStream print (Ljava/lang/String;)V
aload_0
invokespecial java/io/PrintStream newLine ()V
return
end

# Prints an int, and ends the line.
method 0x0001 println (I)V
code 2 2
aload_0
iload_1
invokevirtual java/io/PrintStream print (I)V
aload_0
invokespecial java/io/PrintStream newLine ()V
return
end

# Prints a long, and ends the line.
method 0x0001 println (J)V
code 3 3
aload_0
lload_1
invokevirtual java/io/PrintStream print (J)V
aload_0
invokespecial java/io/PrintStream newLine ()V
return
end

# Prints a unit, and ends the line.
method 0x0001 println (C)V
code 2 2
aload_0
iload_1
invokevirtual java/io/PrintStream print (C)V
aload_0
invokespecial java/io/PrintStream newLine ()V
return
end

# Prints a boolean, and ends the line.
method 0x0001 println (Z)V
code 2 2
aload_0
iload_1
invokevirtual java/io/PrintStream print (Z)V
aload_0
invokespecial java/io/PrintStream newLine ()V
return
end

# Nothing waits to be written.
method 0x0001 flush ()V
code 0 1
return
end

# A helper: writes units in one call.
method 0x0002 write ([C)V
code 4 2
aload_0
getfield java/io/PrintStream stream I
aload_1
iconst_0
aload_1
arraylength
invokestatic jsa/Out write (I[CII)V
return
end

# A helper: ends the line by a call of its own.
method 0x0002 newLine ()V
code 2 1
aload_0
aload_0
getfield java/io/PrintStream lineFeed [C
invokespecial java/io/PrintStream write ([C)V
return
end
"#)
    };
}

pub(crate) use streams;
