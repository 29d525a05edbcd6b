//! Exceptions that programs throw, and what writes to the streams.

macro_rules! further {
    ([$next:ident $($more:ident)*] $($text:literal)*) => {
        $next!([$($more)*] $($text)* r#"
# An argument doesn't suit a method.
class 0x0021 java/lang/IllegalArgumentException java/lang/RuntimeException
version 52

# Makes one without a message.
method 0x0001 <init> ()V
code 1 1
aload_0
invokespecial java/lang/RuntimeException <init> ()V
return
end

# Makes one with a message.
method 0x0001 <init> (Ljava/lang/String;)V
code 2 2
aload_0
aload_1
invokespecial java/lang/RuntimeException <init> (Ljava/lang/String;)V
return
end

# No number stands in a text.
class 0x0021 java/lang/NumberFormatException java/lang/IllegalArgumentException
version 52

# Makes one without a message.
method 0x0001 <init> ()V
code 1 1
aload_0
invokespecial java/lang/IllegalArgumentException <init> ()V
return
end

# Makes one with a message.
method 0x0001 <init> (Ljava/lang/String;)V
code 2 2
aload_0
aload_1
invokespecial java/lang/IllegalArgumentException <init> (Ljava/lang/String;)V
return
end

# A method was called at the wrong time.
class 0x0021 java/lang/IllegalStateException java/lang/RuntimeException
version 52

# Makes one without a message.
method 0x0001 <init> ()V
code 1 1
aload_0
invokespecial java/lang/RuntimeException <init> ()V
return
end

# Makes one with a message.
method 0x0001 <init> (Ljava/lang/String;)V
code 2 2
aload_0
aload_1
invokespecial java/lang/RuntimeException <init> (Ljava/lang/String;)V
return
end

# An object can't do what was asked for.
class 0x0021 java/lang/UnsupportedOperationException java/lang/RuntimeException
version 52

# Makes one without a message.
method 0x0001 <init> ()V
code 1 1
aload_0
invokespecial java/lang/RuntimeException <init> ()V
return
end

# Makes one with a message.
method 0x0001 <init> (Ljava/lang/String;)V
code 2 2
aload_0
aload_1
invokespecial java/lang/RuntimeException <init> (Ljava/lang/String;)V
return
end

# What a PrintStream writes by.
class 0x0031 jsa/Out java/lang/Object
version 52

# Writes units of an array, from an index on, so many, in UTF-8: to standard output where the stream is 1, to standard error
# where it is 2, and else nowhere. A surrogate without its partner is written as a question mark.
method 0x0109 write (I[CII)V
"#)
    };
}

pub(crate) use further;
